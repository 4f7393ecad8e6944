//! Text that is woven of records and of what is said between them.
//!
//! `text` puts words together, and `lines` cuts a text. `woven` puts records and texts behind one another, so that the
//! records can be told from the rest. `weaver` is a writer of records that asks a teller, `tell`, what to say between them.

mod lines;
mod tell;
mod text;
mod weaver;
mod woven;

pub use lines::take_line;
pub use tell::Tell;
pub use text::Text;
pub use weaver::Weaver;
