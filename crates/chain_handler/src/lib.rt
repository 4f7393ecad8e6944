//! A handler of chains that is written once: for a guest that stands still while it is served, and for one that runs on.
//!
//! A handler sees a chain as two lists: bytes, each of which it reads once, and places to write. `read_in_chain` reads, and
//! `store_in_chain` writes. `Standing` is a handler to a service of a guest that stands still.
#![tactic(auto)]

mod handler;
mod laws;
mod reading;
mod standing;
mod storing;

pub use handler::ChainHandler;
pub use laws::a_row_of_bytes_is_stored_in_parts;
pub use reading::read_in_chain;
pub use standing::Standing;
pub use storing::store_in_chain;
