//! The bytes or words that a host lends of its own memory.
//!
//! A guest's memory may be larger than a library should copy or clear, and a host often has it already, as a
//! mapping that a guest runs on. `loan` and `word_loan` have what C hands over, `lent` makes a `Vec` of it, which can't grow and frees
//! nothing.
#![tactic(auto)]

mod lends;
mod lent;
mod loan;
mod word_loan;

pub use lends::Lends;
pub use lent::{lend, lend_words};
pub use loan::Loan;
pub use word_loan::WordLoan;
