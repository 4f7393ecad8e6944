//! Descriptors in guest memory, and the indirect tables that they may refer to (2.7.5.3, 2.8.7).
//!
//! A table's buffers are appended to the chain that its ring is filling. Every table is walked to an end:
//! to its buffers, or to the first fault, and what the driver wrote decides between them, whatever it
//! wrote. The walk over linked descriptors is stated here for any table, so a ring states its own by it.
#![tactic(auto)]

mod append;
mod descriptor;
mod laws;
mod table;

pub use append::{append_packed, append_split};
pub use descriptor::{Descriptor, INDIRECT, NEXT, PackedDescriptor, WRITE};
pub use laws::{front_is_longest, one_outcome_of_list, one_outcome_of_table, one_outcome_of_walk};
