//! A slot's devices as bytes: a snapshot is written of what the slot keeps, and read again.
#![tactic(auto)]

mod fault;
mod head;
mod laws;
mod reader;
mod reading;
mod saved;
mod slot;
mod writing;

pub use fault::{ShortBuffer, SnapshotFault, Why};
pub use laws::{bytes_have_one_fault, fields_are_the_spelling};
pub use reading::read;
pub use saved::{MOST_DEVICES, SavedDevice, SavedSlot};
pub use writing::{write_into, written_len};
