//! A chain of a virtqueue: the buffers that a driver hands over in one request, seen as two lists.
//!
//! The readable list is every byte of the buffers that the device may read, in order; the writable list
//! is one address for each byte that it may write. A ring fills a chain with the buffers of a path of
//! descriptors and names the first that can't stand; a device then reads and writes by places of the two
//! lists and never sees where a buffer ends. Here too stands what one service of a queue is, for every
//! kind of ring and every device, and what a room counts of its services.
#![tactic(auto)]

mod budget;
mod buffers;
mod bytes;
mod counts;
mod fault;
mod laws;
mod runs;
mod segment;
mod setup;
mod state;
mod virtqueue;

pub use budget::{Budget, Progress};
pub use buffers::Chain;
pub use counts::Counts;
pub use fault::Fault;
pub use laws::{
    a_budget_is_kept, later_byte_stands, one_by_one, one_refusal, runs_are_of_their_places,
};
pub use runs::Runs;
pub use segment::{Buffer, Segment};
pub use setup::{Areas, Setup};
pub use state::RingState;
pub use virtqueue::{Used, Virtqueue};
