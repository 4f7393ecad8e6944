//! The request queue of a block device whose disk the host serves (5.2), over a memory that its guest may write meanwhile.
//!
//! `copy` copies places of a chain's readable list, `header` and `segments` are made of such copies, and `request` has them
//! judged by block_device. `serving` is the device to a service of its queue, and `operation` leaves a chain in flight, whose
//! host is told of the copy that was judged.
#![tactic(auto)]

mod answer;
mod completion;
mod copy;
mod disk;
mod header;
mod laws;
mod look;
mod operation;
mod request;
mod segments;
mod serving;

pub use completion::complete;
pub use disk::RacingDisk;
pub use laws::{
    a_guest_that_stands_still_asks_for_what_it_has, a_guest_that_stands_still_is_completed,
    an_answered_chain_is_served, what_is_zeroed_lies_on_the_disk,
};
pub use look::Found;
