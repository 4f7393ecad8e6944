//! The device's side of a virtqueue whose guest may write its memory while it is served.
//!
//! Whatever the guest writes meanwhile, each number of the ring is read once and kept: the available idx as the ring is
//! opened, a head, and a descriptor until the next chain. An indirect table is copied, and walked in the copy.
#![tactic(auto)]

mod descriptor;
mod laws;
mod packed;
mod queue;
mod room;
mod split;
mod table;
mod walk;

pub use laws::{
    a_chain_that_is_left_alone_is_offered_at_one_moment,
    a_guest_that_stands_still_is_served_as_it_is,
};
pub use packed::{
    RacingPackedRing, a_list_that_is_left_alone_is_offered_at_one_moment,
    a_list_that_is_published_meanwhile_is_taken_as_it_stands,
    a_packed_ring_that_stands_still_is_served_as_it_is,
};
pub use queue::RacingQueue;
pub use room::Room;
pub use split::RacingSplitRing;
