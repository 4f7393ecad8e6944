//! Event suppression: whether a driver wants a notification of what its device used.
//!
//! A device serves a queue chain after chain and notifies the driver once, when it closes the service.
//! The driver says in its area of the queue whether it wants that: never, of everything, or only once
//! a certain place of the ring was passed. The split and the packed virtqueue ask here as they close.
#![tactic(auto)]

mod laws;
mod packed;
mod places;
mod split;

pub use laws::places_passed_since_the_first;
pub use packed::{packed_wants, packed_wants_by};
pub use places::is_passed;
pub use split::split_wants;
