//! One service of a virtqueue whose guest may write its memory meanwhile, for any device and both kinds of ring.
//!
//! A driver that offers a chain while its device closes the queue may not notify. So the service looks again behind its
//! closing writes, and goes on until it finds nothing new.
#![tactic(auto)]

mod flight;
mod laws;
mod service;
mod sink;
mod stage;

pub use flight::KeepsFlights;
pub use laws::{
    a_chain_that_is_left_alone_is_left_at_one_moment,
    a_chain_that_is_left_alone_is_served_at_one_moment,
    a_packed_ring_that_stands_still_is_served_by_services,
    a_settled_service_saw_nothing_more_on_offer,
    a_split_ring_that_stands_still_is_served_by_services, what_is_seen_the_same_is_left_alone,
};
pub use racing_ring::RacingQueue;
pub use service::{Ending, Limits, Outcome, Refused, serve};
pub use sink::Sink;
pub use stage::Stage;
