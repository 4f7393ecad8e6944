//! The queues of a register window while their guest runs on: each as a racing ring, and one service of it with what the
//! window shows.
#![tactic(auto)]

mod flight;
mod laws;
mod memory;
mod place;
mod ring;
mod service;

pub use laws::{
    a_chain_that_is_left_alone_is_of_one_moment, a_queue_that_stands_still_is_served_by_services,
    a_window_that_stands_still_is_served_once,
};
pub use memory::fits;
pub use place::{place_of, put_to};
pub use ring::RacingRing;
pub use service::{met_with, serve_queue};
