//! A block device (5.2) whose disk its host serves, for a guest that may write its memory during each call: its driver's
//! requests are operations of the host, each with a tag, and the host says what came of them. Whose queue and memory they are,
//! and what a window shows, the caller says.
#![tactic(auto)]

mod disk;
mod laws;
mod look;
mod step;
mod told;
mod unserved;
mod view;

pub use disk::RacingHostedDisk;
pub use laws::{
    a_chain_that_is_left_alone_is_told_of_as_it_is, a_guest_that_stands_still_is_given_back,
    a_guest_that_stands_still_is_told_of_as_it_is, what_is_in_flight_outlasts,
};
pub use look::{LookEnding, LookLimits, Served};
