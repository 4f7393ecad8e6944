//! What a guest is whose CPUs run on while it is served: a block device and a console, each with its register window, over a
//! memory that is handed to each call. It shares nothing with any other guest: its disk is its host's.
#![tactic(auto)]

mod block;
mod console;
mod guest;
mod laws;
mod reply;
mod spec;

pub use block::RacingBlock;
pub use console::RacingConsole;
pub use guest::RacingGuest;
pub use laws::{
    a_guest_is_sound_for_the_range, what_the_host_is_told_is_of_one_moment,
    what_the_host_is_told_lies_inside,
};
pub use reply::{GuestQueue, GuestWindow, Reply};
pub use spec::GuestSpec;
