//! A guest of racing_guest over a memory that nobody else writes: each of its calls is one event of a slot of a board whose disk its
//! host serves. Only laws stand here.
#![tactic(auto)]

mod laws;

pub use laws::{
    a_console_that_stands_still_is_a_slots, a_disk_stays_its_own,
    a_disk_that_stands_still_is_a_slots, a_new_guest_is_a_new_slot,
    a_queue_that_is_served_again_is_notified,
};
