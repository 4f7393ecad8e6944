//! Guest memory that the guest's own CPUs write at any moment.
//!
//! It is rows of words, each of which changes in single atomic steps, so nothing is known of what a step finds. `word` has
//! the steps, `region` finds the words of a range, and `memory` the region of an access. What an access found is noted as what the memory was seen as: `past`
//! has the one call that says so.
#![tactic(auto)]

mod laws;
mod memory;
mod past;
mod region;
mod word;

pub use laws::{
    a_memory_that_is_left_alone_is_seen_as_it_stood, each_memory_may_stand_there,
    good_regions_make_a_memory,
};
pub use memory::RacingMemory;
pub use past::Past;
pub use region::RacingRegion;
