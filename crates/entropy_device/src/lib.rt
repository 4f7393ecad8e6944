//! An entropy device (5.4): random bytes that its host supplies go into the buffers of the requestq.
#![tactic(auto)]

mod device;
mod laws;
mod requestq;
mod serve;

pub use device::EntropyDevice;
pub use laws::{
    each_byte_has_one_place, each_chain_gets_a_byte, no_service_is_refused, one_answer,
    used_len_counts_what_was_given,
};
pub use serve::REQUESTQ;
