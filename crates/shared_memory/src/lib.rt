//! Guest memory for a device whose guest may run on meanwhile.
//!
//! Each access is a copy, into a buffer of the device or out of it. No slice of a memory is lent that its guest may write, so no
//! byte of it is read but by a call here, and each call reads anew.
#![tactic(auto)]

mod memory;
mod ranges_of;

pub use memory::Shared;
pub use ranges_of::RangesOf;
