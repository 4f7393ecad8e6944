//! The memory of one guest, and checked access to it.
//!
//! A guest's driver hands addresses to its devices, and may hand any. Each access here is tested against
//! the memory's regions first, so the layers above never reach beside them. They stand on this crate for
//! every byte of a descriptor, a ring or a buffer.
#![tactic(auto)]

mod bytes;
mod fault;
mod laws;
mod lookup;
mod memory;
mod numbers;
mod pages;
mod ranged;
mod region;
mod spec;

pub use fault::{MemoryFault, RegionFault, fault_of, fault_of_regions};
pub use laws::{a_range_is_tested, a_write_marks_its_pages};
pub use memory::GuestMemory;
pub use pages::mark_pages;
pub use ranged::Ranged;
pub use region::Region;
pub use spec::{MOST_REGIONS, RegionSpec, Regions};
