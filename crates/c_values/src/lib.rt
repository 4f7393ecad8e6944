//! What both C libraries take, hold and tell: a board's, and that of guests that run on.
//!
//! `slot` is a guest as C describes it, `region` the regions of its memory, `loans` what a host lends of it, and `limits` how much one call
//! may serve. `operation` is what a disk is asked for, `fault` why a window asks for a reset, and `pending` what waits. `codes` has the
//! numbers of answers. `parts` is a box with its fields in sight, of which a handle is made; the walks through the functions of each
//! handle stand in `proofs`.
#![tactic(auto)]

mod codes;
mod fault;
mod limits;
mod loans;
mod operation;
mod parts;
mod pending;
mod region;
mod slot;

pub use codes::{
    BAD_DEPTH, BAD_DEVICE, BAD_LOAN, BAD_MEMORY_BASE, BAD_MEMORY_SIZE, BAD_OUTLET, BAD_RANGE,
    BAD_SIZE, BAD_WINDOW, BUSY, DONE, EXTENT_OUTSIDE, HAS_BOARD, IDLE, IO, MORE, NO_BOARD,
    NO_MEMORY, NO_REGIONS, NO_ROOM, REGIONS_NOT_APART, of_memory_fault,
};
pub use fault::Fault;
pub use limits::budget;
pub use loans::{have_bits, taken};
pub use operation::{Operation, Run, tell_runs, verdict};
pub use parts::Parts;
pub use pending::{DevicePending, Pending};
pub use region::regions;
pub use slot::{Device, MOST_DEVICES, NO_DEVICE, SLOT_SIZE, Slot, depth};
