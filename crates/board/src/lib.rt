//! The board: up to sixty-four guests, each with a memory and two device windows of its own, over one
//! backing image that they share extent by extent.
//!
//! Everything that a guest does to its devices is an event, and the board handles one event at a
//! time, to its end. The promise that the crate exists for is on `Board::run`: no guest can see a
//! difference that another one caused.
//!
//! `board` is the board. `spec` says what it is made of, `check` and `fault` why one is refused;
//! `event` is what comes in, `in_place` an event whose bytes the caller has, and `reply` what goes out, and `pause` what a turn of a slot is asked and comes to,
//! whose service may pause, and `task` what a write leaves to be done. `slot` serves one guest, its memory, its two windows
//! and its two devices, and knows of no other; `own_disk` is who has its disk, and `slot_disk` says which of its disks it is; `counters` is what it counts of them,
//! `opening` opens the slots of a board, and `lent` makes a slot's memory of a host's bytes. `laws` has what holds of every
//! run by itself.
#![tactic(auto)]

mod board;
mod bytes;
mod check;
mod counters;
mod event;
mod fault;
mod guest;
mod in_place;
mod laws;
mod lent;
mod opening;
mod own_disk;
mod pause;
mod refusal;
mod reply;
mod saved;
mod slot;
mod slot_disk;
mod spec;
mod task;

pub use block_device::{Extent, HostEvent, Verdict};
pub use board::{Board, Taken};
pub use bytes::Bytes;
pub use chain::{Budget, Fault};
pub use check::check_slots;
pub use console_device::Outlet;
pub use counters::Counters;
pub use device_list::{AddRefusal, DeviceSpec, HostedDisk, MOST_DEVICES, VirtioDevice};
pub use event::{DeviceEvent, Event, EventKind, SlotWindow};
pub use fault::{BoardFault, SlotFault};
pub use guest_memory::{GuestMemory, MemoryFault, RegionSpec, Regions};
pub use in_place::{DeviceInPlace, InPlace};
pub use laws::{
    a_cut_event_touches_no_other_disk, a_disk_does_as_its_host_says, a_dropped_slot_never_waits,
    a_failed_event_keeps_the_rest, a_flight_outlasts_own_events, a_guest_alone_has_one_run,
    a_release_makes_up_for_a_notification, a_restore_is_refused_for_one_cause,
    a_restored_guest_goes_on, a_step_is_a_run, a_stop_between_events_loses_nothing,
    an_event_marks_its_pages, an_honest_host_serves, each_guest_is_alone,
    each_guest_is_alone_whatever_it_meets, identities_stay, no_chain_is_taken_on_hold,
    nothing_else_is_seen, one_outcome, one_outcome_within, refusals_are_noted, two_runs_are_one,
    want_of_memory_changes_nothing, want_of_memory_keeps_the_rest,
    what_touches_no_memory_needs_none, what_waits_changes_nothing,
};
pub use mmio_window::{FaultNote, Stage};
pub use pause::{Pause, Service, Turn, Work};
pub use refusal::PlugRefusal;
pub use reply::{Handled, Record, Reply, RunStop};
pub use saved::{RestoreFault, RestoreRefusal, SaveRefusal};
pub use sector_cache::{CacheFault, Image, ImageError, ImageFault, MemoryImage, Refused};
pub use slot_disk::SlotDisk;
pub use snapshot::{ShortBuffer, SnapshotFault};
pub use spec::{Backing, SlotSpec};
pub use task::Task;
