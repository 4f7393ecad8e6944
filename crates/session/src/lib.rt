//! Sessions: a board by calls rather than events, with what each guest's console put out until it is taken. A program in
//! another language stands on them.
//!
//! `session` is a board over an image in memory, where each guest's disk is of the image or one that the host serves, a
//! module for each kind of call: `registers`, `disk`, `memory`, `console`, `devices`, `disks`, `image` and `saved`.
//!
//! Each call serves within the session's budget. A service pauses where the budget is spent, before its next chain, and goes
//! on when it is told to. `turn_kind` says what a slot is asked to do in a call, `response` what comes of it, and `progress`
//! what the caller is told.
//!
//! `guest` is what a session is made of, `image_disks` says which sectors the further disks over the image may have, and
//! `plugging` gives its board the guests' further devices. `fault` says why there is no
//! session, `refusal` why a call was refused, `handed` what became of bytes that were handed in, `laws` what holds of every
//! session, and `lines` what holds of every line of calls.
#![tactic(auto)]

mod fault;
mod guest;
mod handed;
mod image_disks;
mod laws;
mod lines;
mod plugging;
mod progress;
mod refusal;
mod response;
mod session;
mod told;
mod turn_kind;

pub use block_device::{Operation, OperationKind, Verdict};
pub use board::{
    Backing, Board, BoardFault, Budget, CacheFault, Counters, DeviceSpec, Event, EventKind, Extent,
    Fault, FaultNote, GuestMemory, HostEvent, HostedDisk, MOST_DEVICES, MemoryFault, Outlet, Pause,
    RegionSpec, Regions, Reply, RestoreFault, RestoreRefusal, SaveRefusal, Service, SlotDisk,
    SlotFault, SlotSpec, SlotWindow,
};
pub use chain::Segment;
pub use fault::SessionFault;
pub use guest::{GuestSpec, has_bad_device};
pub use handed::Handed;
pub use image_disks::has_bad_image_disk;
pub use laws::{
    a_flight_outlasts_own_events, a_guest_with_room_runs_alone, a_write_in_place_is_an_event,
    each_guest_is_alone, the_outlet_decides, what_touches_no_memory_needs_none,
    what_waits_changes_nothing,
};
pub use lines::{each_paced_guest_is_alone, refusals_are_noted};
pub use progress::Progress;
pub use refusal::Refusal;
pub use response::Response;
pub use session::Session;
pub use told::{DeviceWaits, Told, Waits};
