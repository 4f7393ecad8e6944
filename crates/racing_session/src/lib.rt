//! One guest that runs on, by calls: its devices, its memory, whose words its host lends, and its console's output until it is
//! taken.
//!
//! `session` is the guest, a module for each kind of call: `registers`, `console`, `disk`, `devices`, `place` and `memory`. Beside it
//! `memory` keeps the words of the guest's regions, `further` its further devices, and `due` which queues are to be served once more. `spec` says what a session is made
//! of, and `fault` why there is none, or no other memory. `told` and `progress` say what a call tells, and `laws` what holds of
//! every session.
#![tactic(auto)]

mod due;
mod fault;
mod further;
mod laws;
mod memory;
mod progress;
mod session;
mod spec;
mod told;

pub use block_device::{HostEvent, Operation, OperationKind, Verdict};
pub use chain::{Budget, Segment};
pub use device_list::{AddRefusal, DeviceSpec, MOST_DEVICES, ReceiveRefusal, WriteRefusal};
pub use due::Due;
pub use fault::{MemoryRefusal, RacingFault};
pub use further::{DeviceDue, DeviceRefusal};
pub use guest_memory::{MemoryFault, RegionSpec, Regions};
pub use laws::{what_is_due_stays, what_the_host_is_told_lies_inside};
pub use mmio_window::FaultNote;
pub use progress::{Progress, Refusal};
pub use racing_guest::{GuestQueue, GuestSpec, GuestWindow};
pub use racing_hosted_disk::LookLimits;
pub use session::RacingSession;
pub use spec::RacingSpec;
pub use told::{DeviceWaits, Handed, Told, Typed, Waits};
