//! The devices that a slot has beside its disk and its console: a list, each device with its register window.
//!
//! A `VirtioDevice` is a window and the model behind it. `DeviceModel` has a variant for each type of device, and is where a new
//! one is put in. A `DeviceList` names its devices by their numbers, from 0 on: a driver writes to their windows, and their host
//! hands in random bytes, frames and input, takes frames and output, and serves disks (`host.rt` of each). Disks over the image are
//! served by whoever has it (`image.rt` of each).
#![tactic(auto)]

mod card;
mod device;
mod extent;
mod laws;
mod list;
mod model;
mod refusal;
mod spec;
mod terminal;
mod waiting;

pub use block_device::HostEvent;
pub use card::{CARD_LIMITS, NetworkCard};
pub use device::VirtioDevice;
pub use hosted_disk::HostedDisk;
pub use laws::{
    a_disk_keeps_its_sectors, disks_have_their_own_sectors, emergency_writes_in_numbers,
    extents_in_numbers, features_in_bits, one_device_changes, one_reception, one_supply,
    one_taking, one_write, refusals_in_numbers, what_is_saved_is_taken_up,
};
pub use list::DeviceList;
pub use model::DeviceModel;
pub use refusal::{ReceiveRefusal, WriteRefusal};
pub use spec::{AddRefusal, DeviceSpec, MOST_DEVICES};
pub use terminal::{TERMINAL_LIMIT, Terminal};
