//! A network device (5.1): frames that the host hands in go into the buffers of the receive queue, and the frames in
//! the buffers of the transmit queue go out.
#![tactic(auto)]

mod bytes;
mod configuration;
mod device;
mod header;
mod laws;
mod limits;
mod no_memory;
mod outlet;
mod receive;
mod refusal;
mod saved;
mod serve;
mod store;
mod transmit;

pub use configuration::{NetworkConfiguration, offered_features};
pub use device::{NetworkDevice, RECEIVEQ, TRANSMITQ};
pub use laws::{
    chains_in_bytes, configuration_in_bytes, features_in_bits, header_in_bytes, one_answer,
    refusals_in_bytes,
};
pub use limits::Limits;
pub use no_memory::NoMemory;
pub use outlet::FrameOutlet;
pub use refusal::FrameRefusal;
pub use saved::SavedFrames;
pub use store::FrameStore;
pub use transmit::NoRoom;
