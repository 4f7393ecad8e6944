//! A console (5.3): what is typed goes into the buffers of the receive queue, and the buffers of the transmit
//! queue go out.
#![tactic(auto)]

mod device;
mod laws;
mod no_memory;
mod outlet;
mod pending;
mod receive;
mod serve;
mod transmit;
mod view;

pub use device::{ConsoleDevice, EMERGENCY_WRITE, RECEIVEQ, TRANSMITQ};
pub use laws::{
    a_refused_service_leaves_its_chain, a_service_with_memory_is_exact,
    input_is_taken_from_the_front, one_answer, output_goes_behind,
    used_len_counts_what_was_received,
};
pub use no_memory::NoMemory;
pub use outlet::Outlet;
pub use receive::ReceiveHandler;
pub use transmit::TransmitHandler;
