//! The register window of a virtio-mmio device (4.2): what a guest's driver reads and writes.
//!
//! A window keeps status and features, what the registers hold, and the rings of the queues that are ready. Its
//! caller hands it each access, serves the queue or resets the device where a write says so, and takes the
//! writes to the device's configuration. Devices borrow a queue from their window and speak of it as one kind
//! of ring, whatever its layout is.
#![tactic(auto)]

mod action;
mod configuration;
mod device_kind;
mod fault_note;
mod interrupts;
mod laws;
mod piece;
mod queue;
mod queue_handler;
mod queue_registers;
mod register;
mod saved;
mod service;
mod stage;
mod window;

pub use action::Action;
pub use chain::Used;
pub use configuration::{CONFIGURATION_LEN, CONFIGURATION_OFFSET};
pub use device_kind::DeviceKind;
pub use fault_note::{FaultNote, QueueFault};
pub use interrupts::Interrupts;
pub use laws::{
    generation_stays, next_place_is_ignored, one_chain_or_fault_at_a_place,
    ready_queue_is_its_ring, ready_queue_outlasts, ready_queue_stays, serving_keeps_sound,
    sound_for_the_range, what_is_in_flight_is_ahead,
};
pub use piece::serve_piece;
pub use queue::{Queue, Token};
pub use queue_handler::QueueHandler;
pub use queue_registers::QueueRegisters;
pub use register::{Register, may_stop_queues};
pub use saved::{Reached, SavedNegotiation, SavedQueue, SavedSelectors, SavedWindow};
pub use service::{Left, Refused, serve_queue, show};
pub use stage::Stage;
pub use window::Window;
