//! Reaching a slot's queues.

use crate::device::DeviceName;
use crate::watched::Watched;
use guest_memory::GuestMemory;
use mmio_window::{Queue, QueueRegisters};

/// A queue of a slot.
#[derive(Clone, Copy)]
pub struct SlotQueue {
    pub slot: u8,
    pub device: DeviceName,
    pub queue: u32,
}

impl SlotQueue {
    /// A queue of one of a slot's devices.
    pub fn new(slot: u8, device: DeviceName, queue: u32) -> SlotQueue {
        SlotQueue {
            slot,
            device,
            queue,
        }
    }
}

/// The registers of a queue, beside the memory of its slot.
pub fn queue_of(board: &Watched, at: SlotQueue) -> Option<(&GuestMemory, &QueueRegisters)> {
    let mem = board.memory(at.slot)?;
    let window = board.window(at.slot, at.device)?;
    let registers = window.registers(at.queue)?;
    Some((mem, registers))
}

/// The ring of a queue, where it is ready.
pub fn ring_of(board: &Watched, at: SlotQueue) -> Option<&Queue> {
    let (_, registers) = queue_of(board, at)?;
    registers.ring.as_ref()
}
