//! What came of a chain: its used entry, and the bytes that it received.

use crate::weave::Text;
use crate::wording::event::SHOWN;
use chain::Chain;
use guest_memory::GuestMemory;
use mmio_window::{Queue, QueueRegisters};

/// A used entry.
#[derive(Clone, Copy)]
pub struct Used {
    /// The head or the buffer id.
    pub id: u32,
    pub len: u32,
}

/// The used entry of a place, where the queue is ready.
pub fn used_entry(mem: &GuestMemory, registers: &QueueRegisters, place: u16) -> Option<Used> {
    match &registers.ring {
        Some(Queue::Split(ring)) if ring.lies_in(mem) => {
            let (id, len) = ring.used_entry(mem, place);
            Some(Used { id, len })
        }
        Some(Queue::Packed(ring)) if ring.lies_in(mem) => {
            let (buffer, id, _) = ring.descriptor_of(mem, place)?;
            Some(Used {
                id: u32::from(id),
                len: buffer.segment.len,
            })
        }
        _ => None,
    }
}

/// Says a used entry, up to the end of its line.
pub fn say_used(text: &mut Text, used: Used) {
    text.count(u64::from(used.id));
    text.say(", len ");
    text.count(u64::from(used.len));
    text.say("\n");
}

/// Says the first bytes that a chain received.
pub fn say_received(text: &mut Text, mem: &GuestMemory, chain: &Chain, len: u32) {
    text.say("    receives ");
    text.counted(u64::from(len), "byte");
    let mut left = len;
    for buffer in chain.buffers() {
        let segment = buffer.segment;
        if buffer.writable && left > 0 && segment.len > 0 {
            let count = segment.len.min(left);
            if let Some(bytes) = mem.part(segment.addr, u64::from(count)) {
                text.say(" ");
                text.quoted(bytes, SHOWN);
            }
            left -= count;
        }
    }
    text.say("\n");
}
