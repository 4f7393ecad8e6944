//! What the standard forbids a driver in a chain that a service takes.

use crate::wording::mistakes::Mistake;
use crate::wording::places::{is_available, next_place};
use chain::Chain;
use guest_memory::GuestMemory;
use indirect::{INDIRECT, WRITE};
use mmio_window::{Queue, Token};
use packed_ring::PackedRing;

/// What is wrong with a chain that a service takes of a queue of this size, as it stands before.
pub fn chain_mistake(
    mem: &GuestMemory,
    queue: &Queue,
    size: u16,
    token: &Token,
    chain: &Chain,
) -> Option<Mistake> {
    match (queue, token) {
        (Queue::Packed(_), _) if is_writable_first(chain) => Some(Mistake::ListWritableFirst),
        (_, _) if is_writable_first(chain) => Some(Mistake::WritableFirst),
        (Queue::Packed(ring), Token::Packed(list)) => list_mistake(mem, ring, size, list, chain),
        _ => None,
    }
}

// What is wrong with the descriptors of a list.
fn list_mistake(
    mem: &GuestMemory,
    ring: &PackedRing,
    size: u16,
    list: &packed_ring::Token,
    chain: &Chain,
) -> Option<Mistake> {
    if !ring.lies_in(mem) {
        return None;
    }
    for step in 1..list.length {
        let place = next_place(list.place, step, size);
        let (_, _, flags) = ring.descriptor_of(mem, place)?;
        if !is_available(flags, place < size) {
            return Some(Mistake::ListUnfinished);
        }
    }
    let (table, _, flags) = ring.descriptor_of(mem, list.place)?;
    let count = chain.buffers().len() as u64;
    if flags & INDIRECT != 0 && has_other_flag(mem, table.segment.addr, count) {
        Some(Mistake::FlagInTable)
    } else {
        None
    }
}

// Whether one of so many descriptors of a packed table has another flag than WRITE.
fn has_other_flag(mem: &GuestMemory, table: u64, count: u64) -> bool {
    for number in 0..count {
        let at = table.wrapping_add(number.wrapping_mul(16)).wrapping_add(14);
        if let Some(flags) = mem.get_u16(at) {
            if flags & !WRITE != 0 {
                return true;
            }
        }
    }
    false
}

// Whether a writable buffer stands before a readable one.
fn is_writable_first(chain: &Chain) -> bool {
    let mut has_writable = false;
    for buffer in chain.buffers() {
        if buffer.writable {
            has_writable = true;
        } else if has_writable {
            return true;
        }
    }
    false
}
