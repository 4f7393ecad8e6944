//! The descriptors of a guest's queues, and the chains on offer, said where they change.

ghost use Rattle.split_ring.specs.Ring.{LiesIn};
ghost use Rattle.packed_ring.specs.Ring.{LiesIn as PackedLiesIn};

use crate::device::DeviceName;
use crate::weave::Text;
use crate::wording::chains::say_buffer;
use crate::wording::places::{AVAIL, USED, is_available, next_place, size_of};
use crate::wording::state::say_queue_head;
use guest_memory::GuestMemory;
use indirect::{INDIRECT, NEXT};
use mmio_window::{Queue, QueueRegisters};
use packed_ring::PackedRing;
use split_ring::SplitRing;
use std::alloc::Global;

/// The bytes of a descriptor (2.7.5, 2.8.13).
const DESCRIPTOR_LEN: usize = 16;

/// How many chains on offer in a split ring are listed.
const MOST_LISTED: u16 = 64;

/// How the descriptors of a queue changed.
#[derive(Clone, Copy, PartialEq, Eq)]
pub enum Change {
    Nothing,
    Descriptors,
    /// Also one that was available in a packed ring.
    Available,
}

/// A copy of a queue's descriptors as they were said last.
#[derive(Drop)]
pub struct Table {
    bytes: Vec<u8>,
}

impl Table {
    /// One of which nothing was said. This takes no memory.
    pub fn new(alloc: Global) -> Table {
        Table {
            bytes: Vec::new(alloc),
        }
    }

    /// Says the descriptors of a queue that aren't as they were said last, and answers how they changed. A queue that isn't
    /// ready has none.
    pub fn say_changes(
        &mut self,
        text: &mut Text,
        mem: &GuestMemory,
        device: DeviceName,
        index: u32,
        registers: &QueueRegisters,
    ) -> Change {
        let Some(queue) = &registers.ring else {
            self.bytes.clear();
            return Change::Nothing;
        };
        let size = size_of(registers);
        let Some(now) = mem.part(registers.descriptor_area, 16 * u64::from(size)) else {
            return Change::Nothing;
        };
        if self.bytes.as_slice() == now {
            return Change::Nothing;
        }
        let available = self.available_len(queue, size);
        let mut change = Change::Descriptors;
        for (number, new) in now.chunks_exact(DESCRIPTOR_LEN).enumerate() {
            if self.is_other(number, new) {
                if ahead_of(queue, size, number as u16) < available {
                    change = Change::Available;
                }
                say_queue_head(text, device, index, " descriptor ");
                text.count(number as u64);
                say_descriptor(text, mem, queue, number as u16);
                text.say("\n");
            }
        }
        self.bytes.clear();
        if self.bytes.extend_from_slice(now).is_err() {
            text.give_up();
        }
        change
    }

    // How many descriptors of a packed ring of a size were in flight or available from its place on, when they were said last.
    fn available_len(&self, queue: &Queue, size: u16) -> u16 {
        let Queue::Packed(ring) = queue else {
            return 0;
        };
        for step in ring.state().ahead..size {
            let place = next_place(ring.state().place, step, size);
            let number = place.checked_rem(size).unwrap_or(0);
            let at = usize::from(number) * DESCRIPTOR_LEN + 14;
            let is_on_offer = match self.bytes.get(at..at + 2) {
                Some([low, high]) => {
                    is_available(u16::from_le_bytes([*low, *high]), place < size)
                }
                _ => false,
            };
            if !is_on_offer {
                return step;
            }
        }
        size
    }

    // Whether a descriptor isn't as it was said last. One that was never said counts as zeros.
    fn is_other(&self, number: usize, new: &[u8]) -> bool {
        let from = number.saturating_mul(DESCRIPTOR_LEN);
        let to = from.saturating_add(DESCRIPTOR_LEN);
        match self.bytes.get(from..to) {
            Some(old) => old != new,
            None => new != [0; DESCRIPTOR_LEN].as_slice(),
        }
    }
}

// How many descriptors stand before one in a packed ring of a size, from the ring's place on.
fn ahead_of(queue: &Queue, size: u16, number: u16) -> u16 {
    match queue {
        Queue::Packed(ring) => {
            let first = ring.state().place.checked_rem(size).unwrap_or(0);
            let ahead = u32::from(number) + u32::from(size);
            let ahead = ahead.saturating_sub(u32::from(first));
            ahead.checked_rem(u32::from(size)).unwrap_or(0) as u16
        }
        Queue::Split(_) => number,
    }
}

// Says a descriptor of a ring.
fn say_descriptor(text: &mut Text, mem: &GuestMemory, queue: &Queue, index: u16) {
    text.say(": ");
    match queue {
        Queue::Split(ring) => {
            if !ring.lies_in(mem) {
                return;
            }
            if let Some(found) = ring.descriptor(mem, index) {
                say_buffer(text, found.buffer);
                if found.indirect {
                    text.say(", indirect");
                }
                if let Some(next) = found.next {
                    text.say(", next ");
                    text.count(u64::from(next));
                }
            }
        }
        Queue::Packed(ring) => {
            if !ring.lies_in(mem) {
                return;
            }
            if let Some((buffer, id, flags)) = ring.descriptor(mem, index) {
                say_buffer(text, buffer);
                text.say(", id ");
                text.count(u64::from(id));
                for (flag, name) in &PACKED_FLAGS {
                    if flags & *flag != 0 {
                        text.say(name);
                    }
                }
            }
        }
    }
}

/// The flags of a packed descriptor but WRITE, which the buffer says.
static PACKED_FLAGS: [(u16, &str); 4] = [
    (NEXT, ", next"),
    (INDIRECT, ", indirect"),
    (AVAIL, ", avail"),
    (USED, ", used"),
];

/// Says the chains that are on offer in a ring, each by its head or by the position of its list, where the queue's state or
/// its descriptors changed.
pub fn say_on_offer(
    text: &mut Text,
    mem: &GuestMemory,
    device: DeviceName,
    index: u32,
    registers: &QueueRegisters,
    has_changed: bool,
    change: Change,
) {
    let size = size_of(registers);
    match &registers.ring {
        Some(Queue::Split(ring)) if has_changed && ring.lies_in(mem) => {
            say_queue_head(text, device, index, " on offer:");
            say_heads(text, mem, ring, registers.driver_area, size);
        }
        Some(Queue::Packed(ring)) if has_changed || change != Change::Nothing => {
            if ring.lies_in(mem) {
                say_queue_head(text, device, index, " on offer:");
                say_lists(text, mem, ring, size);
            }
        }
        _ => return,
    }
    text.say("\n");
}

// Says the heads that are on offer in a split ring.
fn say_heads(text: &mut Text, mem: &GuestMemory, ring: &SplitRing, driver_area: u64, size: u16)
    requires { LiesIn mem.now ring.now.setup }
{
    let next = ring.state().place.wrapping_add(ring.state().ahead);
    let offered = ring.available_idx(mem).wrapping_sub(next);
    for step in 0..offered.min(MOST_LISTED) {
        let entry = entry_of(next.wrapping_add(step), size);
        if let Some(head) = mem.get_u16(driver_area.wrapping_add(entry)) {
            text.say(" ");
            text.count(u64::from(head));
        }
    }
    if offered > MOST_LISTED {
        text.say(" ..");
    }
}

// Says the positions at which lists are on offer in a packed ring.
fn say_lists(text: &mut Text, mem: &GuestMemory, ring: &PackedRing, size: u16)
    requires { PackedLiesIn mem.now ring.now.setup }
{
    let mut begins = true;
    let first = next_place(ring.state().place, ring.state().ahead, size);
    for step in 0..size {
        let place = next_place(first, step, size);
        let Some((_, _, flags)) = ring.descriptor_of(mem, place) else {
            return;
        };
        if begins {
            if !is_available(flags, place < size) {
                return;
            }
            text.say(" ");
            text.count(u64::from(place.checked_rem(size).unwrap_or(0)));
        }
        begins = flags & NEXT == 0;
    }
}

// Where the available entry of a place stands in its ring of a size (2.7.6).
fn entry_of(place: u16, size: u16) -> u64 {
    let entry = place.checked_rem(size).unwrap_or(0);
    2 * u64::from(entry) + 4
}
