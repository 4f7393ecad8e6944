//! Where in a ring the fault lies that ended a service.
//!
//! That there is a fault, and which, is the ring's own answer. Here its descriptors are followed once more to the first
//! that shows it.

ghost use Rattle.split_ring.specs.Ring.{LiesIn};
ghost use Rattle.packed_ring.specs.Ring.{LiesIn as PackedLiesIn};

use crate::weave::Text;
use crate::wording::chains::say_buffer;
use crate::wording::places::size_of;
use chain::{Buffer, Fault};
use guest_memory::GuestMemory;
use indirect::{Descriptor, INDIRECT, NEXT};
use mmio_window::{Queue, QueueRegisters};
use packed_ring::PackedRing;
use split_ring::SplitRing;

/// A table of descriptors.
#[derive(Clone, Copy)]
struct Table {
    addr: u64,
    size: u16,
}

/// Says what is at fault in a queue, and where.
pub fn say_site(text: &mut Text, mem: &GuestMemory, registers: &QueueRegisters, fault: Fault) {
    let table = Table {
        addr: registers.descriptor_area,
        size: size_of(registers),
    };
    match &registers.ring {
        Some(Queue::Split(ring)) if ring.lies_in(mem) => {
            if fault == Fault::Jump {
                say_jump(text, mem, ring, table.size);
            } else {
                say_split_site(text, mem, ring, table, fault);
            }
        }
        Some(Queue::Packed(ring)) if ring.lies_in(mem) => {
            say_packed_site(text, mem, ring, table, fault);
        }
        _ => {}
    }
}

// Says an available idx that a split ring of a size can't have.
fn say_jump(text: &mut Text, mem: &GuestMemory, ring: &SplitRing, size: u16)
    requires { LiesIn mem.now ring.now.setup }
{
    text.say(": available idx ");
    text.count(u64::from(ring.available_idx(mem)));
    text.say(" where ");
    text.count(u64::from(ring.state().place));
    text.say(" were used");
    let ahead = ring.state().ahead;
    if ahead > 0 {
        text.say(" and ");
        text.count(u64::from(ahead));
        text.say(if ahead == 1 {
            " is in flight"
        } else {
            " are in flight"
        });
    }
    text.say(", of a queue of ");
    text.count(u64::from(size));
}

// Says the first descriptor of a split ring's next chain that shows a fault.
fn say_split_site(text: &mut Text, mem: &GuestMemory, ring: &SplitRing, table: Table, fault: Fault)
    requires { LiesIn mem.now ring.now.setup }
{
    let mut index = ring.head(mem);
    if ring.descriptor(mem, index).is_none() {
        text.say(": head ");
        text.count(u64::from(index));
        text.say(" of a table of ");
        text.count(u64::from(table.size));
        return;
    }
    let mut seen = [false; 256];
    for _ in 0..256 {
        let Some(descriptor) = ring.descriptor(mem, index) else {
            return;
        };
        if let Some(mark) = seen.get_mut(usize::from(index)) {
            *mark = true;
        }
        if shows(mem, &descriptor, fault) {
            say_descriptor(text, table, index, descriptor.buffer);
            return;
        }
        let Some(next) = descriptor.next else {
            return;
        };
        if next >= table.size && fault == Fault::Index {
            say_at(text, table, index);
            text.say(" goes on at ");
            text.count(u64::from(next));
            text.say(", outside a table of ");
            text.count(u64::from(table.size));
            return;
        }
        if fault == Fault::Loop && seen.get(usize::from(next)) == Some(&true) {
            say_at(text, table, index);
            text.say(" comes back to descriptor ");
            text.count(u64::from(next));
            return;
        }
        index = next;
    }
}

// Whether a descriptor is the one that shows a fault.
fn shows(mem: &GuestMemory, descriptor: &Descriptor, fault: Fault) -> bool {
    descriptor.indirect || fault == Fault::Range && !lies_in(mem, descriptor.buffer)
}

// Whether a buffer lies in memory.
fn lies_in(mem: &GuestMemory, buffer: Buffer) -> bool {
    mem.holds(buffer.segment.addr, u64::from(buffer.segment.len))
}

// Says the first descriptor of a packed ring's next list that shows a fault.
fn say_packed_site(
    text: &mut Text,
    mem: &GuestMemory,
    ring: &PackedRing,
    table: Table,
    fault: Fault,
)
    requires { PackedLiesIn mem.now ring.now.setup }
{
    let mut position = ring.position();
    for _ in 0..256 {
        let Some((buffer, _, flags)) = ring.descriptor(mem, position) else {
            return;
        };
        let is_table = flags & INDIRECT != 0;
        if is_table || fault == Fault::Range && !lies_in(mem, buffer) {
            say_descriptor(text, table, position, buffer);
            return;
        }
        if flags & NEXT == 0 {
            return;
        }
        let next = position.wrapping_add(1);
        position = if next < table.size { next } else { 0 };
        if fault == Fault::Loop && position == ring.position() {
            text.say(": each descriptor goes on in the next");
            return;
        }
    }
}

// Says a descriptor with its buffer.
fn say_descriptor(text: &mut Text, table: Table, index: u16, buffer: Buffer) {
    say_at(text, table, index);
    text.say(" ");
    say_buffer(text, buffer);
}

// Says a descriptor and its address.
fn say_at(text: &mut Text, table: Table, index: u16) {
    text.say(": descriptor ");
    text.count(u64::from(index));
    text.say(" at ");
    text.hex(table.addr.wrapping_add(16 * u64::from(index)));
}
