//! The walk from a position through the descriptor ring.

ghost use Rattle.std.specs.Prelude.{◌≡◌, ℕ, ◌*◌, ◌<◌, length, [], OnOk, IfOk, IfErr};
ghost use Rattle.guest_memory.specs.Memory.{Memory, Inside, part_of};
ghost use Rattle.indirect.specs.Lists.{packed_tables, EndsInTable, TableRefused, ListResolves, ListFails};
ghost use Rattle.packed_ring.specs.Ring.{ring_descriptor};

use crate::modulus::reduced;
use chain::{Chain, Fault};
use guest_memory::GuestMemory;
use indirect::{Descriptor, INDIRECT, NEXT, PackedDescriptor, append_packed};
use std::alloc::Allocator;

/// Where a descriptor ring lies, and whether its descriptors may refer to tables of their own.
#[derive(Clone, Copy)]
pub(crate) struct Table {
    pub addr: u64,
    pub size: u16,
    pub indirect: bool,
}

/// Where a list of descriptors ends: how many come before its last one, and the position of that.
#[derive(Clone, Copy)]
pub(crate) struct End {
    pub count: u16,
    pub last: u16,
}

/// Fills the empty chain with the buffers of the list that begins at a position (2.8.6). After a fault the
/// chain holds those before it.
#[inline(always)]
pub(crate) fn append_list<A: Allocator>(
    mem: &GuestMemory<A>,
    table: Table,
    first: u16,
    chain: &mut Chain,
) -> Result<End, Fault>
    requires area { Inside mem.now table.addr (16 * table.size) }
    requires first { first < table.size }
    requires empty { chain.old ≡ [] }
    ensures ok { IfOk result (λ end. ListResolves packed_tables table.indirect mem.now (ring_descriptor mem.now table.addr table.size)
        table.size first end.count end.last chain.new) }
    ensures fault { IfErr result (ListFails packed_tables table.indirect mem.now (ring_descriptor mem.now table.addr table.size) table.size first) }
{
    let ring = mem.slice(table.addr, 16 * u64::from(table.size));
    let mut index = first;
    for count in 0..table.size {
        let descriptor = read_descriptor(ring, table.size, index);
        if descriptor.indirect {
            append_table(mem, table.indirect, count, descriptor, chain)?;
            return Ok(End { count, last: index });
        }
        let segment = descriptor.buffer.segment;
        chain.push(mem, segment.addr, segment.len, descriptor.buffer.writable)?;
        match descriptor.next {
            None => return Ok(End { count, last: index }),
            Some(next) => index = next,
        }
    }
    Err(Fault::Loop)
}

/// The descriptor at a position of a ring of `size` descriptors, which has these bytes (2.8.13). One with
/// NEXT goes on at the next position, and behind the last at the first.
#[inline(always)]
fn read_descriptor(ring: &[u8], size: u16, index: u16) -> Descriptor
    requires below { index < size }
    requires len { length ring.now ≡ 16 * size }
    ensures { (m : Memory) (desc : ℕ) → Inside m desc (16 * size) → ring.now ≡ part_of m desc (16 * size)
        → result ≡ ring_descriptor m desc size index }
{
    let descriptor = PackedDescriptor::of(ring, 16 * usize::from(index));
    Descriptor {
        buffer: descriptor.buffer,
        indirect: descriptor.flags & INDIRECT != 0,
        next: if descriptor.flags & NEXT != 0 {
            Some(reduced(index + 1, size))
        } else {
            None
        },
    }
}

/// Puts the buffers of the indirect table that `descriptor` refers to behind those of the chain (2.8.7).
/// `count` is how many descriptors of its list come before it.
#[inline(always)]
fn append_table<A: Allocator>(
    mem: &GuestMemory<A>,
    negotiated: bool,
    count: u16,
    descriptor: Descriptor,
    chain: &mut Chain,
) -> Result<(), Fault>
    ensures ok { OnOk result (EndsInTable packed_tables negotiated mem.now chain.old count descriptor chain.new) }
    ensures fault { IfErr result (TableRefused packed_tables negotiated mem.now chain.old count descriptor) }
{
    if !negotiated {
        return Err(Fault::NoIndirect);
    }
    if count > 0 || descriptor.next.is_some() {
        return Err(Fault::Joined);
    }
    let table = descriptor.buffer.segment;
    append_packed(mem, table.addr, table.len, chain)
}
