//! The walk from a head through the descriptor table.

ghost use Rattle.std.specs.Prelude.{◌≡◌, ℕ, ◌*◌, [], OnOk, IfErr};
ghost use Rattle.guest_memory.specs.Memory.{Inside};
ghost use Rattle.indirect.specs.Descriptors.{split_table};
ghost use Rattle.indirect.specs.Lists.{split_tables, EndsInTable, TableRefused, ListResolves, ListFails};

use chain::{Chain, Fault};
use guest_memory::GuestMemory;
use indirect::{Descriptor, append_split};
use std::alloc::Allocator;

/// Where a descriptor table lies, and whether its descriptors may refer to tables of their own.
#[derive(Clone, Copy)]
pub(crate) struct Table {
    pub addr: u64,
    pub size: u16,
    pub indirect: bool,
}

#[tactic(auto, using(guest_memory::proofs::Ranges::inside_part, guest_memory::proofs::Ranges::inside_same))]
/// Fills the empty chain with the buffers that `head` leads to (2.7.5). After a fault the chain holds those
/// before it.
#[inline(always)]
pub(crate) fn append_path<A: Allocator>(
    mem: &GuestMemory<A>,
    table: Table,
    head: u16,
    chain: &mut Chain,
) -> Result<(), Fault>
    requires area { Inside mem.now table.addr (16 * table.size) }
    requires empty { chain.old ≡ [] }
    ensures ok { OnOk result ((count : ℕ) × (last : ℕ)
        × ListResolves split_tables table.indirect mem.now (split_table mem.now table.addr) table.size head count last chain.new) }
    ensures fault { IfErr result (ListFails split_tables table.indirect mem.now (split_table mem.now table.addr) table.size head) }
{
    let descriptors = mem.slice(table.addr, 16 * u64::from(table.size));
    let mut index = head;
    for _count in 0..table.size {
        if index >= table.size {
            return Err(Fault::Index);
        }
        let descriptor = Descriptor::of_split(descriptors, 16 * usize::from(index));
        if descriptor.indirect {
            return append_table(mem, table.indirect, descriptor, chain);
        }
        let segment = descriptor.buffer.segment;
        chain.push(mem, segment.addr, segment.len, descriptor.buffer.writable)?;
        match descriptor.next {
            None => return Ok(()),
            Some(next) => index = next,
        }
    }
    Err(Fault::Loop)
}

/// Puts the buffers of the indirect table that `descriptor` refers to behind those of the chain (2.7.5.3).
#[inline(always)]
fn append_table<A: Allocator>(
    mem: &GuestMemory<A>,
    negotiated: bool,
    descriptor: Descriptor,
    chain: &mut Chain,
) -> Result<(), Fault>
    ensures ok { OnOk result ((count : ℕ) → EndsInTable split_tables negotiated mem.now chain.old count descriptor chain.new) }
    ensures fault { IfErr result (λ fault. (count : ℕ) → TableRefused split_tables negotiated mem.now chain.old count descriptor fault) }
{
    if !negotiated {
        return Err(Fault::NoIndirect);
    }
    if descriptor.next.is_some() {
        return Err(Fault::Joined);
    }
    let table = descriptor.buffer.segment;
    append_split(mem, table.addr, table.len, chain)
}
