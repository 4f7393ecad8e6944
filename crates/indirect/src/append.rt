//! The buffers of an indirect table, put behind those that a chain has.

ghost use Rattle.std.specs.Prelude.{◌≡◌, ◌+◌, ◌≤◌, length, true, false, IfOk, OnOk, IfErr, OnErr};
ghost use Rattle.chain.specs.Buffers.{Good};
ghost use Rattle.chain.specs.declared.fault.Fault.TheVariants.{Nested};
ghost use Rattle.indirect.specs.Descriptors.{StandsIn, split_descriptor};
ghost use Rattle.indirect.specs.Tables.{SplitTableResolves, SplitTableFails, PackedTableResolves, PackedTableFails};

use crate::descriptor::{Descriptor, PackedDescriptor};
use crate::table::{DESCRIPTOR_LEN, entries_of};
use chain::{Chain, Fault};
use guest_memory::GuestMemory;
use std::alloc::Allocator;

/// Walks the split table of `len` bytes at `addr` from its first descriptor (2.7.5.3) and puts its buffers
/// into the chain. After a fault the chain holds the buffers before it.
#[tactic(auto, using(guest_memory::proofs::Ranges::inside_part))]
pub fn append_split<A: Allocator>(
    mem: &GuestMemory<A>,
    addr: u64,
    len: u32,
    chain: &mut Chain,
) -> Result<(), Fault>
    ensures ok { OnOk result (SplitTableResolves mem.now addr len chain.old chain.new) }
    ensures fault { IfErr result (λ fault. SplitTableFails mem.now addr len chain.old fault chain.new) }
    ensures keeps { Good mem.now chain.old → Good mem.now chain.new }
{
    let entries = entries_of(mem, addr, len)?;
    let table = mem.slice(addr, u64::from(len));
    let mut index = 0;
    for _count in 0..entries {
        if index >= entries {
            return Err(Fault::Index);
        }
        let at = (index * DESCRIPTOR_LEN) as usize;
        let descriptor = read_plain(table, at)?;
        let segment = descriptor.buffer.segment;
        chain.push(mem, segment.addr, segment.len, descriptor.buffer.writable)?;
        match descriptor.next {
            None => return Ok(()),
            Some(next) => index = u32::from(next),
        }
    }
    Err(Fault::Loop)
}

/// The descriptor of a split table in the 16 bytes from the `at`-th on. One that refers to a table of its own
/// is refused (2.7.5.3.1).
#[inline(always)]
fn read_plain(table: &[u8], at: usize) -> Result<Descriptor, Fault>
    requires { at + 16 ≤ length table.now }
    ensures ok { IfOk result (λ d. StandsIn table.now at (λ m a. d ≡ split_descriptor m a)) }
    ensures plain { IfOk result (λ descriptor. descriptor.indirect ≡ false) }
    ensures fault { IfErr result (λ fault. fault ≡ Nested) }
    ensures nested { OnErr result (StandsIn table.now at (λ m a. (split_descriptor m a).indirect ≡ true)) }
{
    let descriptor = Descriptor::of_split(table, at);
    if descriptor.indirect {
        return Err(Fault::Nested);
    }
    Ok(descriptor)
}

/// Puts the buffers of all descriptors of the packed table of `len` bytes at `addr` into the chain, in
/// their order (2.8.7). After a fault the chain holds the buffers before it.
#[tactic(auto, using(guest_memory::proofs::Ranges::inside_part))]
pub fn append_packed<A: Allocator>(
    mem: &GuestMemory<A>,
    addr: u64,
    len: u32,
    chain: &mut Chain,
) -> Result<(), Fault>
    ensures ok { OnOk result (PackedTableResolves mem.now addr len chain.old chain.new) }
    ensures fault { IfErr result (λ fault. PackedTableFails mem.now addr len chain.old fault chain.new) }
    ensures keeps { Good mem.now chain.old → Good mem.now chain.new }
{
    let entries = entries_of(mem, addr, len)?;
    let table = mem.slice(addr, u64::from(len));
    for index in 0..entries {
        let at = (index * DESCRIPTOR_LEN) as usize;
        let buffer = PackedDescriptor::of(table, at).buffer;
        let segment = buffer.segment;
        chain.push(mem, segment.addr, segment.len, buffer.writable)?;
    }
    Ok(())
}
