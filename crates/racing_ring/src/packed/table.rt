//! An indirect table in the packed layout, copied and walked.

ghost use Rattle.std.specs.Prelude.{◌≡◌, length, OnOk, IfErr};
ghost use Rattle.guest_memory.specs.Memory.{part_of};
ghost use Rattle.indirect.specs.Tables.{IsTable, PackedTableResolves, PackedTableFails};
ghost use Rattle.indirect.specs.Lists.{packed_tables, EndsInTable, TableRefused};
ghost use Rattle.shared_memory.specs.Sightings.{Loads, memory};

use crate::table::{DESCRIPTOR_LEN, copy_table, push};
use chain::{Chain, Fault, Segment};
use indirect::{Descriptor, PackedDescriptor};
use shared_memory::Shared;

/// Puts the buffers of the indirect table that `descriptor` refers to behind those of the chain (2.8.7). `count` is how
/// many descriptors of its list come before it.
pub(crate) fn append_table<M: Shared>(
    mem: &mut M,
    negotiated: bool,
    count: u16,
    descriptor: Descriptor,
    chain: &mut Chain,
    room: &mut [u8; 4096],
) -> Result<(), Fault>
    ensures loads { Loads M.races (M.sightings mem.old) (M.sightings mem.new) }
    ensures ok { OnOk result (EndsInTable packed_tables negotiated (memory (M.sightings mem.new)) chain.old count descriptor chain.new) }
    ensures fault { IfErr result (TableRefused packed_tables negotiated (memory (M.sightings mem.new)) chain.old count descriptor) }
{
    if !negotiated {
        return Err(Fault::NoIndirect);
    }
    if count > 0 || descriptor.next.is_some() {
        return Err(Fault::Joined);
    }
    let Segment { addr, len } = descriptor.buffer.segment;
    copy_table(mem, addr, len, room)?;
    append_buffers(mem, addr, len, &room[..len as usize], chain)
}

/// Puts the buffers of all descriptors of the copy of the table of `len` bytes at `addr` into the chain, in their order.
fn append_buffers<M: Shared>(
    mem: &M,
    addr: u64,
    len: u32,
    table: &[u8],
    chain: &mut Chain,
) -> Result<(), Fault>
    requires table { IsTable (memory (M.sightings mem.now)) addr len }
    requires copy { table.now ≡ part_of (memory (M.sightings mem.now)) addr len }
    requires long { length table.now ≡ len }
    ensures ok { OnOk result (PackedTableResolves (memory (M.sightings mem.now)) addr len chain.old chain.new) }
    ensures fault { IfErr result (λ fault. PackedTableFails (memory (M.sightings mem.now)) addr len chain.old fault chain.new) }
{
    let entries = len / DESCRIPTOR_LEN;
    let _ = addr;
    for index in 0..entries {
        let at = (index * DESCRIPTOR_LEN) as usize;
        push(mem, PackedDescriptor::of(table, at).buffer, chain)?;
    }
    Ok(())
}
