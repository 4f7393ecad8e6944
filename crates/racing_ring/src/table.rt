//! An indirect table, copied and walked.

ghost use Rattle.std.specs.Prelude.{◌≡◌, ℕ, length, take, [], ◌∷◌, ◌++◌, OnOk, IfErr, OnErr};
ghost use Rattle.guest_memory.specs.Memory.{part_of};
ghost use Rattle.chain.specs.Buffers.{Admits, Refuses};
ghost use Rattle.indirect.specs.Tables.{IsNoTable, IsTable, SplitTableResolves, SplitTableFails};
ghost use Rattle.indirect.specs.Lists.{split_tables, EndsInTable, TableRefused};
ghost use Rattle.shared_memory.specs.Sightings.{Loads, memory};

use chain::{Buffer, Chain, Fault, Segment};
use indirect::Descriptor;
use shared_memory::Shared;

/// The size of a descriptor in bytes.
pub(crate) const DESCRIPTOR_LEN: u32 = 16;

/// The largest table, in bytes.
const MOST_LEN: u32 = 4096;

/// Puts the buffers of the indirect table that `descriptor` refers to behind those of the chain (2.7.5.3).
pub(crate) fn append_table<M: Shared>(
    mem: &mut M,
    negotiated: bool,
    descriptor: Descriptor,
    chain: &mut Chain,
    room: &mut [u8; 4096],
) -> Result<(), Fault>
    ensures loads { Loads M.races (M.sightings mem.old) (M.sightings mem.new) }
    ensures ok { OnOk result ((count : ℕ) → EndsInTable split_tables negotiated (memory (M.sightings mem.new)) chain.old count descriptor chain.new) }
    ensures fault { IfErr result (λ fault. (count : ℕ) → TableRefused split_tables negotiated (memory (M.sightings mem.new)) chain.old count descriptor fault) }
{
    if !negotiated {
        return Err(Fault::NoIndirect);
    }
    if descriptor.next.is_some() {
        return Err(Fault::Joined);
    }
    let Segment { addr, len } = descriptor.buffer.segment;
    copy_table(mem, addr, len, room)?;
    walk_copy(mem, addr, len, &room[..len as usize], chain)
}

/// Copies the table of `len` bytes at `addr`, in either layout, into the first places of `room`. Refused are a length that no
/// table has (`Table`), and else a table that isn't inside memory (`Range`).
pub(crate) fn copy_table<M: Shared>(
    mem: &mut M,
    addr: u64,
    len: u32,
    room: &mut [u8; 4096],
) -> Result<(), Fault>
    ensures loads { Loads M.races (M.sightings mem.old) (M.sightings mem.new) }
    ensures ok { OnOk result (IsTable (memory (M.sightings mem.new)) addr len) }
    ensures copied { OnOk result (take len room.new ≡ part_of (memory (M.sightings mem.new)) addr len) }
    ensures err { OnErr result (¬ IsTable (memory (M.sightings mem.new)) addr len) }
    ensures fault { IfErr result (IsNoTable (memory (M.sightings mem.new)) addr len) }
{
    if len == 0 || len > MOST_LEN || len % DESCRIPTOR_LEN != 0 {
        return Err(Fault::Table);
    }
    if !mem.holds(addr, u64::from(len)) {
        return Err(Fault::Range);
    }
    mem.load(addr, &mut room[..len as usize]);
    Ok(())
}

/// Walks the copy of the table of `len` bytes at `addr`, and puts its buffers into the chain.
fn walk_copy<M: Shared>(
    mem: &M,
    addr: u64,
    len: u32,
    table: &[u8],
    chain: &mut Chain,
) -> Result<(), Fault>
    requires table { IsTable (memory (M.sightings mem.now)) addr len }
    requires copy { table.now ≡ part_of (memory (M.sightings mem.now)) addr len }
    requires long { length table.now ≡ len }
    ensures ok { OnOk result (SplitTableResolves (memory (M.sightings mem.now)) addr len chain.old chain.new) }
    ensures fault { IfErr result (λ fault. SplitTableFails (memory (M.sightings mem.now)) addr len chain.old fault chain.new) }
{
    let entries = len / DESCRIPTOR_LEN;
    let _ = addr;
    let mut index = 0;
    for _count in 0..entries {
        if index >= entries {
            return Err(Fault::Index);
        }
        let descriptor = Descriptor::of_split(table, (index * DESCRIPTOR_LEN) as usize);
        if descriptor.indirect {
            return Err(Fault::Nested);
        }
        push(mem, descriptor.buffer, chain)?;
        match descriptor.next {
            None => return Ok(()),
            Some(next) => index = u32::from(next),
        }
    }
    Err(Fault::Loop)
}

/// Puts a buffer behind the others.
pub(crate) fn push<M: Shared>(mem: &M, buffer: Buffer, chain: &mut Chain) -> Result<(), Fault>
    ensures ok { OnOk result (Admits (memory (M.sightings mem.now)) chain.old buffer) }
    ensures pushed { OnOk result (chain.new ≡ chain.old ++ buffer ∷ []) }
    ensures fault { IfErr result (Refuses (memory (M.sightings mem.now)) chain.old buffer) }
    ensures err { OnErr result (chain.new ≡ chain.old) }
{
    let Segment { addr, len } = buffer.segment;
    let inside = mem.holds(addr, u64::from(len));
    chain.push_tested(inside, addr, len, buffer.writable)
}
