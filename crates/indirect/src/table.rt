//! Which range of guest memory may be an indirect table.

ghost use Rattle.std.specs.Prelude.{◌≡◌, ◌/◌, ◌≤◌, ◌+◌, ◌^◌, IfOk, OnOk, IfErr, OnErr};
ghost use Rattle.indirect.specs.Tables.{IsTable, IsNoTable};

use chain::Fault;
use guest_memory::GuestMemory;
use std::alloc::Allocator;

/// The size of a descriptor in bytes, in both layouts.
pub(crate) const DESCRIPTOR_LEN: u32 = 16;

/// The largest table, in bytes: 256 descriptors.
const MOST_LEN: u32 = 4096;

/// How many descriptors the table of `len` bytes at `addr` has. Refused are a length that no table has
/// (`Table`), and else a table that isn't inside memory (`Range`).
pub(crate) fn entries_of<A: Allocator>(
    mem: &GuestMemory<A>,
    addr: u64,
    len: u32,
) -> Result<u32, Fault>
    ensures ok { OnOk result (IsTable mem.now addr len) }
    ensures value { IfOk result (λ entries. entries ≡ len / 16) }
    ensures fits { OnOk result (addr + len ≤ 2 ^ 64) }
    ensures err { OnErr result (¬ IsTable mem.now addr len) }
    ensures fault { IfErr result (IsNoTable mem.now addr len) }
{
    if len == 0 || len > MOST_LEN || len % DESCRIPTOR_LEN != 0 {
        return Err(Fault::Table);
    }
    if !mem.holds(addr, u64::from(len)) {
        return Err(Fault::Range);
    }
    Ok(len / DESCRIPTOR_LEN)
}
