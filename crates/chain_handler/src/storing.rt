//! A row of bytes that a device stores in the writable places of a chain, one after another.

ghost use Rattle.std.specs.Prelude.{◌+◌, ◌≤◌, length, take, drop};
ghost use Rattle.guest_memory.specs.Memory.{SameRange};
ghost use Rattle.chain.specs.Buffers.{Good};
ghost use Rattle.chain.specs.Bytes.{writable_of};
ghost use Rattle.shared_memory.specs.Bytes.{StoresEach};
ghost use Rattle.shared_memory.specs.Sightings.{memory};

use chain::Chain;
use shared_memory::Shared;

/// Stores bytes in the writable places of a chain, the first one in place `from`, each by a step of its own.
#[inline(always)]
pub fn store_in_chain<M: Shared>(mem: &mut M, chain: &Chain, from: u64, bytes: &[u8])
    requires good { Good (memory (M.sightings mem.old)) chain.now }
    requires range { from + length bytes.now ≤ length (writable_of chain.now) }
    ensures stored { StoresEach M.races (M.sightings mem.old) (M.sightings mem.new)
        (take (length bytes.now) (drop from (writable_of chain.now))) bytes.now }
    ensures range { SameRange (memory (M.sightings mem.old)) (memory (M.sightings mem.new)) }
{
    if bytes.is_empty() {
        return;
    }
    let rest = chain.segment_at(true, from);
    if bytes.len() as u64 <= u64::from(rest.len) {
        mem.store(rest.addr, bytes);
        return;
    }
    store_parts(mem, chain, from, bytes);
}

// The same, over as many segments as it takes.
#[inline(never)]
fn store_parts<M: Shared>(mem: &mut M, chain: &Chain, from: u64, bytes: &[u8])
    requires good { Good (memory (M.sightings mem.old)) chain.now }
    requires range { from + length bytes.now ≤ length (writable_of chain.now) }
    ensures stored { StoresEach M.races (M.sightings mem.old) (M.sightings mem.new)
        (take (length bytes.now) (drop from (writable_of chain.now))) bytes.now }
    ensures range { SameRange (memory (M.sightings mem.old)) (memory (M.sightings mem.new)) }
{
    // What it ensures: no place passes 2^32.
    let _ = chain.buffers();
    let mut done = 0;
    while done < bytes.len() {
        let rest = chain.segment_at(true, from + done as u64);
        let len = (bytes.len() - done).min(rest.len as usize);
        mem.store(rest.addr, &bytes[done..done + len]);
        done += len;
    }
}
