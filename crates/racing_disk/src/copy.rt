//! A copy of the first places of a chain's readable list.

ghost use Rattle.std.specs.Prelude.{◌≡◌, ◌≤◌, IsTrue, IsSomeAnd, false, length, take};
ghost use Rattle.std.specs.List.{slice_get};
ghost use Rattle.chain.specs.Buffers.{Good};
ghost use Rattle.chain.specs.Bytes.{addresses_of, len_of};
ghost use Rattle.shared_memory.specs.Sightings.{Loads, memory};
ghost use Rattle.shared_memory.specs.Bytes.{AreBytesSeen};

use chain::{Buffer, Chain};
use chain_handler::read_in_chain;
use shared_memory::Shared;

/// Copies the first bytes of the readable list into all of `into`: each place is read once. Where the chain's first buffer has
/// them, as most drivers' has, one access does.
#[inline(always)]
pub(crate) fn copy_first<M: Shared>(mem: &mut M, chain: &Chain, into: &mut [u8])
    requires good { Good (memory (M.sightings mem.old)) chain.now }
    requires range { length into.old ≤ len_of false chain.now }
    ensures copied { AreBytesSeen (M.sightings mem.old) (M.sightings mem.new)
        (take (length into.old) (addresses_of false chain.now)) into.new }
    ensures loads { Loads M.races (M.sightings mem.old) (M.sightings mem.new) }
{
    let buffers = chain.buffers();
    if has_first(buffers, into.len()) {
        mem.load(buffers[0].segment.addr, into);
    } else {
        read_in_chain(mem, chain, 0, into);
    }
}

// Whether the first of these buffers has the first `len` bytes of their readable list.
#[inline(always)]
fn has_first(buffers: &[Buffer], len: usize) -> bool
    ensures { IsTrue result → IsSomeAnd (slice_get buffers.now 0) (λ first.
        (first.writable ≡ false) × (len ≤ first.segment.len)) }
{
    match buffers.first() {
        Some(first) => !first.writable && len <= first.segment.len as usize,
        None => false,
    }
}
