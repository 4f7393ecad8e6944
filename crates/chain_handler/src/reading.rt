//! A copy of places of a chain's readable list, in a buffer of the device's own.

ghost use Rattle.std.specs.Prelude.{◌+◌, ◌≤◌, false, length, take, drop};
ghost use Rattle.chain.specs.Buffers.{Good};
ghost use Rattle.chain.specs.Bytes.{addresses_of, len_of};
ghost use Rattle.shared_memory.specs.Bytes.{AreBytesSeen};
ghost use Rattle.shared_memory.specs.Sightings.{Loads, memory};

use chain::Chain;
use shared_memory::Shared;

/// Copies the bytes from place `from` of the readable list on into all of `into`: each place is read once.
pub fn read_in_chain<M: Shared>(mem: &mut M, chain: &Chain, from: u64, into: &mut [u8])
    requires good { Good (memory (M.sightings mem.old)) chain.now }
    requires range { from + length into.old ≤ len_of false chain.now }
    ensures copied { AreBytesSeen (M.sightings mem.old) (M.sightings mem.new)
        (take (length into.old) (drop from (addresses_of false chain.now))) into.new }
    ensures loads { Loads M.races (M.sightings mem.old) (M.sightings mem.new) }
{
    // What it ensures: no place passes 2^32.
    let _ = chain.buffers();
    let mut done = 0;
    while done < into.len() {
        let rest = chain.segment_at(false, from + done as u64);
        let len = (into.len() - done).min(rest.len as usize);
        mem.load(rest.addr, &mut into[done..done + len]);
        done += len;
    }
}
