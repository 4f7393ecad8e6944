//! The header that each request begins with (5.2.6), by one copy.

ghost use Rattle.std.specs.Prelude.{◌≤◌, false};
ghost use Rattle.chain.specs.Buffers.{Good};
ghost use Rattle.chain.specs.Bytes.{len_of};
ghost use Rattle.shared_memory.specs.Sightings.{Loads, memory};
ghost use Rattle.racing_disk.specs.Copying.{IsHeader};

use crate::copy::copy_first;
use block_device::{HEADER_LEN, Header};
use chain::Chain;
use shared_memory::Shared;

/// The header in the first bytes of a chain.
pub(crate) fn read_header<M: Shared>(mem: &mut M, chain: &Chain) -> Header
    requires good { Good (memory (M.sightings mem.old)) chain.now }
    requires there { 16 ≤ len_of false chain.now }
    ensures header { IsHeader (M.sightings mem.old) (M.sightings mem.new) chain.now result.kind result.sector }
    ensures loads { Loads M.races (M.sightings mem.old) (M.sightings mem.new) }
{
    let mut bytes = [0; HEADER_LEN as usize];
    copy_first(mem, chain, &mut bytes);
    Header::of(&bytes)
}
