//! The walk from a head through the descriptor table.

ghost use Rattle.std.specs.Prelude.{◌≡◌, ◌*◌, ◌≤◌, [], replicate, None, OnOk, IfErr};
ghost use Rattle.guest_memory.specs.Memory.{Inside};
ghost use Rattle.shared_memory.specs.Sightings.{Loads, memory};
ghost use Rattle.racing_ring.specs.Walk.{IsWalked, IsWalkFaulty};

use crate::room::Room;
use crate::table::{append_table, push};
use chain::{Chain, Fault};
use shared_memory::Shared;

/// Where a descriptor table lies, and whether its descriptors may refer to tables of their own.
#[derive(Clone, Copy)]
pub(crate) struct Table {
    pub addr: u64,
    pub size: u16,
    pub indirect: bool,
}

#[tactic(auto, using(guest_memory::proofs::Ranges::inside_part))]
/// Fills the empty chain with the buffers that `head` leads to (2.7.5).
pub(crate) fn append_path<M: Shared>(
    mem: &mut M,
    table: Table,
    head: u16,
    chain: &mut Chain,
    room: &mut Room,
) -> Result<(), Fault>
    requires area { Inside (memory (M.sightings mem.old)) table.addr (16 * table.size) }
    requires few { table.size ≤ 256 }
    requires empty { chain.old ≡ [] }
    requires unread { room.old.known ≡ replicate 256 None }
    ensures loads { Loads M.races (M.sightings mem.old) (M.sightings mem.new) }
    ensures ok { OnOk result (IsWalked (M.sightings mem.old).now (M.sightings mem.new) table.indirect table.addr table.size head chain.new) }
    ensures fault { IfErr result (IsWalkFaulty (M.sightings mem.old).now (M.sightings mem.new) table.indirect table.addr table.size head) }
{
    // So no address in the table passes 2^64.
    mem.fits(table.addr, 16 * u64::from(table.size));
    let mut index = head;
    for _count in 0..table.size {
        if index >= table.size {
            return Err(Fault::Index);
        }
        let descriptor = room.known.descriptor(mem, table.addr, index);
        if descriptor.indirect {
            return append_table(mem, table.indirect, descriptor, chain, &mut room.table);
        }
        push(mem, descriptor.buffer, chain)?;
        match descriptor.next {
            None => return Ok(()),
            Some(next) => index = next,
        }
    }
    Err(Fault::Loop)
}
