//! The walk from a position through the descriptor ring.

ghost use Rattle.std.specs.Prelude.{◌≡◌, ◌+◌, ◌*◌, ◌<◌, ◌≤◌, [], ◌&&◌, ◌==◌, not, if◌then◌else◌, IfOk, IfErr, IfSome, IfNone};
ghost use Rattle.guest_memory.specs.Memory.{Inside};
ghost use Rattle.packed_ring.specs.Kind.{entry_of};
ghost use Rattle.shared_memory.specs.Sightings.{Loads, memory};
ghost use Rattle.racing_ring.specs.Packed.{IsCopied, IsListFaulty, IsListed, IsWithheld, are_available};

use crate::descriptor::load_fields;
use crate::packed::table::append_table;
use crate::table::push;
use crate::walk::Table;
use chain::{Chain, Fault};
use indirect::Descriptor;
use packed_ring::{are_available, reduced};
use shared_memory::Shared;

/// Where a list of descriptors ends: how many come before its last one, and the id of that.
#[derive(Clone, Copy)]
pub(crate) struct End {
    pub count: u16,
    pub id: u16,
}

/// A descriptor of a ring, its id and its flags.
#[derive(Clone, Copy)]
struct Copied {
    descriptor: Descriptor,
    id: u16,
    flags: u16,
}

#[tactic(auto, using(shared_memory::proofs::Sightings::loads_trans))]
/// Fills the empty chain with the buffers of the list that begins at a position (2.8.6). Each descriptor is read once;
/// there is `None` where the first isn't available at this wrap counter.
pub(crate) fn append_list<M: Shared>(
    mem: &mut M,
    table: Table,
    first: u16,
    wrap: bool,
    chain: &mut Chain,
    room: &mut [u8; 4096],
) -> Result<Option<End>, Fault>
    requires area { Inside (memory (M.sightings mem.old)) table.addr (16 * table.size) }
    requires few { table.size ≤ 256 }
    requires first { first < table.size }
    requires empty { chain.old ≡ [] }
    ensures loads { Loads M.races (M.sightings mem.old) (M.sightings mem.new) }
    ensures listed { IfOk result (λ found. IfSome found (λ end. IsListed (M.sightings mem.old) (M.sightings mem.new)
        table.indirect table.addr table.size first (if wrap then 1 else 0) chain.new (entry_of end.id (end.count + 1)))) }
    ensures fits { IfOk result (λ found. IfSome found (λ end. end.count < table.size)) }
    ensures withheld { IfOk result (λ found. IfNone found
        (IsWithheld (M.sightings mem.old) (M.sightings mem.new) table.addr first (if wrap then 1 else 0))) }
    ensures none { IfOk result (λ found. IfNone found (chain.new ≡ [])) }
    ensures fault { IfErr result (IsListFaulty (M.sightings mem.old) (M.sightings mem.new)
        table.indirect table.addr table.size first (if wrap then 1 else 0)) }
{
    let mut index = first;
    for count in 0..table.size {
        let copied = copy_at(mem, table, index);
        if is_withheld(count, copied.flags, wrap) {
            return Ok(None);
        }
        let descriptor = copied.descriptor;
        let id = copied.id;
        if descriptor.indirect {
            append_table(mem, table.indirect, count, descriptor, chain, room)?;
            return Ok(Some(End { count, id }));
        }
        push(mem, descriptor.buffer, chain)?;
        match descriptor.next {
            None => return Ok(Some(End { count, id })),
            Some(next) => index = next,
        }
    }
    Err(Fault::Loop)
}

/// The descriptor at a position (2.8.13), each of its words by one copy. One with NEXT goes on at the next position, and
/// behind the last at the first.
#[tactic(auto, using(guest_memory::proofs::Ranges::inside_part, crate::proofs::Seeing::fields_loaded))]
fn copy_at<M: Shared>(mem: &mut M, table: Table, index: u16) -> Copied
    requires area { Inside (memory (M.sightings mem.old)) table.addr (16 * table.size) }
    requires few { table.size ≤ 256 }
    requires below { index < table.size }
    ensures copied { IsCopied (M.sightings mem.old) (M.sightings mem.new) table.addr table.size index result.descriptor result.id result.flags }
    ensures loads { Loads M.races (M.sightings mem.old) (M.sightings mem.new) }
{
    // So no address in the ring passes 2^64.
    mem.fits(table.addr, 16 * u64::from(table.size));
    let fields = load_fields(mem, table.addr + 16 * u64::from(index));
    let next = reduced(index + 1, table.size);
    Copied {
        descriptor: Descriptor::of_fields(fields.segment, fields.last, next),
        id: fields.third,
        flags: fields.last,
    }
}

/// Whether a list ends before it begins: its first descriptor, before which none comes, isn't available.
fn is_withheld(count: u16, flags: u16, wrap: bool) -> bool
    ensures { result ≡ (count == 0 && not (are_available flags (if wrap then 1 else 0))) }
{
    count == 0 && !are_available(flags, wrap)
}
