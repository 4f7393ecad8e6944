//! A slot's memory over bytes that a host lends.

ghost use Rattle.std.specs.Prelude.{◌≡◌, length, drop, map, IfOk};
ghost use Rattle.std.specs.Vec.{vec_items};
ghost use Rattle.std.specs.Vec.Iter.{into_iter_items};
ghost use Rattle.guest_memory.specs.Faults.{AreGood as AreGoodRegions};
ghost use Rattle.guest_memory.specs.Regions.{memory_of};
ghost use Rattle.board.specs.Lent.{BeginWith, with_bytes};

use guest_memory::{GuestMemory, Region, RegionSpec};
use std::alloc::{AllocError, Allocator};
use std::vec::IntoIter;
use std_alloc::vec::Lodged;

/// A memory of these regions over the next of the bytes that a host lends.
pub(crate) fn memory<A: Allocator + Copy>(
    alloc: A,
    regions: &[RegionSpec],
    bytes: &mut IntoIter<Vec<u8, Lodged>, A>,
) -> Result<GuestMemory<A>, AllocError>
    requires good { AreGoodRegions regions.now }
    requires bytes { BeginWith regions.now (map vec_items (into_iter_items bytes.old)) }
    ensures made { IfOk result (λ memory.
        memory ≡ memory_of (with_bytes regions.now (map vec_items (into_iter_items bytes.old)))) }
    ensures rest { IfOk result (λ memory.
        map vec_items (into_iter_items bytes.new) ≡ drop (length regions.now) (map vec_items (into_iter_items bytes.old))) }
{
    let mut made = Vec::with_capacity(alloc, regions.len())?;
    for region in regions {
        let Some(run) = bytes.next() else {
            unreachable!()
        };
        made.push(Region::of_lent(region.base, run))?;
    }
    match GuestMemory::of_regions(alloc, made) {
        Ok(memory) => Ok(memory),
        Err(_) => Err(AllocError),
    }
}
