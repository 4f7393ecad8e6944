//! How a board's slots are opened, one after another: over memories of zeros, or of bytes that a host lends.

ghost use Rattle.std.specs.Prelude.{◌≡◌, All, IfOk, map};
ghost use Rattle.std.specs.Vec.{vec_items};
ghost use Rattle.guest_memory.specs.Faults.{AreGood as AreGoodRegions};
ghost use Rattle.board.specs.Fault.{HasRoom};
ghost use Rattle.board.specs.Lent.{AreBytesOf, made_over, opened_over};
ghost use Rattle.board.specs.Slot.{opened};

use crate::guest::Guest;
use crate::lent;
use crate::spec::SlotSpec;
use std::alloc::{AllocError, Allocator};
use std_alloc::vec::Lodged;

/// Opens the slots in their order.
pub(crate) fn open_all<A: Allocator + Copy>(
    alloc: A,
    specs: &[SlotSpec],
) -> Result<Vec<Guest<A>, A>, AllocError>
    requires memory { All (λ spec. AreGoodRegions spec.regions) specs.now }
    requires disk { All HasRoom specs.now }
    ensures { IfOk result (λ slots. slots.items ≡ map opened specs.now) }
{
    let mut slots = Vec::with_capacity(alloc, specs.len())?;
    for spec in specs {
        slots.push(Guest::open(alloc, spec)?)?;
    }
    Ok(slots)
}

/// Opens the slots in their order, over bytes that a host lends.
pub(crate) fn open_all_over<A: Allocator + Copy>(
    alloc: A,
    specs: &[SlotSpec],
    bytes: Vec<Vec<u8, Lodged>, A>,
) -> Result<Vec<Guest<A>, A>, AllocError>
    requires memory { All (λ spec. AreGoodRegions spec.regions) specs.now }
    requires disk { All HasRoom specs.now }
    requires bytes { AreBytesOf specs.now (map vec_items bytes.items) }
    ensures { IfOk result (λ slots. slots.items ≡ made_over opened_over specs.now (map vec_items bytes.items)) }
{
    let mut slots = Vec::with_capacity(alloc, specs.len())?;
    let mut rest = bytes.into_iter();
    for spec in specs {
        let memory = lent::memory(alloc, spec.regions.as_slice(), &mut rest)?;
        slots.push(Guest::over(alloc, spec, memory)?)?;
    }
    Ok(slots)
}
