//! A slot of a board, as C describes it.

ghost use Rattle.std.specs.Prelude.{◌≡◌, ◌↔◌, ◌≤◌, false, All, IsTrue, IfOk};
ghost use Rattle.session.specs.ImageDisks.{AreImageDisks, has_bad_image_disk};
ghost use Rattle.session.specs.Refusing.{AreDevices, AreOutlets, has_bad_device};
ghost use Rattle.board_ffi.specs.Judging.{first_of_bad_device, first_of_bad_image_disk, first_of_large_outlet, first_of_other_size, first_that_runs};
ghost use Rattle.board_ffi.specs.Config.{AreSized, StandStill, backing_of, guest_of, guests_of};

use crate::device::all_described;
use c_values::{SLOT_SIZE, Slot, depth, regions};
use session::{Backing, Extent, GuestSpec, SlotSpec, has_bad_device, has_bad_image_disk};
use std::alloc::{AllocError, Global};

/// How many bytes of a console's output may wait at most.
const MOST_WAITING: u32 = 0x100_0000;

// Who has a slot's disk.
fn backing(slot: &Slot) -> Backing
    ensures { result ≡ backing_of slot.now.hosted slot.now.depth }
{
    if !slot.hosted {
        return Backing::Image;
    }
    Backing::Host {
        depth: depth(slot.depth),
    }
}

// The guest of a slot.
fn guest(slot: &Slot) -> GuestSpec
    ensures { result ≡ guest_of slot.now }
{
    let spec = SlotSpec {
        regions: regions(&slot.regions),
        extent: Extent {
            start: slot.start,
            count: slot.count,
        },
        spare: slot.spare,
        backing: backing(slot),
        read_only: slot.read_only,
        cols: slot.cols,
        rows: slot.rows,
        identity: slot.identity,
    };
    GuestSpec {
        slot: spec,
        outlet: slot.outlet,
        devices: all_described(slot.devices),
    }
}

// Whether a slot has a further device that no guest may have.
fn has_bad(slot: &Slot) -> bool
    ensures { result ≡ has_bad_device (guest_of slot.now) }
{
    has_bad_device(&guest(slot))
}

// Whether a slot has a further disk over the image of sectors that it can't have.
fn has_bad_disk(slot: &Slot) -> bool
    ensures { result ≡ has_bad_image_disk (guest_of slot.now) }
{
    has_bad_image_disk(&guest(slot))
}

/// Whether each slot has the size of this version. Nothing behind the first that hasn't is read.
pub(crate) fn are_sized(slots: &[Slot]) -> bool
    ensures { IsTrue result ↔ AreSized slots.now }
{
    slots.iter().all(|slot| slot.size == SLOT_SIZE)
}

/// Whether no slot is of a guest that runs on.
pub(crate) fn stand_still(slots: &[Slot]) -> bool
    ensures { IsTrue result ↔ StandStill slots.now }
{
    slots.iter().all(|slot| !slot.runs)
}

/// Whether no slot's outlet is larger than it may be.
pub(crate) fn are_outlets(slots: &[Slot]) -> bool
    ensures { IsTrue result ↔ AreOutlets (guests_of slots.now) }
{
    no_slot_passes(slots, MOST_WAITING)
}

// Whether no slot's outlet passes so many bytes.
fn no_slot_passes(slots: &[Slot], most: u32) -> bool
    ensures { IsTrue result ↔ All (λ slot. slot.outlet ≤ most) slots.now }
{
    slots.iter().all(|slot| slot.outlet <= most)
}

/// Whether each further device of each slot is one that a guest may have.
pub(crate) fn are_devices(slots: &[Slot]) -> bool
    ensures { IsTrue result ↔ AreDevices (guests_of slots.now) }
{
    no_slot_has_bad_device(slots)
}

// Whether no slot has such a device.
fn no_slot_has_bad_device(slots: &[Slot]) -> bool
    ensures { IsTrue result ↔ All (λ slot. has_bad_device (guest_of slot) ≡ false) slots.now }
{
    slots.iter().all(|slot| !has_bad(slot))
}

/// Whether each further disk over the image of each slot is of sectors that it can have.
pub(crate) fn are_image_disks(slots: &[Slot]) -> bool
    ensures { IsTrue result ↔ AreImageDisks (guests_of slots.now) }
{
    no_slot_has_bad_disk(slots)
}

// Whether no slot has one that isn't.
fn no_slot_has_bad_disk(slots: &[Slot]) -> bool
    ensures { IsTrue result ↔ All (λ slot. has_bad_image_disk (guest_of slot) ≡ false) slots.now }
{
    slots.iter().all(|slot| !has_bad_disk(slot))
}

/// How many slots stand before the first that says another size.
pub(crate) fn sized(slots: &[Slot]) -> usize
    ensures { result ≡ first_of_other_size slots.now }
{
    slots
        .iter()
        .take_while(|slot| slot.size == SLOT_SIZE)
        .count()
}

/// How many slots stand before the first whose guest runs on.
pub(crate) fn standing(slots: &[Slot]) -> usize
    ensures { result ≡ first_that_runs slots.now }
{
    slots.iter().take_while(|slot| !slot.runs).count()
}

/// How many slots stand before the first whose outlet is too large.
pub(crate) fn with_outlets(slots: &[Slot]) -> usize
    ensures { result ≡ first_of_large_outlet slots.now }
{
    slots
        .iter()
        .take_while(|slot| slot.outlet <= MOST_WAITING)
        .count()
}

/// How many slots stand before the first with a further device that no guest may have.
pub(crate) fn with_devices(slots: &[Slot]) -> usize
    ensures { result ≡ first_of_bad_device slots.now }
{
    slots.iter().take_while(|slot| !has_bad(slot)).count()
}

/// How many slots stand before the first with a further disk over the image of sectors that it can't have.
pub(crate) fn with_image_disks(slots: &[Slot]) -> usize
    ensures { result ≡ first_of_bad_image_disk slots.now }
{
    slots.iter().take_while(|slot| !has_bad_disk(slot)).count()
}

/// The guests of these slots.
pub(crate) fn guests(alloc: Global, slots: &[Slot]) -> Result<Vec<GuestSpec>, AllocError>
    ensures { IfOk result (λ guests. guests.items ≡ guests_of slots.now) }
{
    slots.iter().map(|slot| guest(slot)).collect(alloc)
}
