//! Which boards may be made: the faults of a description, in their order.

ghost use Rattle.std.specs.Prelude.{◌≡◌, ◌+◌, ◌<◌, ◌≤◌, ◌^◌, ◌↔◌, ℕ, All, IsTrue, OnOk, IfErr};
ghost use Rattle.std.specs.Bool.{OnTrue, OnFalse};
ghost use Rattle.block_device.specs.Extent.{IsWithin};
ghost use Rattle.board.specs.Extent.{IsApart, Overlaps};
ghost use Rattle.board.specs.Fault.{Fits, HasDepth, IsGoodSlot, AreGood, IsFaultOf, Refuses, share};
ghost use Rattle.board.specs.Slot.{extent_by, spare_by};

use crate::fault::{BoardFault, SlotFault};
use crate::spec::{Backing, SlotSpec};
use block_device::{Extent, MOST_IN_FLIGHT};
use guest_memory::{RegionFault, fault_of_regions};

/// How many slots a board may have.
const MOST_SLOTS: usize = 64;

/// How many sectors a disk may have of which no image holds the bytes: their bytes are counted in 64 bits.
const MOST_SECTORS: u64 = u64::MAX / 512;

/// Whether the slots can be had together on an image of that many sectors, as `Board::new` judges them before it takes
/// memory, or the first fault.
pub fn check_slots(slots: &[SlotSpec], sectors: u64) -> Result<(), BoardFault>
    ensures ok { OnOk result (AreGood sectors slots.now) }
    ensures fault { IfErr result (λ fault. (cache : ℕ) → Refuses sectors slots.now cache fault) }
{
    if slots.is_empty() {
        return Err(BoardFault::NoSlots);
    }
    if slots.len() > MOST_SLOTS {
        return Err(BoardFault::TooManySlots);
    }
    for (i, spec) in slots.iter().enumerate() {
        if let Err(fault) = slot(spec, &slots[..i], sectors) {
            let slot = i as u8;
            return Err(BoardFault::Slot { slot, fault });
        }
    }
    Ok(())
}

// Whether a slot is good beside the earlier ones, or its first fault.
fn slot(spec: &SlotSpec, earlier: &[SlotSpec], sectors: u64) -> Result<(), SlotFault>
    requires { All (λ other. IsWithin sectors (share other)) earlier.now }
    ensures ok { OnOk result (IsGoodSlot sectors earlier.now spec.now) }
    ensures fault { IfErr result (λ fault. IsFaultOf sectors earlier.now spec.now fault) }
{
    if let Some(RegionFault { region, fault }) = fault_of_regions(spec.regions.as_slice()) {
        return Err(SlotFault::Memory { region, fault });
    }
    if !has_depth(spec) {
        return Err(SlotFault::BadDepth);
    }
    if !fits(spec, sectors) {
        return Err(SlotFault::ExtentOutside);
    }
    for other in earlier {
        if overlap(share(other), share(spec)) {
            return Err(SlotFault::ExtentsOverlap);
        }
    }
    Ok(())
}

// Whether as many operations may be in flight of a slot's disk, where the host serves it, as a disk has tags.
fn has_depth(spec: &SlotSpec) -> bool
    ensures { IsTrue result ↔ HasDepth spec.now }
{
    match spec.backing {
        Backing::Image => true,
        Backing::Host { depth } => depth >= 1 && depth as usize <= MOST_IN_FLIGHT,
    }
}

// Whether a slot's sectors lie where they must: those of the image in one of that many sectors, or a disk's bytes in 64 bits.
fn fits(spec: &SlotSpec, sectors: u64) -> bool
    ensures value { IsTrue result ↔ Fits sectors spec.now }
    ensures share { OnTrue result (IsWithin sectors (share spec.now)) }
{
    match spec.backing {
        Backing::Image => {
            is_within(spec.extent, sectors)
                && spec.spare <= sectors - spec.extent.start - spec.extent.count
        }
        Backing::Host { depth: _ } => spec.extent.count <= MOST_SECTORS,
    }
}

// What a slot has of the image, its spare sectors too.
fn share(spec: &SlotSpec) -> Extent
    requires { (share spec.now).count < 2 ^ 64 }
    ensures { result ≡ share spec.now }
{
    let Extent { start, count } = own_extent(spec);
    Extent {
        start,
        count: count + spare(spec),
    }
}

/// The sectors of the image that a slot's own disk has.
pub(crate) fn own_extent(spec: &SlotSpec) -> Extent
    ensures { result ≡ extent_by spec.now.backing spec.now.extent }
{
    match spec.backing {
        Backing::Image => spec.extent,
        Backing::Host { depth: _ } => Extent { start: 0, count: 0 },
    }
}

/// How many sectors it has behind them, for its further disks.
pub(crate) fn spare(spec: &SlotSpec) -> u64
    ensures { result ≡ spare_by spec.now.backing spec.now.spare }
{
    match spec.backing {
        Backing::Image => spec.spare,
        Backing::Host { depth: _ } => 0,
    }
}

/// Whether an extent lies in an image of that many sectors.
pub(crate) fn is_within(extent: Extent, sectors: u64) -> bool
    ensures { IsTrue result ↔ IsWithin sectors extent }
{
    extent.start <= sectors && extent.count <= sectors - extent.start
}

// Whether two extents have a sector in common.
fn overlap(one: Extent, other: Extent) -> bool
    requires one { one.start + one.count < 2 ^ 64 }
    requires other { other.start + other.count < 2 ^ 64 }
    ensures shared { OnTrue result (Overlaps one other) }
    ensures apart { OnFalse result (IsApart one other) }
{
    let first = one.start.max(other.start);
    let end = (one.start + one.count).min(other.start + other.count);
    first < end
}
