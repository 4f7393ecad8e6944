//! A guest, as C describes it.

ghost use Rattle.std.specs.Prelude.{◌≡◌};
ghost use Rattle.racing_ffi.specs.Config.{judged_slot, spec_by};

use crate::codes::{BAD_DEVICE, BAD_SIZE, DONE, NOT_HOSTED};
use crate::device::have_bad_device;
use c_values::{SLOT_SIZE, Slot, depth, regions};
use racing_session::{GuestSpec, LookLimits, RacingSpec};

/// The number that says why no guest which runs on has this slot, if none may have it.
pub(crate) fn judged(slot: &Slot) -> u32
    ensures { result ≡ judged_slot slot.now }
{
    if slot.size != SLOT_SIZE {
        return BAD_SIZE;
    }
    if !slot.hosted {
        return NOT_HOSTED;
    }
    if have_bad_device(&slot.devices) {
        return BAD_DEVICE;
    }
    DONE
}

/// A slot's guest, of which one call serves so much.
pub(crate) fn spec(slot: &Slot, limits: LookLimits) -> RacingSpec
    ensures { result ≡ spec_by slot.now limits }
{
    RacingSpec {
        regions: regions(&slot.regions),
        guest: GuestSpec {
            sectors: slot.count,
            read_only: slot.read_only,
            identity: slot.identity,
            depth: depth(slot.depth),
            cols: slot.cols,
            rows: slot.rows,
        },
        outlet: slot.outlet,
        limits,
    }
}
