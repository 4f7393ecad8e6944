//! The sectors that the guests' further disks over the image are to have.

ghost use Rattle.std.specs.Prelude.{◌≡◌, ◌↔◌, ◌+◌, [], IsTrue, nat_lt};
ghost use Rattle.std.specs.List.{list_any};
ghost use Rattle.device_list.specs.List.{do_overlap};
ghost use Rattle.session.specs.ImageDisks.{AreImageDisks, has_bad_behind, has_bad_image_disk, has_some, is_bad_behind, spare_of};
ghost use Rattle.session.specs.Session.{before_none};

use crate::guest::GuestSpec;
use board::{Backing, DeviceSpec, Extent};

/// Whether no guest is to have a further disk over the image of sectors that it can't have.
pub(crate) fn are_image_disks(guests: &[GuestSpec]) -> bool
    ensures { IsTrue result ↔ AreImageDisks guests.now }
{
    guests.iter().all(|guest| !has_bad_image_disk(guest))
}

/// Whether a guest is to have a further disk over the image of no sectors, of one that isn't a spare one of its slot, or of one that
/// another such disk has.
pub fn has_bad_image_disk(guest: &GuestSpec) -> bool
    ensures { result ≡ has_bad_image_disk guest.now }
{
    has_bad_disk(&guest.devices, spare_of(guest))
}

// Whether one of the devices before the first `None` is such a disk, of so many spare sectors.
fn has_bad_disk(devices: &[Option<DeviceSpec>], spare: u64) -> bool
    ensures { result ≡ has_bad_behind spare [] (before_none devices.now) }
{
    for place in 0..devices.len() {
        let Some(spec) = devices[place] else {
            return false;
        };
        if is_bad_behind(spec, spare, &devices[..place]) {
            return true;
        }
    }
    false
}

// How many spare sectors a guest's slot has.
fn spare_of(guest: &GuestSpec) -> u64
    ensures { result ≡ spare_of guest.now }
{
    match guest.slot.backing {
        Backing::Image => guest.slot.spare,
        Backing::Host { depth: _ } => 0,
    }
}

// Whether a device is such a disk behind these, of so many spare sectors.
fn is_bad_behind(spec: DeviceSpec, spare: u64, earlier: &[Option<DeviceSpec>]) -> bool
    ensures { result ≡ is_bad_behind spec spare earlier.now }
{
    let DeviceSpec::Image { extent, .. } = spec else {
        return false;
    };
    extent.count == 0 || ends_behind(extent, spare) || have_some(earlier, extent)
}

// Whether one of these devices is a disk over the image that has some of these sectors.
fn have_some(devices: &[Option<DeviceSpec>], extent: Extent) -> bool
    ensures { result ≡ list_any (has_some extent) devices.now }
{
    devices.iter().any(|device| has_some(device, extent))
}

// Whether a device is a disk over the image that has some of these sectors.
fn has_some(device: &Option<DeviceSpec>, extent: Extent) -> bool
    ensures { result ≡ has_some extent device.now }
{
    match device {
        Some(DeviceSpec::Image { extent: other, .. }) => do_overlap(extent, *other),
        _ => false,
    }
}

// Whether an extent ends behind this sector.
fn ends_behind(extent: Extent, sector: u64) -> bool
    ensures { result ≡ nat_lt sector (extent.start + extent.count) }
{
    sector < extent.start || sector - extent.start < extent.count
}

// Whether two extents have a sector in common.
fn do_overlap(one: Extent, other: Extent) -> bool
    ensures { result ≡ do_overlap one other }
{
    ends_behind(other, one.start) && ends_behind(one, other.start)
}
