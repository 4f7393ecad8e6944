//! Runs of sectors, some of which a disk over the image has for its own.

ghost use Rattle.std.specs.Prelude.{◌≡◌, ◌+◌, nat_lt};
ghost use Rattle.device_list.specs.List.{do_overlap};

use block_device::Extent;

/// Whether an extent ends behind this sector.
pub(crate) fn ends_behind(extent: Extent, sector: u64) -> bool
    ensures { result ≡ nat_lt sector (extent.start + extent.count) }
{
    sector < extent.start || sector - extent.start < extent.count
}

/// Whether two extents have a sector in common.
pub(crate) fn do_overlap(one: Extent, other: Extent) -> bool
    ensures { result ≡ do_overlap one other }
{
    ends_behind(other, one.start) && ends_behind(one, other.start)
}
