//! Disks over the image: the sectors that they may have, and their services.

ghost use Rattle.std.specs.Prelude.{◌≡◌, IfSome, None, nat_lt};
ghost use Rattle.std.specs.List.{list_any};
ghost use Rattle.guest_memory.specs.Memory.{SameRange};
ghost use Rattle.block_device.specs.Extent.{IsWithin, StaysInExtent, TouchesExtent};
ghost use Rattle.device_list.specs.Image.{DevicesServeImageTo, moved};
ghost use Rattle.device_list.specs.List.{AreSoundDevices, has_bad_extent, has_some_of, image_at};

use crate::extent::ends_behind;
use crate::list::DeviceList;
use crate::spec::DeviceSpec;
use block_device::{BlockDevice, Extent, Piece};
use chain::{Budget, Chain, Progress};
use guest_memory::GuestMemory;
use mmio_window::Stage;
use sector_cache::{Image, SectorCache};
use std::alloc::Allocator;

/// Where there is no disk to serve.
const NOTHING: Piece = Piece {
    progress: Progress::Done,
    failed: false,
};

impl<A: Allocator> DeviceList<A> {
    /// Whether a disk over the image is to have no sectors, one that isn't among so many spare ones, or one that another has.
    pub(super) fn has_bad_extent(&self, spec: &DeviceSpec, spare: u64) -> bool
        ensures { result ≡ has_bad_extent self.now spare spec.now }
    {
        let DeviceSpec::Image { extent, .. } = *spec else {
            return false;
        };
        extent.count == 0 || ends_behind(extent, spare) || self.has_some_of(extent)
    }

    // Whether a disk over the image has one of these spare sectors.
    fn has_some_of(&self, extent: Extent) -> bool
        ensures { result ≡ list_any (has_some_of extent) self.now }
    {
        self.devices.iter().any(|device| device.has_some_of(extent))
    }

    /// The disk over the image of this number, whose extent numbers the spare sectors. There is none where the device isn't there
    /// or is no such disk.
    pub fn image_disk(&self, device: u8) -> Option<BlockDevice>
        ensures { result ≡ image_at device self.now }
    {
        let found = self.get(device)?;
        found.image_disk()
    }

    /// Serves a piece of the request queue of the disk over the image of this number, within the budget. The spare sectors begin at
    /// sector `base` of the image. Where there is no such disk, nothing is served. In a pause the queue stands open, and its
    /// device's window is left alone. `room` is where the chains stand, one after another.
    pub fn serve_image<M: Allocator, I: Image, C: Allocator + Copy>(
        &mut self,
        device: u8,
        base: u64,
        mem: &mut GuestMemory<M>,
        cache: &mut SectorCache<I, C>,
        stage: Stage,
        budget: Budget,
        room: &mut Chain,
    ) -> Piece
        requires sound { AreSoundDevices mem.old self.old }
        requires lies { IfSome (image_at device self.old) (λ disk.
            IsWithin (I.disk cache.old).sector_count (moved base disk.extent)) }
        ensures serves { DevicesServeImageTo stage budget result.progress device base mem.old mem.new self.old self.new
            (I.disk cache.old) (I.disk cache.new) }
        ensures failed { result.failed ≡ nat_lt (I.disk cache.old).failures (I.disk cache.new).failures }
        ensures stays { IfSome (image_at device self.old) (λ disk.
            StaysInExtent (moved base disk.extent) (I.disk cache.old) (I.disk cache.new)) }
        ensures touches { IfSome (image_at device self.old) (λ disk.
            TouchesExtent I.moment I.may_leave I.left_since (moved base disk.extent) cache.old cache.new) }
        ensures none { image_at device self.old ≡ None → cache.new ≡ cache.old }
        ensures range { SameRange mem.old mem.new }
        ensures sound { AreSoundDevices mem.new self.new }
    {
        let Some(disk) = self.image_disk(device) else {
            return NOTHING;
        };
        let Some(found) = self.devices.get_mut(usize::from(device)) else {
            return NOTHING;
        };
        let extent = Extent {
            start: base + disk.extent.start,
            count: disk.extent.count,
        };
        let placed = BlockDevice { extent, ..disk };
        found.serve_image(placed, mem, cache, stage, budget, room)
    }
}
