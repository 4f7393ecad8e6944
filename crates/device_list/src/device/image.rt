//! A device that is a disk over the image.

ghost use Rattle.std.specs.Prelude.{◌≡◌, IsSome, nat_lt};
ghost use Rattle.guest_memory.specs.Memory.{SameRange};
ghost use Rattle.block_device.specs.Extent.{IsWithin, StaysInExtent, TouchesExtent};
ghost use Rattle.device_list.specs.Device.{IsSoundDevice};
ghost use Rattle.device_list.specs.Image.{ServesImageTo};
ghost use Rattle.device_list.specs.List.{has_some_of};
ghost use Rattle.device_list.specs.Model.{image_of};

use crate::device::VirtioDevice;
use crate::extent::do_overlap;
use block_device::{BlockDevice, Extent, Piece};
use chain::{Budget, Chain};
use guest_memory::GuestMemory;
use mmio_window::Stage;
use sector_cache::{Image, SectorCache};
use std::alloc::Allocator;

impl<A: Allocator> VirtioDevice<A> {
    /// The disk over the image that it is, if it is one.
    pub(crate) fn image_disk(&self) -> Option<BlockDevice>
        ensures { result ≡ image_of self.now.model }
    {
        self.model.image_disk()
    }

    /// Whether it is a disk over the image that has one of these spare sectors.
    pub(crate) fn has_some_of(&self, extent: Extent) -> bool
        ensures { result ≡ has_some_of extent self.now }
    {
        match self.image_disk() {
            Some(disk) => do_overlap(extent, disk.extent),
            None => false,
        }
    }

    /// Serves a piece of its request queue as this disk, within the budget.
    pub(crate) fn serve_image<M: Allocator, I: Image, C: Allocator + Copy>(
        &mut self,
        disk: BlockDevice,
        mem: &mut GuestMemory<M>,
        cache: &mut SectorCache<I, C>,
        stage: Stage,
        budget: Budget,
        room: &mut Chain,
    ) -> Piece
        requires image { IsSome (image_of self.old.model) }
        requires sound { IsSoundDevice mem.old self.old }
        requires lies { IsWithin (I.disk cache.old).sector_count disk.extent }
        ensures serves { ServesImageTo stage budget result.progress disk (I.disk cache.old) (I.disk cache.new)
            mem.old mem.new self.old self.new }
        ensures failed { result.failed ≡ nat_lt (I.disk cache.old).failures (I.disk cache.new).failures }
        ensures stays { StaysInExtent disk.extent (I.disk cache.old) (I.disk cache.new) }
        ensures touches { TouchesExtent I.moment I.may_leave I.left_since disk.extent cache.old cache.new }
        ensures range { SameRange mem.old mem.new }
        ensures sound { IsSoundDevice mem.new self.new }
    {
        disk.serve_piece(mem, &mut self.window, cache, stage, budget, room)
    }
}
