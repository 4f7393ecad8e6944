//! A service of the device's queue, whole or in pieces, and what its window shows of it.

ghost use Rattle.std.specs.Prelude.{◌≡◌, ◌<◌, ◌↔◌, Option, IsTrue};
ghost use Rattle.guest_memory.specs.Memory.{SameRange};
ghost use Rattle.mmio_window.specs.Pieces.{ServesTo};
ghost use Rattle.mmio_window.specs.Serving.{IsNotified};
ghost use Rattle.mmio_window.specs.Soundness.{IsSound};
ghost use Rattle.mmio_window.specs.Window.{queue_at};
ghost use Rattle.block_device.specs.Device.{block_device, exact_device};
ghost use Rattle.block_device.specs.Extent.{IsWithin, StaysInExtent, TouchesExtent, extent_disk};
ghost use Rattle.block_device.specs.Touching.{device_over};

use crate::cached::Cached;
use crate::device::{BlockDevice, REQUESTQ};
use chain::{Budget, Chain, Progress};
use guest_memory::GuestMemory;
use mmio_window::{Stage, Window, serve_queue, show};
use sector_cache::{Image, SectorCache};
use std::alloc::Allocator;

/// How a piece of a service came out.
#[derive(Clone, Copy, Debug, PartialEq, Eq)]
pub struct Piece {
    pub progress: Progress,
    /// Whether an image call failed.
    pub failed: bool,
}

/// Where there is no queue to serve.
const NOTHING: Piece = Piece {
    progress: Progress::Done,
    failed: false,
};

impl BlockDevice {
    /// Serves the chains that are on offer (2.7.13, 5.2.6), in the window of this device. Answers true exactly
    /// where the number of the image's failures rose. Where the window isn't live or its queue not ready,
    /// nothing happens.
    pub fn serve<I: Image, M: Allocator, C: Allocator + Copy>(
        &self,
        mem: &mut GuestMemory<M>,
        window: &mut Window,
        cache: &mut SectorCache<I, C>,
    ) -> bool
        requires sound { IsSound mem.old window.old }
        requires lies { IsWithin (I.disk cache.old).sector_count self.now.extent }

        ensures served { IsNotified (block_device self.now) 0 (queue_at 0 window.old) mem.old mem.new
            window.old window.new (extent_disk self.now.extent (I.disk cache.old))
            (extent_disk self.now.extent (I.disk cache.new)) }
        ensures failed { IsTrue result ↔ ((I.disk cache.old).failures < (I.disk cache.new).failures) }

        // Where no image call failed the requests are determined.
        ensures exact { (I.disk cache.new).failures ≡ (I.disk cache.old).failures →
            IsNotified (exact_device self.now) 0 (queue_at 0 window.old) mem.old mem.new
            window.old window.new (extent_disk self.now.extent (I.disk cache.old))
            (extent_disk self.now.extent (I.disk cache.new)) }

        // At each moment only the sectors of the requests are touched.
        ensures own { IsNotified (device_over I.disk I.moment I.may_leave I.left_since self.now) 0
            (queue_at 0 window.old) mem.old mem.new window.old window.new cache.old cache.new }

        ensures stays { StaysInExtent self.now.extent (I.disk cache.old) (I.disk cache.new) }
        ensures touches { TouchesExtent I.moment I.may_leave I.left_since self.now.extent cache.old cache.new }
        ensures range { SameRange mem.old mem.new }
        ensures sound { IsSound mem.new window.new }
    {
        let mut room = Chain::new();
        self.serve_piece(
            mem,
            window,
            cache,
            Stage::First,
            Budget::UNLIMITED,
            &mut room,
        )
        .failed
    }

    /// The same within a budget: where that is spent and one more chain is on offer, the service pauses, and goes on
    /// with its next piece. In a pause its queue stands open, and no other call may be made with the window. `room` is where
    /// its chains stand, one after another: what it holds before is of no account.
    pub fn serve_piece<I: Image, M: Allocator, C: Allocator + Copy>(
        &self,
        mem: &mut GuestMemory<M>,
        window: &mut Window,
        cache: &mut SectorCache<I, C>,
        stage: Stage,
        budget: Budget,
        room: &mut Chain,
    ) -> Piece
        requires sound { IsSound mem.old window.old }
        requires lies { IsWithin (I.disk cache.old).sector_count self.now.extent }
        ensures served { ServesTo stage (block_device self.now) budget 0 (queue_at 0 window.old) result.progress
            mem.old mem.new window.old window.new (extent_disk self.now.extent (I.disk cache.old))
            (extent_disk self.now.extent (I.disk cache.new)) }
        ensures failed { IsTrue result.failed ↔ ((I.disk cache.old).failures < (I.disk cache.new).failures) }
        ensures own { ServesTo stage (device_over I.disk I.moment I.may_leave I.left_since self.now) budget 0
            (queue_at 0 window.old) result.progress mem.old mem.new window.old window.new cache.old cache.new }
        ensures stays { StaysInExtent self.now.extent (I.disk cache.old) (I.disk cache.new) }
        ensures touches { TouchesExtent I.moment I.may_leave I.left_since self.now.extent cache.old cache.new }
        ensures range { SameRange mem.old mem.new }
        ensures sound { IsSound mem.new window.new }
    {
        let Some(queue) = window.queue(REQUESTQ) else {
            return NOTHING;
        };
        let mut device = Cached {
            device: *self,
            failed: false,
        };
        let Ok(left) = serve_queue(&mut device, cache, mem, queue, stage, budget, room) else {
            unreachable!();
        };
        Piece {
            progress: show(window, REQUESTQ, left, room),
            failed: device.failed,
        }
    }
}
