//! The device over a cache of its image, as the service of its queue has it.

ghost use Rattle.std.specs.Prelude.{◌≡◌};
ghost use Rattle.guest_memory.specs.Memory.{SameRange};
ghost use Rattle.chain.specs.Buffers.{Good};
ghost use Rattle.chain.specs.Service.{Does};
ghost use Rattle.block_device.specs.Asking.{HasUnreadSegments};
ghost use Rattle.block_device.specs.Extent.{IsWithin};
ghost use Rattle.block_device.specs.Keeping.{KeepsImage};
ghost use Rattle.block_device.specs.Touching.{device_over};

use crate::answer::{Begun, finish};
use crate::device::BlockDevice;
use crate::transfer::Done;
use chain::Chain;
use guest_memory::GuestMemory;
use mmio_window::{QueueHandler, Used};
use sector_cache::{Image, SectorCache};
use std::alloc::Allocator;
use std::convert::Infallible;

/// A device in a piece of its service. It serves every chain.
#[derive(Drop)]
pub(crate) struct Cached {
    pub device: BlockDevice,
    /// Whether an image call failed.
    pub failed: bool,
}

impl<I: Image, C: Allocator + Copy> QueueHandler<SectorCache<I, C>> for Cached {
    type Refusal = Infallible;

    ghost use Rattle.block_device.specs.declared.device.BlockDevice.{BlockDevice};
    ghost use Rattle.block_device.specs.Extent.{IsWithin};
    ghost use Rattle.block_device.specs.Keeping.{KeepsImage};
    ghost use Rattle.block_device.specs.Touching.{device_over};

    ghost State = { I };

    ghost state = { λ here cache. cache };

    ghost Setup = { BlockDevice };

    ghost setup = { λ here cache. here.device };

    ghost device = { λ fixed. device_over I.disk I.moment I.may_leave I.left_since fixed };

    ghost Refuses = { λ fixed left cache memory buffers why. ⊥ };

    ghost IsReady = { λ here cache. IsWithin (I.disk cache).sector_count here.device.extent };

    ghost Keeps = { λ here cache there later.
        KeepsImage I.disk I.moment I.may_leave I.left_since here.device there.device here.failed there.failed cache later };

    fn takes(&self, _cache: &SectorCache<I, C>) -> bool {
        true
    }

    fn serve<M: Allocator>(
        &mut self,
        mem: &mut GuestMemory<M>,
        chain: &Chain,
        cache: &mut SectorCache<I, C>,
    ) -> Result<Used, Infallible> {
        match self.device.begin(mem, chain) {
            Begun::Answered(used) => Ok(used),
            Begun::Asks(request) => {
                let done = self.device.perform(request, mem, chain, cache);
                self.failed |= done.status.is_io_error();
                Ok(finish(mem, chain, done))
            }
            Begun::Zeroes(len) => Ok(self.serve_zeroes(mem, chain, cache, len)),
        }
    }
}

impl Cached {
    /// Serves a WRITE_ZEROES with so many bytes of segments. What is zeroed are the segments that were judged.
    #[inline(never)]
    fn serve_zeroes<I: Image, M: Allocator, C: Allocator + Copy>(
        &mut self,
        mem: &mut GuestMemory<M>,
        chain: &Chain,
        cache: &mut SectorCache<I, C>,
        len: u64,
    ) -> Used
        requires good { Good mem.old chain.now }
        requires lies { IsWithin (I.disk cache.old).sector_count self.old.device.extent }
        requires unread { HasUnreadSegments self.old.device mem.old chain.now len }
        ensures does { Does (device_over I.disk I.moment I.may_leave I.left_since self.old.device) mem.old mem.new
            chain.now cache.old cache.new result.len result.wrote }
        ensures keeps { KeepsImage I.disk I.moment I.may_leave I.left_since self.old.device self.new.device
            self.old.failed self.new.failed cache.old cache.new }
        ensures device { self.new.device ≡ self.old.device }
        ensures range { SameRange mem.old mem.new }
    {
        match self.device.judged_segments(mem, chain, len) {
            Ok(segments) => {
                let done = Done::of(self.device.zero_segments(cache, &segments));
                self.failed |= done.status.is_io_error();
                finish(mem, chain, done)
            }
            Err(status) => self.device.reject(mem, chain, status),
        }
    }
}
