//! The parts of serving one chain, from its header to its status byte.

ghost use Rattle.std.specs.Prelude.{◌≡◌, ◌<◌, ◌-◌, true, false, length};
ghost use Rattle.guest_memory.specs.Memory.{SameRange};
ghost use Rattle.chain.specs.Buffers.{Good};
ghost use Rattle.chain.specs.Bytes.{readable_of, writable_of};
ghost use Rattle.sector_cache.specs.Stop.{TouchesSectors};
ghost use Rattle.chain.specs.Service.{Does};
ghost use Rattle.sector_cache.specs.Disk.{Disk};
ghost use Rattle.block_device.specs.Asking.{Begins, IsAsked, IsKnown, IsRejected, has_segments, unasked_device, used_by, with_status};
ghost use Rattle.block_device.specs.Extent.{CallsWithin, IsWithin, extent_disk};
ghost use Rattle.block_device.specs.Request.{is_io_error, payload_of};
ghost use Rattle.block_device.specs.Progress.{IsDone};
ghost use Rattle.block_device.specs.Touching.{on_image, written_sectors};

use crate::device::BlockDevice;
use crate::request::{Headed, ID_LEN, Request, RequestStatus};
use crate::transfer::Done;
use chain::Chain;
use guest_memory::GuestMemory;
use mmio_window::Used;
use sector_cache::{Image, SectorCache};
use std::alloc::Allocator;

/// What a chain comes to before the image is asked.
#[derive(Clone, Copy)]
pub(crate) enum Begun {
    /// It is answered.
    Answered(Used),
    /// It asks the image for this, which has no segments.
    Asks(Request),
    /// It is a WRITE_ZEROES with so many bytes of segments, which aren't read yet.
    Zeroes(u64),
}

impl BlockDevice {
    /// Answers a chain as far as that needs no image.
    #[inline(always)]
    pub(crate) fn begin<M: Allocator>(&self, mem: &mut GuestMemory<M>, chain: &Chain) -> Begun
        requires good { Good mem.old chain.now }
        ensures begun { Begins self.now mem.old mem.new chain.now result }
        ensures range { SameRange mem.old mem.new }
    {
        let writable = chain.writable_len();
        if writable == 0 {
            return Begun::Answered(Used::UNWRITTEN);
        }
        match self.headed(mem, chain, writable - 1) {
            Headed::Known(request) => self.begin_known(mem, chain, request),
            Headed::Zeroes(len) => Begun::Zeroes(len),
        }
    }

    /// The same of a chain whose request is known.
    #[inline(always)]
    fn begin_known<M: Allocator>(
        &self,
        mem: &mut GuestMemory<M>,
        chain: &Chain,
        request: Request,
    ) -> Begun
        requires good { Good mem.old chain.now }
        requires status { 0 < length (writable_of chain.now) }
        requires known { IsKnown self.now (readable_of mem.old chain.now) (length (writable_of chain.now) - 1) request }
        ensures begun { Begins self.now mem.old mem.new chain.now result }
        ensures range { SameRange mem.old mem.new }
    {
        match request {
            Request::Rejected(status) => Begun::Answered(self.reject(mem, chain, status)),
            Request::GetId => {
                chain.write_at(mem, 0, &self.identity);
                let done = Done {
                    len: ID_LEN,
                    ..Done::SUCCEEDED
                };
                Begun::Answered(finish(mem, chain, done))
            }
            request => Begun::Asks(request),
        }
    }

    /// Answers a chain whose request can't be served.
    #[inline(always)]
    pub(crate) fn reject<M: Allocator>(
        &self,
        mem: &mut GuestMemory<M>,
        chain: &Chain,
        status: RequestStatus,
    ) -> Used
        requires good { Good mem.old chain.now }
        requires rejected { IsRejected self.now mem.old chain.now status }
        ensures does { (disk : Disk) → Does (unasked_device self.now) mem.old mem.new chain.now disk disk
            result.len result.wrote }
        ensures range { SameRange mem.old mem.new }
    {
        finish(mem, chain, Done { len: 0, status })
    }

    /// Does all of a request without segments but its status.
    #[inline(always)]
    pub(crate) fn perform<I: Image, M: Allocator, C: Allocator + Copy>(
        &self,
        request: Request,
        mem: &mut GuestMemory<M>,
        chain: &Chain,
        cache: &mut SectorCache<I, C>,
    ) -> Done
        requires good { Good mem.old chain.now }
        requires lies { IsWithin (I.disk cache.old).sector_count self.now.extent }
        requires asked { IsAsked self.now mem.old chain.now request }
        requires plain { has_segments request ≡ false }
        ensures done { IsDone self.now.identity request chain.now mem.old mem.new
            (extent_disk self.now.extent (I.disk cache.old))
            (extent_disk self.now.extent (I.disk cache.new)) result.len result.status }
        ensures room { result.len < length (writable_of chain.now) }
        ensures calls { CallsWithin self.now.extent (is_io_error result.status) (I.disk cache.old) (I.disk cache.new) }
        ensures own { TouchesSectors I.moment I.may_leave I.left_since
            (on_image self.now.extent (written_sectors request (payload_of (readable_of mem.old chain.now))))
            cache.old cache.new }
        ensures range { SameRange mem.old mem.new }
    {
        match request {
            Request::Read { sector, count } => self.read_sectors(mem, chain, cache, sector, count),
            Request::Write { sector, count } => {
                Done::of(self.write_sectors(mem, chain, cache, sector, count))
            }
            Request::Flush => Done::of(cache.flush()),
            Request::Rejected(_) | Request::GetId | Request::WriteZeroes { .. } => unreachable!(),
        }
    }
}

/// Writes the status of a request that is done, behind all other writable bytes.
#[inline(always)]
pub(crate) fn finish<M: Allocator>(mem: &mut GuestMemory<M>, chain: &Chain, done: Done) -> Used
    requires good { Good mem.old chain.now }
    requires room { done.len < length (writable_of chain.now) }
    ensures status { mem.new ≡ with_status mem.old chain.now done.status }
    ensures len { result.len ≡ used_by done.len (length (writable_of chain.now)) }
    ensures wrote { result.wrote ≡ true }
    ensures range { SameRange mem.old mem.new }
{
    let writable = chain.writable_len();
    chain.write_at(mem, writable - 1, &[done.status.code()]);
    done.used(writable)
}
