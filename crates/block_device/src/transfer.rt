//! Sectors on their way between an image and a chain: all at once where the image is in memory, else one at a time.
//! What is read goes from the cache straight into memory, what is written out of memory straight into the cache, and
//! through one array where a sector lies in more than one segment. The first call of the image that fails is the last.

ghost use Rattle.std.specs.Prelude.{◌+◌, ◌*◌, ◌^◌, ◌<◌, ◌≤◌, ◌≡◌, true, length, take, drop, All};
ghost use Rattle.std.specs.List.{range_with_len};
ghost use Rattle.guest_memory.specs.Memory.{SameRange};
ghost use Rattle.chain.specs.Buffers.{Within};
ghost use Rattle.chain.specs.Bytes.{readable_of, writable_of};
ghost use Rattle.sector_cache.specs.Stop.{TouchesNothing, TouchesSectors};
ghost use Rattle.block_device.specs.declared.request.Request.TheVariants.{Read, Write};
ghost use Rattle.block_device.specs.Asking.{found_by, status_by, used_by};
ghost use Rattle.block_device.specs.Extent.{CallsWithin, IsWithin, extent_disk, sector_len};
ghost use Rattle.block_device.specs.Request.{is_io_error, payload_of, status_of};
ghost use Rattle.block_device.specs.Progress.{IsDone, IsWritten};
ghost use Rattle.block_device.specs.Touching.{on_image};

use crate::device::BlockDevice;
use crate::header::HEADER_LEN;
use crate::operation::{OperationKind, Verdict};
use crate::payload::Payload;
use crate::request::{RequestStatus, SECTOR_LEN};
use chain::Chain;
use guest_memory::GuestMemory;
use mmio_window::Used;
use sector_cache::{Image, ImageError, SectorCache};
use std::alloc::Allocator;

/// A request that was served but for its status.
#[derive(Clone, Copy)]
pub struct Done {
    /// How many of the first writable bytes were written.
    pub len: u64,
    pub status: RequestStatus,
}

impl Done {
    /// An image call failed, and nothing is to be read.
    pub(crate) const FAILED: Done = Done {
        len: 0,
        status: RequestStatus::IoError,
    };

    /// It succeeded, and nothing is to be read.
    pub(crate) const SUCCEEDED: Done = Done {
        len: 0,
        status: RequestStatus::Success,
    };

    /// What comes of a request that reads nothing, by how its calls of the image came out.
    #[inline]
    pub(crate) fn of(calls: Result<(), ImageError>) -> Done
        ensures len { result.len ≡ 0 }
        ensures status { result.status ≡ status_of calls }
    {
        match calls {
            Ok(()) => Done::SUCCEEDED,
            Err(_) => Done::FAILED,
        }
    }

    /// What an operation comes to that came out so, where `room` bytes come before the status.
    pub fn by(kind: OperationKind, verdict: Verdict, room: u64) -> Done
        ensures len { result.len ≡ found_by kind verdict room }
        ensures status { result.status ≡ status_by verdict }
    {
        match (verdict, kind) {
            (Verdict::Failed, _) => Done::FAILED,
            (Verdict::Done, OperationKind::In) => Done {
                len: room,
                ..Done::SUCCEEDED
            },
            (Verdict::Done, _) => Done::SUCCEEDED,
        }
    }

    /// What the used entry of its chain says, which has so many writable bytes, the status among them.
    #[inline(always)]
    pub fn used(self, writable: u64) -> Used
        requires room { self.len < writable }
        requires fits { writable < 2 ^ 32 }
        ensures len { result.len ≡ used_by self.len writable }
        ensures wrote { result.wrote ≡ true }
    {
        let len = if self.len == writable - 1 {
            writable
        } else {
            self.len
        };
        Used {
            len: len as u32,
            wrote: true,
        }
    }
}

impl BlockDevice {
    /// Reads sectors into the first writable bytes.
    pub(crate) fn read_sectors<I: Image, M: Allocator, C: Allocator + Copy>(
        &self,
        mem: &mut GuestMemory<M>,
        chain: &Chain,
        cache: &mut SectorCache<I, C>,
        sector: u64,
        count: u64,
    ) -> Done
        requires inside { All (Within mem.old) chain.now }
        requires lies { IsWithin (I.disk cache.old).sector_count self.now.extent }
        requires sectors { sector + count ≤ self.now.extent.count }
        requires room { sector_len * count ≤ length (writable_of chain.now) }
        requires fits { sector_len * count < 2 ^ 64 }
        ensures done { IsDone self.now.identity (Read sector count) chain.now mem.old mem.new
            (extent_disk self.now.extent (I.disk cache.old))
            (extent_disk self.now.extent (I.disk cache.new)) result.len result.status }
        ensures len { result.len ≤ sector_len * count }
        ensures calls { CallsWithin self.now.extent (is_io_error result.status) (I.disk cache.old) (I.disk cache.new) }
        ensures touches { TouchesNothing I.moment I.may_leave I.left_since cache.old cache.new }
        ensures range { SameRange mem.old mem.new }
    {
        if let Some(bytes) = cache.lend_sectors(self.extent.start + sector, count) {
            chain.write_at(mem, 0, bytes);
            return Done {
                len: SECTOR_LEN * count,
                ..Done::SUCCEEDED
            };
        }
        for done in 0..count {
            match cache.lend(self.extent.start + sector + done) {
                Ok(bytes) => chain.write_at(mem, SECTOR_LEN * done, bytes),
                Err(_) => {
                    return Done {
                        len: SECTOR_LEN * done,
                        ..Done::FAILED
                    };
                }
            }
        }
        Done {
            len: SECTOR_LEN * count,
            ..Done::SUCCEEDED
        }
    }

    /// Writes the readable bytes behind the header to sectors, and flushes.
    pub(crate) fn write_sectors<I: Image, M: Allocator, C: Allocator + Copy>(
        &self,
        mem: &GuestMemory<M>,
        chain: &Chain,
        cache: &mut SectorCache<I, C>,
        sector: u64,
        count: u64,
    ) -> Result<(), ImageError>
        requires inside { All (Within mem.now) chain.now }
        requires lies { IsWithin (I.disk cache.old).sector_count self.now.extent }
        requires sectors { sector + count ≤ self.now.extent.count }
        requires payload { length (payload_of (readable_of mem.now chain.now)) ≡ sector_len * count }
        requires fits { sector_len * count + 16 < 2 ^ 64 }
        ensures written { IsWritten self.now (Write sector count) chain.now mem.now (status_of result)
            (I.disk cache.old) (I.disk cache.new) }
        ensures touches { TouchesSectors I.moment I.may_leave I.left_since
            (on_image self.now.extent (range_with_len sector count)) cache.old cache.new }
    {
        let first = self.extent.start + sector;
        if count == 0 || cache.write_in_place(first, &Payload::of(mem, chain)) {
            return cache.flush();
        }
        self.write_each(mem, chain, cache, sector, count)
    }

    /// The same one sector at a time, through the cache.
    #[inline(never)]
    fn write_each<I: Image, M: Allocator, C: Allocator + Copy>(
        &self,
        mem: &GuestMemory<M>,
        chain: &Chain,
        cache: &mut SectorCache<I, C>,
        sector: u64,
        count: u64,
    ) -> Result<(), ImageError>
        requires inside { All (Within mem.now) chain.now }
        requires lies { IsWithin (I.disk cache.old).sector_count self.now.extent }
        requires sectors { sector + count ≤ self.now.extent.count }
        requires payload { length (payload_of (readable_of mem.now chain.now)) ≡ sector_len * count }
        requires fits { sector_len * count + 16 < 2 ^ 64 }
        ensures written { IsWritten self.now (Write sector count) chain.now mem.now (status_of result)
            (I.disk cache.old) (I.disk cache.new) }
        ensures touches { TouchesSectors I.moment I.may_leave I.left_since
            (on_image self.now.extent (range_with_len sector count)) cache.old cache.new }
    {
        let mut gathered = [0; SECTOR_LEN as usize];
        for done in 0..count {
            let place = HEADER_LEN + SECTOR_LEN * done;
            let bytes = sector_at(mem, chain, place, &mut gathered);
            cache.write(self.extent.start + sector + done, bytes)?;
        }
        cache.flush()
    }
}

// The 512 readable bytes from a place on: where they lie in memory where that is one segment, and else gathered.
fn sector_at<'a, M: Allocator>(
    mem: &'a GuestMemory<M>,
    chain: &Chain,
    place: u64,
    gathered: &'a mut [u8; SECTOR_LEN as usize],
) -> &'a [u8; SECTOR_LEN as usize]
    requires inside { All (Within mem.now) chain.now }
    requires range { place + sector_len ≤ length (readable_of mem.now chain.now) }
    requires fits { place + sector_len < 2 ^ 64 }
    ensures { result.now ≡ take sector_len (drop place (readable_of mem.now chain.now)) }
{
    let part = chain.read_part(mem, place);
    if let Some(bytes) = part.first_chunk() {
        return bytes;
    }
    let (front, rest) = gathered.split_at_mut(part.len());
    front.copy_from_slice(part);
    chain.read_at(mem, place + part.len() as u64, rest);
    gathered
}
