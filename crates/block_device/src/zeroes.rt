//! WRITE_ZEROES (5.2.6) over an image: its segments are zeroed sector by sector, as they were judged. The first call of
//! the image that fails is the last.

ghost use Rattle.std.specs.Prelude.{◌≡◌, ◌+◌, ◌≤◌, List, length, true, OnOk, OnErr};
ghost use Rattle.std.specs.List.{list_all};
ghost use Rattle.guest_memory.specs.Memory.{Memory};
ghost use Rattle.chain.specs.declared.segment.Buffer.{Buffer};
ghost use Rattle.chain.specs.Bytes.{readable_of};
ghost use Rattle.sector_cache.specs.Stop.{TouchesSectors};
ghost use Rattle.block_device.specs.declared.request.Request.TheVariants.{WriteZeroes};
ghost use Rattle.block_device.specs.Extent.{IsWithin};
ghost use Rattle.block_device.specs.Progress.{IsWritten};
ghost use Rattle.block_device.specs.Request.{payload_of, status_of};
ghost use Rattle.block_device.specs.Touching.{on_image};
ghost use Rattle.block_device.specs.Zeroes.{IsZeroed, StopsZeroing, all_sectors, has_sectors_within, sectors_of, segments_in};

use crate::device::BlockDevice;
use crate::segments::{Segments, WriteZeroesSegment};
use sector_cache::{Image, ImageError, SectorCache};
use std::alloc::Allocator;

impl BlockDevice {
    /// Zeroes the sectors of segments that were judged, and flushes.
    pub(crate) fn zero_segments<I: Image, C: Allocator + Copy>(
        &self,
        cache: &mut SectorCache<I, C>,
        segments: &Segments,
    ) -> Result<(), ImageError>
        requires lies { IsWithin (I.disk cache.old).sector_count self.now.extent }
        requires sectors { list_all (has_sectors_within self.now.extent.count) segments.now ≡ true }

        // What is written is the request whose segments they are.
        ensures written { (m : Memory) (buffers : List Buffer) →
            segments.now ≡ segments_in (payload_of (readable_of m buffers)) →
            IsWritten self.now (WriteZeroes (length segments.now)) buffers m (status_of result)
            (I.disk cache.old) (I.disk cache.new) }

        ensures touches { TouchesSectors I.moment I.may_leave I.left_since
            (on_image self.now.extent (all_sectors segments.now)) cache.old cache.new }
    {
        let list = segments.as_slice();
        for segment in list {
            self.zero_sectors(cache, *segment)?;
        }
        cache.flush()
    }

    /// Zeroes the sectors of one segment.
    fn zero_sectors<I: Image, C: Allocator + Copy>(
        &self,
        cache: &mut SectorCache<I, C>,
        segment: WriteZeroesSegment,
    ) -> Result<(), ImageError>
        requires lies { IsWithin (I.disk cache.old).sector_count self.now.extent }
        requires sectors { segment.sector + segment.count ≤ self.now.extent.count }
        ensures ok { OnOk result (IsZeroed self.now.extent (sectors_of segment) (I.disk cache.old) (I.disk cache.new)) }
        ensures err { OnErr result (StopsZeroing self.now.extent (sectors_of segment)
            (I.disk cache.old) (I.disk cache.new)) }
        ensures touches { TouchesSectors I.moment I.may_leave I.left_since
            (on_image self.now.extent (sectors_of segment)) cache.old cache.new }
    {
        let first = self.extent.start + segment.sector;
        for done in 0..u64::from(segment.count) {
            cache.zero(first + done)?;
        }
        Ok(())
    }
}
