//! The segments of a WRITE_ZEROES (5.2.6): their bytes are read once out of guest memory, into a room of the device's own,
//! and judged there. What is zeroed, or told to a host, is made of these alone.

ghost use Rattle.std.specs.Prelude.{◌≡◌, ◌+◌, ◌*◌, ◌^◌, ◌<◌, ◌≤◌, ℕ, List, length, true, All, IfErr, IfOk};
ghost use Rattle.std.specs.List.{list_all};
ghost use Rattle.chain.specs.Buffers.{Within};
ghost use Rattle.chain.specs.Bytes.{readable_of};
ghost use Rattle.block_device.specs.declared.request.Request.TheVariants.{Rejected};
ghost use Rattle.block_device.specs.Extent.{sector_len};
ghost use Rattle.block_device.specs.Operation.{disk_run, disk_runs};
ghost use Rattle.block_device.specs.Request.{AreJudged, AreRead, payload_of, write_zeroes_request_of};
ghost use Rattle.block_device.specs.Zeroes.{are_segments, has_known_flags, has_sectors_within, max_write_zeroes_seg, segment_at, segment_len, segments_in};

use crate::device::BlockDevice;
use crate::header::HEADER_LEN;
use crate::request::{RequestStatus, SECTOR_LEN};
use arrayvec::ArrayVec;
use byteorder::{ByteOrder, LittleEndian};
use chain::{Chain, Runs, Segment};
use guest_memory::GuestMemory;
use std::alloc::Allocator;
use std::marker::Model;

/// The most sectors that a segment may have (5.2.4).
pub(crate) const MAX_WRITE_ZEROES_SECTORS: u32 = 65536;

/// The most segments that a request may have.
pub(crate) const MAX_WRITE_ZEROES_SEG: u32 = 32;

const MOST_SEGMENTS: usize = MAX_WRITE_ZEROES_SEG as usize;

/// The bytes of a segment.
const SEGMENT_LEN: usize = 16;

/// The bytes of as many segments as a request may have.
pub const MOST_SEGMENT_BYTES: usize = SEGMENT_LEN * MOST_SEGMENTS;

/// The sectors may be unmapped as long as they read as zeros. Here that changes nothing.
const FLAG_UNMAP: u32 = 1;

/// A run of sectors that a request names, counted from the extent's start.
#[derive(Clone, Copy, Default)]
pub struct WriteZeroesSegment {
    pub sector: u64,
    pub count: u32,
    pub flags: u32,
}

impl WriteZeroesSegment {
    /// The segment of that index.
    fn of(payload: &[u8], index: usize) -> WriteZeroesSegment
        requires there { segment_len * (index + 1) ≤ length payload.now }
        ensures { result ≡ segment_at payload.now index }
    {
        let from = SEGMENT_LEN * index;
        let bytes = &payload[from..from + SEGMENT_LEN];
        WriteZeroesSegment {
            sector: LittleEndian::read_u64(bytes),
            count: LittleEndian::read_u32(&bytes[8..]),
            flags: LittleEndian::read_u32(&bytes[12..]),
        }
    }

    /// Whether no flag is set but `unmap`.
    fn has_known_flags(&self) -> bool
        ensures { result ≡ has_known_flags self.now }
    {
        self.flags <= FLAG_UNMAP
    }

    /// The bytes of the disk that it names.
    fn run(&self) -> Segment
        requires sector { sector_len * self.now.sector < 2 ^ 64 }
        requires few { self.now.count ≤ 65536 }
        ensures { result ≡ disk_run self.now }
    {
        Segment {
            addr: SECTOR_LEN * self.sector,
            len: SECTOR_LEN as u32 * self.count,
        }
    }

    /// Whether its sectors are few enough, and all of them on a disk of `capacity`.
    fn has_sectors_within(&self, capacity: u64) -> bool
        ensures { result ≡ has_sectors_within capacity self.now }
    {
        self.count <= MAX_WRITE_ZEROES_SECTORS
            && self.sector <= capacity
            && u64::from(self.count) <= capacity - self.sector
    }
}

/// Whether `len` bytes are whole segments, at least one and not too many.
pub fn are_segments(len: u64) -> bool
    ensures { result ≡ are_segments len }
{
    len % SEGMENT_LEN as u64 == 0
        && 0 < len
        && len / SEGMENT_LEN as u64 <= u64::from(MAX_WRITE_ZEROES_SEG)
}

/// The segments of a request, as they were read. A guest can't write them.
#[derive(Drop)]
pub struct Segments {
    list: ArrayVec<WriteZeroesSegment, MOST_SEGMENTS>,
}

impl Model for Segments {
    ghost use Rattle.std.specs.Prelude.{List};
    ghost use Rattle.block_device.specs.declared.segments.WriteZeroesSegment.{WriteZeroesSegment};

    ghost Value = { List WriteZeroesSegment };

    ghost view = { λ s. s.list.items };
}

impl Segments {
    /// Those in the `len` bytes behind the header of a chain, which are read into `bytes`.
    fn read<A: Allocator>(
        mem: &GuestMemory<A>,
        chain: &Chain,
        len: u64,
        bytes: &mut [u8; MOST_SEGMENT_BYTES],
    ) -> Segments
        requires inside { All (Within mem.now) chain.now }
        requires payload { length (payload_of (readable_of mem.now chain.now)) ≡ len }
        requires some { 0 < len }
        requires few { len ≤ segment_len * max_write_zeroes_seg }
        ensures { result ≡ segments_in (payload_of (readable_of mem.now chain.now)) }
    {
        let payload = &mut bytes[..len as usize];
        chain.read_at(mem, HEADER_LEN, payload);
        Segments::of(payload)
    }

    /// Those in these bytes.
    pub fn of(payload: &[u8]) -> Segments
        requires few { length payload.now ≤ segment_len * max_write_zeroes_seg }
        ensures { result ≡ segments_in payload.now }
    {
        let mut list = ArrayVec::new();
        for index in 0..payload.len() / SEGMENT_LEN {
            list.push(WriteZeroesSegment::of(payload, index));
        }
        Segments { list }
    }

    /// The segments, in order.
    pub fn as_slice(&self) -> &[WriteZeroesSegment]
        ensures { result.now ≡ self.now }
    {
        self.list.as_slice()
    }

    /// Whether no segment has a flag but `unmap`.
    fn have_known_flags(&self) -> bool
        ensures { result ≡ list_all has_known_flags self.now }
    {
        self.as_slice()
            .iter()
            .all(|segment| segment.has_known_flags())
    }

    /// Whether the sectors of each are few enough, and on a disk of `capacity`.
    fn have_sectors_within(&self, capacity: u64) -> bool
        ensures { result ≡ list_all (has_sectors_within capacity) self.now }
    {
        self.as_slice()
            .iter()
            .all(|segment| segment.has_sectors_within(capacity))
    }

    /// Puts the bytes of a disk of `capacity` that they name in the place of what `runs` has.
    pub fn tell(&self, capacity: u64, runs: &mut Runs)
        requires disk { sector_len * capacity < 2 ^ 64 }
        requires sectors { list_all (has_sectors_within capacity) self.now ≡ true }
        requires few { length self.now ≤ max_write_zeroes_seg }
        ensures { runs.new ≡ disk_runs self.now }
    {
        runs.clear();
        let list = self.as_slice();
        for segment in list {
            if segment.count > 0 {
                runs.push(segment.run());
            }
        }
    }
}

impl BlockDevice {
    /// The segments of a WRITE_ZEROES whose data has `len` bytes, or the status by which it is rejected. No other call
    /// reads them.
    #[inline(never)]
    pub(crate) fn judged_segments<A: Allocator>(
        &self,
        mem: &GuestMemory<A>,
        chain: &Chain,
        len: u64,
    ) -> Result<Segments, RequestStatus>
        requires inside { All (Within mem.now) chain.now }
        requires payload { length (payload_of (readable_of mem.now chain.now)) ≡ len }
        ensures ok { IfOk result (AreJudged self.now (payload_of (readable_of mem.now chain.now))) }
        ensures err { IfErr result (λ status.
            write_zeroes_request_of self.now (payload_of (readable_of mem.now chain.now)) ≡ Rejected status) }
    {
        if self.read_only || !are_segments(len) {
            return Err(RequestStatus::IoError);
        }
        let mut bytes = [0; MOST_SEGMENT_BYTES];
        self.judged(Segments::read(mem, chain, len, &mut bytes))
    }

    /// The same segments, or the status by which their request is rejected. All flags are judged before all sectors.
    pub fn judged(&self, segments: Segments) -> Result<Segments, RequestStatus>
        ensures ok { IfOk result (λ judged. (payload : List ℕ) → AreRead self.now payload segments →
            AreJudged self.now payload judged) }
        ensures err { IfErr result (λ status. (payload : List ℕ) → AreRead self.now payload segments →
            write_zeroes_request_of self.now payload ≡ Rejected status) }
    {
        if !segments.have_known_flags() {
            return Err(RequestStatus::Unsupported);
        }
        if !segments.have_sectors_within(self.extent.count) {
            return Err(RequestStatus::IoError);
        }
        Ok(segments)
    }
}
