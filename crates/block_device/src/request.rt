//! One request as its driver wrote it (5.2.6): its header's type is looked up, and everything that can be refused
//! without the image is refused here.

ghost use Rattle.std.specs.Prelude.{◌≡◌, ◌≤◌, ℕ, List, false, length, All};
ghost use Rattle.chain.specs.Buffers.{Within};
ghost use Rattle.chain.specs.Bytes.{readable_of};
ghost use Rattle.block_device.specs.Asking.{HasHeader, IsHeaded, has_segments};
ghost use Rattle.block_device.specs.Progress.{IsServable};
ghost use Rattle.block_device.specs.Request.{are_sectors, code_of, in_request_of, is_io_error, out_request_of, payload_of, request_of, write_zeroes_request_of};

use crate::device::BlockDevice;
use crate::header::{HEADER_LEN, Header};
use chain::Chain;
use guest_memory::GuestMemory;
use std::alloc::Allocator;

/// The bytes of a sector.
pub(crate) const SECTOR_LEN: u64 = sector_cache::SECTOR_LEN as u64;

/// The bytes that name the device.
pub(crate) const ID_LEN: u64 = 20;

/// VIRTIO_BLK_T_IN: sectors are read.
const TYPE_IN: u32 = 0;

/// VIRTIO_BLK_T_OUT: sectors are written.
const TYPE_OUT: u32 = 1;

/// VIRTIO_BLK_T_FLUSH: what was written is handed to the medium.
const TYPE_FLUSH: u32 = 4;

/// VIRTIO_BLK_T_GET_ID: the device is named.
const TYPE_GET_ID: u32 = 8;

/// VIRTIO_BLK_T_WRITE_ZEROES: sectors are zeroed.
const TYPE_WRITE_ZEROES: u32 = 13;

/// The byte that ends a request, with the standard's codes.
#[derive(Clone, Copy, Debug, PartialEq, Eq)]
pub enum RequestStatus {
    /// VIRTIO_BLK_S_OK.
    Success = 0,
    /// VIRTIO_BLK_S_IOERR.
    IoError = 1,
    /// VIRTIO_BLK_S_UNSUPP.
    Unsupported = 2,
}

impl RequestStatus {
    /// The byte that the driver reads.
    pub fn code(self) -> u8
        ensures { result ≡ code_of self }
    {
        match self {
            RequestStatus::Success => 0,
            RequestStatus::IoError => 1,
            RequestStatus::Unsupported => 2,
        }
    }

    /// Whether a request that asked the image for something ended by a call that failed.
    #[inline]
    pub(crate) fn is_io_error(self) -> bool
        ensures { result ≡ is_io_error self }
    {
        matches!(self, RequestStatus::IoError)
    }
}

/// What a driver asks for, once all is checked that the image isn't needed for.
#[derive(Clone, Copy, Debug, PartialEq, Eq)]
pub enum Request {
    /// It can't be served, and this is why.
    Rejected(RequestStatus),
    /// `count` sectors from `sector` on are read, counted from the extent's start.
    Read { sector: u64, count: u64 },
    /// `count` sectors from `sector` on are written.
    Write { sector: u64, count: u64 },
    Flush,
    GetId,
    /// The sectors of that many segments are zeroed, which lie behind the header.
    WriteZeroes { segments: u64 },
}

/// A request as far as a header and a chain's lengths tell it.
#[derive(Clone, Copy)]
pub enum Headed {
    /// All of it is known. It has no segments.
    Known(Request),
    /// A WRITE_ZEROES with so many bytes of segments, which aren't read yet.
    Zeroes(u64),
}

impl BlockDevice {
    /// Whether `len` bytes are whole sectors, which from `sector` on all lie in the extent.
    fn has_sectors(&self, sector: u64, len: u64) -> bool
        ensures { result ≡ are_sectors self.now.extent.count sector len }
    {
        let capacity = self.extent.count;
        len % SECTOR_LEN == 0 && sector <= capacity && len / SECTOR_LEN <= capacity - sector
    }

    /// IN of `room` bytes.
    fn in_request(&self, sector: u64, room: u64) -> Request
        ensures value { result ≡ in_request_of self.now sector room }
        ensures plain { has_segments result ≡ false }
        ensures servable { (payload : List ℕ) → IsServable self.now.extent.count result payload room }
    {
        if self.has_sectors(sector, room) {
            Request::Read {
                sector,
                count: room / SECTOR_LEN,
            }
        } else {
            Request::Rejected(RequestStatus::IoError)
        }
    }

    /// OUT of `len` bytes.
    fn out_request(&self, sector: u64, len: u64) -> Request
        ensures value { result ≡ out_request_of self.now sector len }
        ensures plain { has_segments result ≡ false }
        ensures servable { (payload : List ℕ) (room : ℕ) → length payload ≡ len
            → IsServable self.now.extent.count result payload room }
    {
        if !self.read_only && self.has_sectors(sector, len) {
            Request::Write {
                sector,
                count: len / SECTOR_LEN,
            }
        } else {
            Request::Rejected(RequestStatus::IoError)
        }
    }

    /// The request that a chain holds, with `room` writable bytes before the status.
    pub fn request<A: Allocator>(&self, mem: &GuestMemory<A>, chain: &Chain, room: u64) -> Request
        requires { All (Within mem.now) chain.now }
        ensures value { result ≡ request_of self.now (readable_of mem.now chain.now) room }
        ensures servable { IsServable self.now.extent.count result
            (payload_of (readable_of mem.now chain.now)) room }
    {
        match self.headed(mem, chain, room) {
            Headed::Known(request) => request,
            Headed::Zeroes(len) => self.write_zeroes_request(mem, chain, len),
        }
    }

    /// The same as far as the header tells it.
    #[inline(always)]
    pub(crate) fn headed<A: Allocator>(
        &self,
        mem: &GuestMemory<A>,
        chain: &Chain,
        room: u64,
    ) -> Headed
        requires { All (Within mem.now) chain.now }
        ensures { IsHeaded self.now (readable_of mem.now chain.now) room result }
    {
        let readable = chain.readable_len();
        if readable < HEADER_LEN {
            return Headed::Known(Request::Rejected(RequestStatus::IoError));
        }
        let header = Header::read(mem, chain);
        self.headed_by(header, readable, room)
    }

    /// The same of a chain with this header and so many readable bytes.
    #[inline(always)]
    pub fn headed_by(&self, header: Header, readable: u64, room: u64) -> Headed
        requires { 16 ≤ readable }
        ensures { (bytes : List ℕ) → HasHeader header.kind header.sector readable bytes →
            IsHeaded self.now bytes room result }
    {
        match header.kind {
            TYPE_IN => Headed::Known(self.in_request(header.sector, room)),
            TYPE_OUT => Headed::Known(self.out_request(header.sector, readable - HEADER_LEN)),
            TYPE_FLUSH => Headed::Known(Request::Flush),
            TYPE_GET_ID if room >= ID_LEN => Headed::Known(Request::GetId),
            TYPE_GET_ID => Headed::Known(Request::Rejected(RequestStatus::IoError)),
            TYPE_WRITE_ZEROES => Headed::Zeroes(readable - HEADER_LEN),
            _ => Headed::Known(Request::Rejected(RequestStatus::Unsupported)),
        }
    }

    /// WRITE_ZEROES of the segments in `len` bytes.
    fn write_zeroes_request<A: Allocator>(
        &self,
        mem: &GuestMemory<A>,
        chain: &Chain,
        len: u64,
    ) -> Request
        requires inside { All (Within mem.now) chain.now }
        requires payload { length (payload_of (readable_of mem.now chain.now)) ≡ len }
        ensures value { result ≡ write_zeroes_request_of self.now (payload_of (readable_of mem.now chain.now)) }
        ensures servable { (room : ℕ) → IsServable self.now.extent.count result
            (payload_of (readable_of mem.now chain.now)) room }
    {
        match self.judged_segments(mem, chain, len) {
            Ok(segments) => Request::WriteZeroes {
                segments: segments.as_slice().len() as u64,
            },
            Err(status) => Request::Rejected(status),
        }
    }
}
