//! The header that each request begins with (5.2.6). Its fields are read once.

ghost use Rattle.std.specs.Prelude.{◌≡◌, ◌≤◌, length, drop, All};
ghost use Rattle.byteorder.specs.Endian.{little_number};
ghost use Rattle.chain.specs.Buffers.{Within};
ghost use Rattle.chain.specs.Bytes.{readable_of};
ghost use Rattle.block_device.specs.Request.{sector_in, type_of};

use byteorder::{ByteOrder, LittleEndian};
use chain::Chain;
use guest_memory::GuestMemory;
use std::alloc::Allocator;

/// The bytes of a request's header: type, reserved, sector.
pub const HEADER_LEN: u64 = 16;

/// The fields of a request's header.
#[derive(Clone, Copy)]
pub struct Header {
    pub kind: u32,
    pub sector: u64,
}

impl Header {
    /// Those in the first bytes of a chain, where they lie in memory where that is one segment.
    #[inline(always)]
    pub(crate) fn read<A: Allocator>(mem: &GuestMemory<A>, chain: &Chain) -> Header
        requires inside { All (Within mem.now) chain.now }
        requires there { 16 ≤ length (readable_of mem.now chain.now) }
        ensures kind { result.kind ≡ type_of (readable_of mem.now chain.now) }
        ensures sector { result.sector ≡ sector_in (readable_of mem.now chain.now) }
    {
        match chain.read_part(mem, 0).first_chunk() {
            Some(bytes) => Header::of(bytes),
            None => Header::gathered(mem, chain),
        }
    }

    /// The same of a header that lies in more than one segment.
    #[inline(never)]
    fn gathered<A: Allocator>(mem: &GuestMemory<A>, chain: &Chain) -> Header
        requires inside { All (Within mem.now) chain.now }
        requires there { 16 ≤ length (readable_of mem.now chain.now) }
        ensures kind { result.kind ≡ type_of (readable_of mem.now chain.now) }
        ensures sector { result.sector ≡ sector_in (readable_of mem.now chain.now) }
    {
        let mut bytes = [0; HEADER_LEN as usize];
        chain.read_at(mem, 0, &mut bytes);
        Header::of(&bytes)
    }

    /// Those of a header with these bytes.
    #[inline(always)]
    pub fn of(bytes: &[u8; HEADER_LEN as usize]) -> Header
        ensures kind { result.kind ≡ little_number 4 bytes.now }
        ensures sector { result.sector ≡ little_number 8 (drop 8 bytes.now) }
    {
        Header {
            kind: LittleEndian::read_u32(bytes),
            sector: LittleEndian::read_u64(&bytes[8..]),
        }
    }
}
