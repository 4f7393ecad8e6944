//! One descriptor, read from guest memory in the layout of its queue.

ghost use Rattle.std.specs.Prelude.{◌≡◌, ◌+◌, ◌≤◌, length};
ghost use Rattle.guest_memory.specs.Memory.{Inside, num};
ghost use Rattle.indirect.specs.Descriptors.{StandsIn, packed_buffer};

use byteorder::{ByteOrder, LittleEndian};
use chain::{Buffer, Segment};
use guest_memory::GuestMemory;
use std::alloc::Allocator;

/// The descriptor goes on in a next one (VIRTQ_DESC_F_NEXT, 2.7.5).
pub const NEXT: u16 = 1;

/// The device writes the descriptor's buffer (VIRTQ_DESC_F_WRITE).
pub const WRITE: u16 = 2;

/// The descriptor's buffer is a table of descriptors (VIRTQ_DESC_F_INDIRECT).
pub const INDIRECT: u16 = 4;

/// A descriptor: its buffer, which is a table where `indirect` is set, and the index of the next one.
#[derive(Clone, Copy, Debug, PartialEq, Eq)]
pub struct Descriptor {
    pub buffer: Buffer,
    pub indirect: bool,
    pub next: Option<u16>,
}

/// A descriptor in the packed layout: its buffer, which is a table where its flags say so, its buffer id and its flags.
#[derive(Clone, Copy, Debug, PartialEq, Eq)]
pub struct PackedDescriptor {
    pub buffer: Buffer,
    pub id: u16,
    pub flags: u16,
}

/// The fields of a descriptor, in the order of both layouts. The last two are flags and next of a split one, id and flags
/// of a packed one.
#[derive(Clone, Copy)]
struct Fields {
    segment: Segment,
    third: u16,
    last: u16,
}

impl Fields {
    /// The fields that stand in the 16 bytes from the `at`-th on.
    #[inline(always)]
    fn of(bytes: &[u8], at: usize) -> Fields
        requires { at + 16 ≤ length bytes.now }
        ensures addr { StandsIn bytes.now at (λ m a. result.segment.addr ≡ num m a 8) }
        ensures len { StandsIn bytes.now at (λ m a. result.segment.len ≡ num m (a + 8) 4) }
        ensures third { StandsIn bytes.now at (λ m a. result.third ≡ num m (a + 12) 2) }
        ensures last { StandsIn bytes.now at (λ m a. result.last ≡ num m (a + 14) 2) }
    {
        Fields {
            segment: Segment {
                addr: LittleEndian::read_u64(&bytes[at..]),
                len: LittleEndian::read_u32(&bytes[at + 8..]),
            },
            third: LittleEndian::read_u16(&bytes[at + 12..]),
            last: LittleEndian::read_u16(&bytes[at + 14..]),
        }
    }
}

impl PackedDescriptor {
    ghost use Rattle.guest_memory.specs.Memory.{num};

    /// The descriptor in the packed layout whose 16 bytes stand at `addr` (2.8.13).
    #[inline(always)]
    pub fn read<A: Allocator>(mem: &GuestMemory<A>, addr: u64) -> PackedDescriptor
        requires { Inside mem.now addr 16 }
        ensures buffer { result.buffer ≡ packed_buffer mem.now addr }
        ensures id { result.id ≡ num mem.now (addr + 12) 2 }
        ensures flags { result.flags ≡ num mem.now (addr + 14) 2 }
    {
        PackedDescriptor::of(mem.slice(addr, 16), 0)
    }

    /// The same of 16 bytes that memory lent, from the `at`-th on.
    #[inline(always)]
    pub fn of(bytes: &[u8], at: usize) -> PackedDescriptor
        requires { at + 16 ≤ length bytes.now }
        ensures buffer { StandsIn bytes.now at (λ m a. result.buffer ≡ packed_buffer m a) }
        ensures id { StandsIn bytes.now at (λ m a. result.id ≡ num m (a + 12) 2) }
        ensures flags { StandsIn bytes.now at (λ m a. result.flags ≡ num m (a + 14) 2) }
    {
        let fields = Fields::of(bytes, at);
        PackedDescriptor {
            buffer: Buffer {
                segment: fields.segment,
                writable: fields.last & WRITE != 0,
            },
            id: fields.third,
            flags: fields.last,
        }
    }
}

impl Descriptor {
    ghost use Rattle.indirect.specs.Descriptors.{descriptor_of, split_descriptor};

    /// The descriptor in the split layout whose 16 bytes stand at `addr` (2.7.5).
    #[inline(always)]
    pub fn read_split<A: Allocator>(mem: &GuestMemory<A>, addr: u64) -> Descriptor
        requires { Inside mem.now addr 16 }
        ensures { result ≡ split_descriptor mem.now addr }
    {
        Descriptor::of_split(mem.slice(addr, 16), 0)
    }

    /// The same of 16 bytes that memory lent, from the `at`-th on.
    #[inline(always)]
    pub fn of_split(bytes: &[u8], at: usize) -> Descriptor
        requires { at + 16 ≤ length bytes.now }
        ensures { StandsIn bytes.now at (λ m a. result ≡ split_descriptor m a) }
    {
        let fields = Fields::of(bytes, at);
        Descriptor::of_fields(fields.segment, fields.third, fields.last)
    }

    /// The descriptor of these fields: where its flags have NEXT, it goes on at `next`.
    #[inline(always)]
    pub fn of_fields(segment: Segment, flags: u16, next: u16) -> Descriptor
        ensures { result ≡ descriptor_of segment.addr segment.len flags next }
    {
        Descriptor {
            buffer: Buffer {
                segment,
                writable: flags & WRITE != 0,
            },
            indirect: flags & INDIRECT != 0,
            next: if flags & NEXT != 0 { Some(next) } else { None },
        }
    }
}
