//! Little-endian numbers in guest memory (1.4), as descriptors and rings keep them.
//!
//! A `get` or a `put` is the test itself: it answers `None` or `false` where a byte of the number lies
//! beside the memory. A `read` or a `write` is for a caller that knows the range already, as a virtqueue
//! knows its areas.

ghost use Rattle.std.specs.Prelude.{◌≡◌, ◌+◌, ◌^◌, ◌≤◌, ◌↔◌, IsTrue, IsSome, IfSome};
ghost use Rattle.std.specs.Bool.{OnTrue, OnFalse};
ghost use Rattle.guest_memory.specs.Memory.{Inside, SameRange, num, put_num};

use crate::memory::GuestMemory;
use byteorder::{ByteOrder, LittleEndian};
use std::alloc::Allocator;

impl<A: Allocator> GuestMemory<A> {
    /// The 16-bit number at `addr`, whose two bytes lie in the memory.
    pub fn read_u16(&self, addr: u64) -> u16
        requires { Inside self.now addr 2 }
        ensures { result ≡ num self.now addr 2 }
    {
        LittleEndian::read_u16(self.slice(addr, 2))
    }

    /// The 32-bit number at `addr`, whose four bytes lie in the memory.
    pub fn read_u32(&self, addr: u64) -> u32
        requires { Inside self.now addr 4 }
        ensures { result ≡ num self.now addr 4 }
    {
        LittleEndian::read_u32(self.slice(addr, 4))
    }

    /// The 64-bit number at `addr`, whose eight bytes lie in the memory.
    pub fn read_u64(&self, addr: u64) -> u64
        requires { Inside self.now addr 8 }
        ensures { result ≡ num self.now addr 8 }
    {
        LittleEndian::read_u64(self.slice(addr, 8))
    }

    /// The 16-bit number at `addr`, where both its bytes lie in the memory.
    pub fn get_u16(&self, addr: u64) -> Option<u16>
        ensures inside { IsSome result ↔ Inside self.now addr 2 }
        ensures value { IfSome result (λ v. v ≡ num self.now addr 2) }
        ensures fits { IsSome result → addr + 2 ≤ 2 ^ 64 }
    {
        self.part(addr, 2).map(LittleEndian::read_u16)
    }

    /// The 32-bit number at `addr`, where all its bytes lie in the memory.
    pub fn get_u32(&self, addr: u64) -> Option<u32>
        ensures inside { IsSome result ↔ Inside self.now addr 4 }
        ensures value { IfSome result (λ v. v ≡ num self.now addr 4) }
        ensures fits { IsSome result → addr + 4 ≤ 2 ^ 64 }
    {
        self.part(addr, 4).map(LittleEndian::read_u32)
    }

    /// The 64-bit number at `addr`, where all its bytes lie in the memory.
    pub fn get_u64(&self, addr: u64) -> Option<u64>
        ensures inside { IsSome result ↔ Inside self.now addr 8 }
        ensures value { IfSome result (λ v. v ≡ num self.now addr 8) }
        ensures fits { IsSome result → addr + 8 ≤ 2 ^ 64 }
    {
        self.part(addr, 8).map(LittleEndian::read_u64)
    }

    /// Writes a 16-bit number at `addr`, where both bytes lie in the memory.
    #[inline(always)]
    pub fn write_u16(&mut self, addr: u64, v: u16)
        requires { Inside self.old addr 2 }
        ensures written { self.new ≡ put_num self.old addr 2 v }
        ensures range { SameRange self.old self.new }
    {
        LittleEndian::write_u16(self.part_mut(addr, 2), v);
    }

    /// Writes a 32-bit number at `addr`, where all four bytes lie in the memory.
    #[inline(always)]
    pub fn write_u32(&mut self, addr: u64, v: u32)
        requires { Inside self.old addr 4 }
        ensures written { self.new ≡ put_num self.old addr 4 v }
        ensures range { SameRange self.old self.new }
    {
        LittleEndian::write_u32(self.part_mut(addr, 4), v);
    }

    /// Writes a 64-bit number at `addr`, where all eight bytes lie in the memory.
    #[inline(always)]
    pub fn write_u64(&mut self, addr: u64, v: u64)
        requires { Inside self.old addr 8 }
        ensures written { self.new ≡ put_num self.old addr 8 v }
        ensures range { SameRange self.old self.new }
    {
        LittleEndian::write_u64(self.part_mut(addr, 8), v);
    }

    /// Writes a 16-bit number at `addr` where it lies in the memory, and answers whether it does.
    pub fn put_u16(&mut self, addr: u64, v: u16) -> bool
        ensures inside { IsTrue result ↔ Inside self.old addr 2 }
        ensures written { OnTrue result (self.new ≡ put_num self.old addr 2 v) }
        ensures refused { OnFalse result (self.new ≡ self.old) }
        ensures range { SameRange self.old self.new }
        ensures fits { IsTrue result → addr + 2 ≤ 2 ^ 64 }
    {
        let inside = self.holds(addr, 2);
        if inside {
            self.write_u16(addr, v);
        }
        inside
    }

    /// Writes a 32-bit number at `addr` where it lies in the memory, and answers whether it does.
    pub fn put_u32(&mut self, addr: u64, v: u32) -> bool
        ensures inside { IsTrue result ↔ Inside self.old addr 4 }
        ensures written { OnTrue result (self.new ≡ put_num self.old addr 4 v) }
        ensures refused { OnFalse result (self.new ≡ self.old) }
        ensures range { SameRange self.old self.new }
        ensures fits { IsTrue result → addr + 4 ≤ 2 ^ 64 }
    {
        let inside = self.holds(addr, 4);
        if inside {
            self.write_u32(addr, v);
        }
        inside
    }

    /// Writes a 64-bit number at `addr` where it lies in the memory, and answers whether it does.
    pub fn put_u64(&mut self, addr: u64, v: u64) -> bool
        ensures inside { IsTrue result ↔ Inside self.old addr 8 }
        ensures written { OnTrue result (self.new ≡ put_num self.old addr 8 v) }
        ensures refused { OnFalse result (self.new ≡ self.old) }
        ensures range { SameRange self.old self.new }
        ensures fits { IsTrue result → addr + 8 ≤ 2 ^ 64 }
    {
        let inside = self.holds(addr, 8);
        if inside {
            self.write_u64(addr, v);
        }
        inside
    }
}
