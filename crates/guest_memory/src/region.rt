//! One region of a guest's memory: bytes at consecutive addresses.

ghost use Rattle.std.specs.Prelude.{◌≡◌, ◌+◌, ◌-◌, ◌^◌, ◌≤◌, ◌↔◌, ◌⊎◌, length, take, drop, IsTrue, slice_index_or};
ghost use Rattle.guest_memory.specs.Regions.{end_of, touches, IsIn};
ghost use Rattle.guest_memory.specs.Faults.{spec_of};
ghost use Rattle.guest_memory.specs.Memory.{put_at};
ghost use Rattle.guest_memory.specs.Lending.{LendsRegion};
ghost use Rattle.std.specs.Borrow.{sem};

use crate::bytes::Bytes;
use crate::spec::RegionSpec;
use std::alloc::{Allocator, Global};
use std::marker::Model;
use std_alloc::vec::Lodged;

/// One region of a guest's memory.
#[derive(Drop)]
pub struct Region<A: Allocator = Global> {
    base: u64,
    bytes: Bytes<A>,
}

impl<A: Allocator> Model for Region<A> {
    ghost use Rattle.guest_memory.specs.Regions.{Region as Value_of, end_of};
    ghost use Rattle.guest_memory.specs.Bytes.{bytes_of};
    ghost use Rattle.std.specs.Prelude.{◌≤◌, ◌+◌, ◌^◌, length};

    ghost Value = { Value_of };

    ghost view = { λ r. record { base = r.base; bytes = bytes_of r.bytes } };

    ghost invariant = { λ r. r.base + length (bytes_of r.bytes) ≤ 2 ^ 64 };
}

impl<A: Allocator> Region<A> {
    /// These bytes, from address `base` on.
    pub fn new(base: u64, bytes: Vec<u8, A>) -> Region<A>
        requires { base + length bytes.items ≤ 2 ^ 64 }
        ensures base { result.base ≡ base }
        ensures bytes { result.bytes ≡ bytes.items }
    {
        Region {
            base,
            bytes: Bytes::Own(bytes),
        }
    }

    /// These bytes, which a host lends, from address `base` on.
    pub fn of_lent(base: u64, bytes: Vec<u8, Lodged>) -> Region<A>
        requires { base + length bytes.items ≤ 2 ^ 64 }
        ensures base { result.base ≡ base }
        ensures bytes { result.bytes ≡ bytes.items }
    {
        Region {
            base,
            bytes: Bytes::Lent(bytes),
        }
    }

    /// The address of the first byte.
    pub fn base(&self) -> u64
        ensures { result ≡ self.now.base }
    {
        self.base
    }

    /// The number of its bytes.
    pub fn len(&self) -> u64
        ensures value { result ≡ length self.now.bytes }
        ensures fits { self.now.base + length self.now.bytes ≤ 2 ^ 64 }
    {
        self.bytes.len() as u64
    }

    /// Where it is and how large.
    pub fn spec(&self) -> RegionSpec
        ensures { result ≡ spec_of self.now }
    {
        RegionSpec {
            base: self.base,
            len: self.len(),
        }
    }

    /// Whether `addr` lies in the region, or is its end.
    pub fn touches(&self, addr: u64) -> bool
        ensures { result ≡ touches addr self.now }
    {
        addr >= self.base && addr - self.base <= self.len()
    }

    /// The number of its bytes from `addr` on.
    pub fn room_behind(&self, addr: u64) -> u64
        requires { IsTrue (touches addr self.now) }
        ensures value { addr + result ≡ end_of self.now }
        ensures fits { end_of self.now ≤ 2 ^ 64 }
    {
        self.len() - (addr - self.base)
    }

    /// Whether the `n` bytes from `addr` on lie in the region.
    #[inline(always)]
    pub fn holds(&self, addr: u64, n: u64) -> bool
        ensures inside { IsTrue result ↔ IsIn self.now addr n }
        ensures fits { IsTrue result → addr + n ≤ 2 ^ 64 }
    {
        self.touches(addr) && n <= self.room_behind(addr)
    }

    /// The `n` bytes from `addr` on, which lie in the region.
    pub fn slice(&self, addr: u64, n: u64) -> &[u8]
        requires { IsIn self.now addr n }
        ensures value { result.now ≡ take n (drop (addr - self.now.base) self.now.bytes) }
        ensures len { length result.now ≡ n }
    {
        let from = (addr - self.base) as usize;
        self.bytes.slice(from, n as usize)
    }

    /// The `n` bytes from `addr` on, to be written.
    pub fn part_mut(&mut self, addr: u64, n: u64) -> &mut [u8]
        requires { IsIn self.old addr n }
        ensures* writes_back { sem 𝓛 (LendsRegion A.row A.Allocator self.entry addr result) }
        ensures value { result.now ≡ take n (drop (addr - self.old.base) self.old.bytes) }
        ensures len { length result.now ≡ n }
    {
        let from = (addr - self.base) as usize;
        self.bytes.slice_mut(from, n as usize)
    }
}
