//! The accesses.

ghost use Rattle.std.specs.Prelude.{◌≡◌, ◌+◌, ◌^◌, ◌≤◌, ◌↔◌, Bool, IfSome, IsNone, IsTrue, length, false};
ghost use Rattle.std.specs.List.{range_with_len};
ghost use Rattle.guest_memory.specs.Memory.{Inside, SameRange, num, part_of};
ghost use Rattle.shared_memory.specs.Bytes.{StoresEach};
ghost use Rattle.shared_memory.specs.Sightings.{Sightings, Loads, Stores, memory, still};

use guest_memory::GuestMemory;
use std::alloc::Allocator;

/// Memory that a device reads and writes, by copies.
pub trait Shared {
    // what it was seen as
    ghost sightings: { Self → Sightings };

    // whether the guest's own CPUs may write it at any moment
    ghost races: { Bool };

    /// Whether the `n` bytes from `addr` on all lie in the memory, in one region.
    fn holds(&self, addr: u64, n: u64) -> bool
        ensures inside { IsTrue result ↔ Inside (memory (sightings self.now)) addr n }
        ensures fits { IsTrue result → addr + n ≤ 2 ^ 64 };

    /// The `n` bytes from `addr` on, which lie in the memory, end at 2^64 at most.
    fn fits(&self, addr: u64, n: u64)
        requires { Inside (memory (sightings self.now)) addr n }
        ensures { addr + n ≤ 2 ^ 64 };

    /// The 16-bit number at `addr`.
    fn load_u16(&mut self, addr: u64) -> u16
        requires { Inside (memory (sightings self.old)) addr 2 }
        ensures value { result ≡ num (memory (sightings self.new)) addr 2 }
        ensures loads { Loads races (sightings self.old) (sightings self.new) };

    /// Copies the bytes from `addr` on into all of `into`.
    fn load(&mut self, addr: u64, into: &mut [u8])
        requires { Inside (memory (sightings self.old)) addr (length into.old) }
        ensures value { into.new ≡ part_of (memory (sightings self.new)) addr (length into.old) }
        ensures loads { Loads races (sightings self.old) (sightings self.new) };

    /// Stores a byte.
    fn store_u8(&mut self, addr: u64, v: u8)
        requires { Inside (memory (sightings self.old)) addr 1 }
        ensures stores { Stores races (sightings self.old) (sightings self.new) addr 1 v };

    /// Stores a 16-bit number.
    fn store_u16(&mut self, addr: u64, v: u16)
        requires { Inside (memory (sightings self.old)) addr 2 }
        ensures stores { Stores races (sightings self.old) (sightings self.new) addr 2 v };

    /// Stores a 32-bit number.
    fn store_u32(&mut self, addr: u64, v: u32)
        requires { Inside (memory (sightings self.old)) addr 4 }
        ensures stores { Stores races (sightings self.old) (sightings self.new) addr 4 v };

    /// Stores a 64-bit number.
    fn store_u64(&mut self, addr: u64, v: u64)
        requires { Inside (memory (sightings self.old)) addr 8 }
        ensures stores { Stores races (sightings self.old) (sightings self.new) addr 8 v };

    /// Stores bytes from `addr` on, one after another, each in a step of its own.
    fn store(&mut self, addr: u64, bytes: &[u8])
        requires { Inside (memory (sightings self.old)) addr (length bytes.now) }
        ensures stored { StoresEach races (sightings self.old) (sightings self.new)
            (range_with_len addr (length bytes.now)) bytes.now }
        ensures range { SameRange (memory (sightings self.old)) (memory (sightings self.new)) }
    {
        // So no address passes 2^64.
        self.fits(addr, bytes.len() as u64);
        for (index, byte) in bytes.iter().enumerate() {
            self.store_u8(addr + index as u64, *byte);
        }
    }

    /// The bytes from `addr` on, where they stand. A memory that others may write lends none: its bytes are copied.
    fn in_place(&self, addr: u64, n: u64) -> Option<&[u8]>
        requires { Inside (memory (sightings self.now)) addr n }
        ensures value { IfSome result (λ bytes. bytes.now ≡ part_of (memory (sightings self.now)) addr n) }
        ensures races { IsTrue races → IsNone result }
    {
        let _ = addr;
        let _ = n;
        None
    }
}

/// A guest that stands still during the calls of its devices.
impl<A: Allocator> Shared for GuestMemory<A> {
    ghost sightings = { λ m. still m };

    ghost races = { false };

    fn holds(&self, addr: u64, n: u64) -> bool {
        GuestMemory::holds(self, addr, n)
    }

    fn fits(&self, addr: u64, n: u64) {
        GuestMemory::fits(self, addr, n);
    }

    fn load_u16(&mut self, addr: u64) -> u16 {
        self.read_u16(addr)
    }

    fn load(&mut self, addr: u64, into: &mut [u8]) {
        into.copy_from_slice(self.slice(addr, into.len() as u64));
    }

    fn store_u8(&mut self, addr: u64, v: u8) {
        self.part_mut(addr, 1).copy_from_slice(&[v]);
    }

    fn store_u16(&mut self, addr: u64, v: u16) {
        self.write_u16(addr, v);
    }

    fn store_u32(&mut self, addr: u64, v: u32) {
        self.write_u32(addr, v);
    }

    fn store_u64(&mut self, addr: u64, v: u64) {
        self.write_u64(addr, v);
    }

    #[inline(always)]
    fn store(&mut self, addr: u64, bytes: &[u8]) {
        self.part_mut(addr, bytes.len() as u64)
            .copy_from_slice(bytes);
    }

    #[inline(always)]
    fn in_place(&self, addr: u64, n: u64) -> Option<&[u8]> {
        Some(self.slice(addr, n))
    }
}
