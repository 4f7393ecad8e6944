//! A memory as whoever asks of ranges alone sees it: no byte of it is read.

ghost use Rattle.std.specs.Prelude.{◌≡◌, ◌+◌, ◌^◌, ◌≤◌, ◌↔◌, IsTrue};
ghost use Rattle.guest_memory.specs.Memory.{Memory, Inside, is_inside};

use crate::memory::GuestMemory;
use std::alloc::Allocator;

/// Memory that tells which ranges lie in it, whatever its bytes are and whoever writes them meanwhile.
pub trait Ranged {
    // the memory that the ranges are of
    ghost ranged: { Self → Memory };

    /// Whether the `n` bytes from `addr` on all lie in the memory, in one region. An empty range does where its address
    /// lies in a region, or at its end. Addresses don't wrap.
    fn holds(&self, addr: u64, n: u64) -> bool
        ensures inside { IsTrue result ↔ Inside (ranged self.now) addr n }
        ensures test { result ≡ is_inside (ranged self.now) addr n }
        ensures fits { IsTrue result → addr + n ≤ 2 ^ 64 };
}

impl<A: Allocator> Ranged for GuestMemory<A> {
    ghost ranged = { λ m. m };

    #[inline(always)]
    fn holds(&self, addr: u64, n: u64) -> bool {
        GuestMemory::holds(self, addr, n)
    }
}
