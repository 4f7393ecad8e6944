//! Which pages of a guest's memory its devices write to, for a host that moves the guest while its CPUs run on.

ghost use Rattle.std.specs.Prelude.{◌≡◌, length};
ghost use Rattle.guest_memory.specs.Faults.{zeroed_regions};
ghost use Rattle.guest_memory.specs.Pages.{bits_of};

use crate::session::RacingSession;
use std::alloc::Allocator;
use std_alloc::vec::Lodged;

impl<A: Allocator> RacingSession<A> {
    /// How many addresses the guest's memory has from its first byte to its last, those in gaps included.
    pub fn memory_len(&self) -> u64
        ensures { result ≡ length (zeroed_regions self.now.regions).bytes }
    {
        self.memory.len()
    }

    /// Has the bits of the guest's pages kept in these bytes from now on: one for each page of 4096 bytes of its memory, from the
    /// first region's base on, the lowest of a byte first. Each store of its devices sets those of its pages, and nothing clears one.
    /// Of no bytes none are kept, and a page behind them isn't marked.
    pub fn keep_pages(&mut self, bits: Vec<u8, Lodged>)
        ensures { self.new ≡ record self.old { pages = bits_of bits.items } }
    {
        self.pages = bits;
    }
}
