//! The memory, and its accesses.

ghost use Rattle.std.specs.Prelude.{◌≡◌, ℕ, List, [], ◌∷◌, ◌+◌, ◌*◌, ◌^◌, ◌≤◌, ◌<◌, length, slice_index_or, false, true};
ghost use Rattle.std.specs.List.{position};
ghost use Rattle.byteorder.specs.Endian.{little_bytes};
ghost use Rattle.guest_memory.specs.Memory.{Inside};
ghost use Rattle.guest_memory.specs.Pages.{bits_of, marked};
ghost use Rattle.shared_memory.specs.Sightings.{memory};
ghost use Rattle.racing_memory.specs.Past.{MakeMemory, Stood, newest, seen_again, sightings_of, stored_again};
ghost use Rattle.racing_memory.specs.Words.{reaches};

use crate::past::Past;
use crate::region::RacingRegion;
use byteorder::{ByteOrder, LittleEndian};
use guest_memory::mark_pages;
use shared_memory::Shared;
use std::marker::Model;
use std_alloc::vec::Lodged;

/// A guest's memory, which the guest may write at any moment: its regions, in ascending order and apart from each other.
#[derive(Drop)]
pub struct RacingMemory<'r, 'w> {
    regions: &'r [RacingRegion<'w>],
    // The bits of its pages, if these are kept.
    pages: Vec<u8, Lodged>,
    past: Past,
}

impl<'r, 'w> Model for RacingMemory<'r, 'w> {
    ghost use Rattle.std.specs.Prelude.{◌≡◌};
    ghost use Rattle.guest_memory.specs.Pages.{bits_of};
    ghost use Rattle.racing_memory.specs.Past.{MakeMemory, Seen, newest};

    ghost Value = { Seen };

    ghost view = { λ m. record { regions = m.regions.now; stood = m.past.noted.stood; past = m.past.noted.past } };

    ghost invariant = { λ m. MakeMemory m.regions.now
        × (bits_of m.pages.items ≡ (newest m.regions.now m.past.noted.stood m.past.noted.past).pages) };
}

/// The place of the region that holds address `addr`, or whose end it is.
fn place_of(regions: &[RacingRegion], addr: u64) -> Option<usize>
    ensures { result ≡ position (reaches addr) regions.now }
{
    regions.iter().position(|region| region.touches(addr))
}

impl<'r, 'w> RacingMemory<'r, 'w> {
    /// The memory of these regions, for a call of a device, whatever stands there. No bits of its pages are kept.
    pub fn over(regions: &'r [RacingRegion<'w>]) -> RacingMemory<'r, 'w>
        ghost stood: { List ℕ }
        requires { MakeMemory regions.now }
        ensures { result ≡ record {
          regions = regions.now;
          stood = record { bytes = stood; pages = [] };
          past = [];
        } }
    {
        RacingMemory::before(regions, Vec::new(Lodged))
    }

    /// The same, and the bits of its pages are kept in these bytes, from its first address on, the lowest bit of a byte first. A
    /// store sets those of its pages, and nothing clears one. Of no bytes none are kept.
    pub fn with_pages(
        regions: &'r [RacingRegion<'w>],
        pages: Vec<u8, Lodged>,
    ) -> RacingMemory<'r, 'w>
        ghost stood: { List ℕ }
        requires { MakeMemory regions.now }
        ensures { result ≡ record {
          regions = regions.now;
          stood = record { bytes = stood; pages = bits_of pages.items };
          past = [];
        } }
    {
        RacingMemory::before(regions, pages)
    }

    // The same, with what stood there before the first access.
    fn before(regions: &'r [RacingRegion<'w>], pages: Vec<u8, Lodged>) -> RacingMemory<'r, 'w>
        ghost stood: { Stood }
        requires regions { MakeMemory regions.now }
        requires pages { bits_of pages.items ≡ stood.pages }
        ensures { result ≡ record { regions = regions.now; stood = stood; past = [] } }
    {
        RacingMemory {
            regions,
            pages,
            past: Past::new(),
        }
    }

    /// The memory of this one region, of which no bits are kept.
    pub fn over_one(region: &'r RacingRegion<'w>) -> RacingMemory<'r, 'w>
        ensures regions { result.regions ≡ region.now ∷ [] }
        ensures past { result.past ≡ [] }
    {
        region.fits();
        RacingMemory::over(std::slice::from_ref(region))
    }

    /// The bytes with the bits of its pages.
    pub fn into_pages(self) -> Vec<u8, Lodged>
        ensures { bits_of result.items ≡ (memory (sightings_of self.entry)).pages }
    {
        let RacingMemory {
            regions: _,
            pages,
            past: _,
        } = self;
        pages
    }

    // The place of the region that holds the `n` bytes from `addr` on.
    fn place_inside(&self, addr: u64, n: u64) -> usize
        requires { Inside (newest self.now.regions self.now.stood self.now.past) addr n }
        ensures place { result < length self.now.regions }
        ensures above { (d : _) → (slice_index_or self.now.regions result d).base ≤ addr }
        ensures below { (d : _) → addr + n ≤ (slice_index_or self.now.regions result d).base
            + (slice_index_or self.now.regions result d).len }
    {
        if self.regions.len() == 1 {
            return 0;
        }
        place_of(self.regions, addr).unwrap_or(0)
    }

    // These bytes were found from an address on.
    #[inline(always)]
    fn found(&mut self, addr: u64, bytes: &[u8])
        ensures { self.new ≡ seen_again false self.old addr bytes.now }
    {
        self.past.note(addr, bytes);
    }

    // These bytes were stored from an address on: their pages are marked.
    #[inline(always)]
    fn stored(&mut self, addr: u64, bytes: &[u8])
        requires { Inside (newest self.old.regions self.old.stood self.old.past) addr (length bytes.now) }
        ensures { self.new ≡ seen_again true self.old addr bytes.now }
    {
        let base = self.regions[0].base();
        mark(&mut self.pages, addr - base, bytes.len() as u64);
        self.past.note(addr, bytes);
    }

    // These bytes were stored from an address on, one after another: their pages are marked.
    #[inline(always)]
    fn stored_each(&mut self, addr: u64, bytes: &[u8])
        requires { Inside (newest self.old.regions self.old.stood self.old.past) addr (length bytes.now) }
        ensures { self.new ≡ stored_again self.old addr bytes.now }
    {
        let base = self.regions[0].base();
        let n = bytes.len() as u64;
        mark(&mut self.pages, addr - base, n);
        self.past.note_each(addr, bytes);
    }

    // Stores a number in the `len` bytes from an address on.
    #[inline(always)]
    fn put(&mut self, addr: u64, len: usize, v: u64)
        requires inside { Inside (newest self.old.regions self.old.stood self.old.past) addr len }
        requires some { 0 < len }
        requires most { len ≤ 8 }
        requires number { v < 2 ^ (8 * len) }
        ensures { self.new ≡ seen_again true self.old addr (little_bytes len v) }
    {
        let place = self.place_inside(addr, len as u64);
        self.regions[place].store(addr, len, v);
        self.stored(addr, &v.to_le_bytes()[..len]);
    }
}

// Marks the pages of the `n` bytes from a place on, where bits are kept.
#[inline(always)]
fn mark(pages: &mut Vec<u8, Lodged>, from: u64, n: u64)
    requires { from + n ≤ 2 ^ 64 }
    ensures { bits_of pages.new.items ≡ marked 0 from n (bits_of pages.old.items) }
{
    if !pages.is_empty() {
        mark_pages(pages.as_mut_slice(), from, n);
    }
}

impl<'r, 'w> Shared for RacingMemory<'r, 'w> {
    ghost use Rattle.std.specs.Prelude.{true};
    ghost use Rattle.racing_memory.specs.Past.{sightings_of};

    ghost sightings = { λ m. sightings_of m };

    ghost races = { true };

    fn holds(&self, addr: u64, n: u64) -> bool {
        match place_of(self.regions, addr) {
            Some(place) => n <= self.regions[place].room_behind(addr),
            None => false,
        }
    }

    fn fits(&self, addr: u64, n: u64) {
        let _ = &self.regions;
    }

    fn load_u16(&mut self, addr: u64) -> u16 {
        let place = self.place_inside(addr, 2);
        let bytes = self.regions[place].two_at(addr);
        self.found(addr, &bytes);
        LittleEndian::read_u16(&bytes)
    }

    #[inline(always)]
    fn load(&mut self, addr: u64, into: &mut [u8]) {
        let place = self.place_inside(addr, into.len() as u64);
        self.regions[place].copy_out(addr, into);
        self.found(addr, into);
    }

    #[tactic(auto, using(crate::proofs::Seeing::stores_noted))]
    #[inline(always)]
    fn store_u8(&mut self, addr: u64, v: u8) {
        self.put(addr, 1, u64::from(v));
    }

    #[tactic(auto, using(crate::proofs::Seeing::stores_noted))]
    #[inline(always)]
    fn store_u16(&mut self, addr: u64, v: u16) {
        self.put(addr, 2, u64::from(v));
    }

    #[tactic(auto, using(crate::proofs::Seeing::stores_noted))]
    #[inline(always)]
    fn store_u32(&mut self, addr: u64, v: u32) {
        self.put(addr, 4, u64::from(v));
    }

    #[tactic(auto, using(crate::proofs::Seeing::stores_noted))]
    #[inline(always)]
    fn store_u64(&mut self, addr: u64, v: u64) {
        self.put(addr, 8, v);
    }

    fn store(&mut self, addr: u64, bytes: &[u8]) {
        let place = self.place_inside(addr, bytes.len() as u64);
        self.regions[place].store_row(addr, bytes);
        self.stored_each(addr, bytes);
    }
}
