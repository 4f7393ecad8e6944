//! A guest's memory: its regions, and the words of each, which its host lends.

ghost use Rattle.std.specs.Prelude.{◌≡◌, ◌↔◌, ◌*◌, ℕ, List, [], IsTrue, Some, length, map, take};
ghost use Rattle.std.specs.List.{slice_get};
ghost use Rattle.std.specs.Vec.{vec_items};
ghost use Rattle.guest_memory.specs.Faults.{AreGood, zeroed_regions};
ghost use Rattle.guest_memory.specs.Pages.{bits_of};
ghost use Rattle.guest_memory.specs.declared.spec.RegionSpec.{RegionSpec};
ghost use Rattle.racing_session.specs.Judging.{AreWordsOf};

use guest_memory::{MOST_REGIONS, RegionSpec, Regions};
use racing_memory::{RacingMemory, RacingRegion, good_regions_make_a_memory};
use std::alloc::{Allocator, Global};
use std::marker::Model;
use std::sync::atomic::AtomicU64;
use std_alloc::vec::Lodged;

/// The bytes of a word.
const WORD_LEN: u64 = 8;

/// A guest's memory. No word is read or written here.
#[derive(Drop)]
pub(crate) struct LentMemory<A: Allocator = Global> {
    regions: Regions,
    words: Vec<Vec<AtomicU64, Lodged>, A>,
}

impl<A: Allocator> Model for LentMemory<A> {
    ghost use Rattle.std.specs.Prelude.{List, map};
    ghost use Rattle.std.specs.Vec.{vec_items};
    ghost use Rattle.guest_memory.specs.declared.spec.RegionSpec.{RegionSpec};
    ghost use Rattle.guest_memory.specs.Faults.{AreGood, zeroed_regions};
    ghost use Rattle.guest_memory.specs.Pages.{bits_of};
    ghost use Rattle.racing_session.specs.Judging.{AreWordsOf};

    ghost Value = { List RegionSpec };

    ghost view = { λ m. m.regions };

    ghost invariant = { λ m. AreGood m.regions × AreWordsOf m.regions (map vec_items m.words.items) };
}

impl<A: Allocator> LentMemory<A> {
    /// The memory of these regions over these words.
    pub(crate) fn new(regions: Regions, words: Vec<Vec<AtomicU64, Lodged>, A>) -> LentMemory<A>
        requires good { AreGood regions }
        requires words { AreWordsOf regions (map vec_items words.items) }
        ensures { result ≡ regions }
    {
        LentMemory { regions, words }
    }

    /// How many addresses it has from its first byte to its last, those in gaps included.
    pub(crate) fn len(&self) -> u64
        ensures { result ≡ length (zeroed_regions self.now).bytes }
    {
        let regions = self.regions.as_slice();
        let last = regions[regions.len() - 1];
        last.base - regions[0].base + last.len
    }

    /// Its regions, for one call. Behind the last one there are regions of no words.
    pub(crate) fn regions<'w>(&'w self) -> [RacingRegion<'w>; MOST_REGIONS]
        ensures { take (length self.now) result ≡ self.now }
    {
        let (regions, words) = (self.regions.as_slice(), self.words.as_slice());
        [
            region_at(regions, words, 0),
            region_at(regions, words, 1),
            region_at(regions, words, 2),
            region_at(regions, words, 3),
            region_at(regions, words, 4),
            region_at(regions, words, 5),
            region_at(regions, words, 6),
            region_at(regions, words, 7),
        ]
    }

    /// The memory of these regions, for one call, whatever stands there. The bits of its pages are kept in these bytes.
    pub(crate) fn over<'r, 'w>(
        &self,
        regions: &'r [RacingRegion<'w>],
        pages: Vec<u8, Lodged>,
    ) -> RacingMemory<'r, 'w>
        ghost stood: { List ℕ }
        requires { take (length self.now) regions.now ≡ self.now }
        ensures { result ≡ record {
          regions = self.now;
          stood = record { bytes = stood; pages = bits_of pages.items };
          past = [];
        } }
    {
        good_regions_make_a_memory();
        RacingMemory::with_pages(&regions[..self.words.len()], pages)
    }
}

/// The bytes with the bits of the pages, which the memory of a call has meanwhile.
pub(crate) fn lent(pages: &mut Vec<u8, Lodged>) -> Vec<u8, Lodged>
    ensures { result.items ≡ pages.old.items }
{
    std::mem::replace(pages, Vec::new(Lodged))
}

// The region at a place with its words, or one of no words where there is none.
fn region_at<'w>(
    regions: &[RegionSpec],
    words: &'w [Vec<AtomicU64, Lodged>],
    place: usize,
) -> RacingRegion<'w>
    requires good { AreGood regions.now }
    requires words { AreWordsOf regions.now (map vec_items words.now) }
    ensures { (region : RegionSpec) → slice_get regions.now place ≡ Some region → result ≡ region }
{
    if place >= regions.len() {
        return RacingRegion::new(0, &[]);
    }
    RacingRegion::new(regions[place].base, words[place].as_slice())
}

/// Whether there is a run of words for each region, as long as it is.
pub(crate) fn are_words_of(regions: &[RegionSpec], words: &[Vec<AtomicU64, Lodged>]) -> bool
    ensures { IsTrue result ↔ AreWordsOf regions.now (map vec_items words.now) }
{
    if words.len() != regions.len() {
        return false;
    }
    for place in 0..regions.len() {
        if !is_as_long(words[place].len(), regions[place].len) {
            return false;
        }
    }
    true
}

// Whether so many words have so many bytes.
fn is_as_long(words: usize, len: u64) -> bool
    ensures { IsTrue result ↔ (8 * words ≡ len) }
{
    len % WORD_LEN == 0 && words as u64 == len / WORD_LEN
}
