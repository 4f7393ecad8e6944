//! One region of the memory: the words, and the words of a range.

ghost use Rattle.std.specs.Prelude.{◌≡◌, ◌+◌, ◌*◌, ◌^◌, ◌≤◌, ◌<◌, length, IsTrue};
ghost use Rattle.racing_memory.specs.Words.{reaches};

use crate::word::{WORD_LEN, copy_of, number_of, split_number, store_in_word, word_at};
use std::marker::Model;
use std::sync::atomic::AtomicU64;

/// One region of a guest's memory, which the guest may write at any moment. Whoever else has the words changes them by single
/// atomic steps, too.
#[derive(Drop)]
pub struct RacingRegion<'w> {
    base: u64,
    words: &'w [AtomicU64],
}

impl<'w> Model for RacingRegion<'w> {
    ghost use Rattle.std.specs.Prelude.{◌+◌, ◌*◌, ◌^◌, ◌≤◌, length};
    ghost use Rattle.guest_memory.specs.declared.spec.RegionSpec.{RegionSpec};
    ghost use Rattle.racing_memory.specs.Words.{IsOfWords, spec_of_words};

    ghost Value = { RegionSpec };

    ghost view = { λ r. spec_of_words r.base (length r.words.now) };

    ghost invariant = { λ r. IsOfWords r.base (length r.words.now) };
}

impl<'w> RacingRegion<'w> {
    /// These words, from an address on.
    pub fn new(base: u64, words: &'w [AtomicU64]) -> RacingRegion<'w>
        requires few { 8 * length words.now ≤ 2 ^ 46 }
        requires fits { base + 8 * length words.now ≤ 2 ^ 64 }
        ensures base { result.base ≡ base }
        ensures len { result.len ≡ 8 * length words.now }
    {
        RacingRegion { base, words }
    }

    /// Its first address.
    #[inline(always)]
    pub(crate) fn base(&self) -> u64
        ensures { result ≡ self.now.base }
    {
        self.base
    }

    /// It ends at 2^64 at most.
    pub fn fits(&self)
        ensures { self.now.base + self.now.len ≤ 2 ^ 64 }
    {
        let _ = &self.words;
    }

    // How many bytes it has.
    fn len(&self) -> u64
        ensures { result ≡ self.now.len }
    {
        (self.words.len() * WORD_LEN) as u64
    }

    /// Whether `addr` lies in the region, or is its end.
    pub(crate) fn touches(&self, addr: u64) -> bool
        ensures { result ≡ reaches addr self.now }
    {
        addr >= self.base && addr - self.base <= self.len()
    }

    /// The number of its bytes from `addr` on.
    pub(crate) fn room_behind(&self, addr: u64) -> u64
        requires { IsTrue (reaches addr self.now) }
        ensures value { addr + result ≡ self.now.base + self.now.len }
        ensures fits { self.now.base + self.now.len ≤ 2 ^ 64 }
    {
        self.len() - (addr - self.base)
    }

    /// The bytes from an address on, whatever stands there. Bytes of one word are those of one step. The words are read from the
    /// last to the first: a driver stores the flags of a packed descriptor last, in its last word, so what it stored before them
    /// is read after them (2.8.6, 2.8.13). Bytes of one word, and two whole words, as a descriptor, go a short way.
    #[inline(always)]
    pub(crate) fn copy_out(&self, addr: u64, into: &mut [u8])
        requires above { self.now.base ≤ addr }
        requires below { addr + length into.old ≤ self.now.base + self.now.len }
    {
        let from = (addr - self.base) as usize;
        let first = from % WORD_LEN;
        if !into.is_empty() && first + into.len() <= WORD_LEN {
            copy_of(word_at(self.words, from), first, into);
        } else if first == 0 && into.len() == 2 * WORD_LEN {
            copy_of(
                word_at(self.words, from + WORD_LEN),
                0,
                &mut into[WORD_LEN..],
            );
            copy_of(word_at(self.words, from), 0, &mut into[..WORD_LEN]);
        } else {
            self.copy_words(from, into);
        }
    }

    // The bytes from a place on, word by word.
    #[inline(never)]
    fn copy_words(&self, from: usize, into: &mut [u8])
        requires { from + length into.old ≤ self.now.len }
    {
        let mut left = into.len();
        while left > 0 {
            let end = from + left;
            let len = ((end - 1) % WORD_LEN + 1).min(left);
            let word = word_at(self.words, end - 1);
            copy_of(word, (end - len) % WORD_LEN, &mut into[left - len..left]);
            left -= len;
        }
    }

    /// The two bytes from an address on, whatever stands there: the same of two.
    #[inline(always)]
    pub(crate) fn two_at(&self, addr: u64) -> [u8; 2]
        requires above { self.now.base ≤ addr }
        requires below { addr + 2 ≤ self.now.base + self.now.len }
    {
        let place = (addr - self.base) as usize;
        let from = place % WORD_LEN;
        if from < WORD_LEN - 1 {
            let word = word_at(self.words, place) >> (8 * from);
            return ((word & 0xffff) as u16).to_le_bytes();
        }
        let mut bytes = [0; 2];
        self.copy_words(place, &mut bytes);
        bytes
    }

    /// Stores a number in the `len` bytes from an address on. Those of one word change in one step, and no other byte does.
    #[inline(always)]
    pub(crate) fn store(&self, addr: u64, len: usize, v: u64)
        requires above { self.now.base ≤ addr }
        requires below { addr + len ≤ self.now.base + self.now.len }
        requires some { 0 < len }
        requires most { len ≤ 8 }
        requires number { v < 2 ^ (8 * len) }
    {
        let place = (addr - self.base) as usize;
        let room = WORD_LEN - place % WORD_LEN;
        if len <= room {
            store_in_word(self.words, place, len, v);
            return;
        }
        let (low, high) = split_number(v, room);
        store_in_word(self.words, place, room, low);
        store_in_word(self.words, place + room, len - room, high);
    }

    /// Stores bytes from an address on, word by word. Those of one word change in one step, and no other byte does.
    #[inline(never)]
    pub(crate) fn store_row(&self, addr: u64, bytes: &[u8])
        requires above { self.now.base ≤ addr }
        requires below { addr + length bytes.now ≤ self.now.base + self.now.len }
    {
        let first = (addr - self.base) as usize;
        let mut done = 0;
        while done < bytes.len() {
            let place = first + done;
            let len = (WORD_LEN - place % WORD_LEN).min(bytes.len() - done);
            store_in_word(self.words, place, len, number_of(&bytes[done..done + len]));
            done += len;
        }
    }
}
