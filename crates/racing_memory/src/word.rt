//! One word of the memory: the steps that touch it, and what of it a store changes.

ghost use Rattle.std.specs.Prelude.{◌≡◌, ◌+◌, ◌*◌, ◌/◌, ◌%◌, ◌^◌, ◌≤◌, ◌<◌, drop, length, take};
ghost use Rattle.byteorder.specs.Endian.{little_bytes};
ghost use Rattle.racing_memory.specs.Words.{IsChange};

use std::sync::atomic::{AtomicU64, Ordering};

/// The bytes of a word.
pub(crate) const WORD_LEN: usize = 8;

/// The word that a place lies in, as one step finds it.
#[inline(always)]
pub(crate) fn word_at(words: &[AtomicU64], place: usize) -> u64
    requires { place < 8 * length words.now }
{
    words[place / WORD_LEN].load(Ordering::SeqCst)
}

/// Copies the bytes of a word from one of its bytes on.
#[inline(always)]
pub(crate) fn copy_of(word: u64, from: usize, into: &mut [u8])
    requires { from + length into.old ≤ 8 }
    ensures { into.new ≡ take (length into.old) (drop from (little_bytes 8 word)) }
{
    let bytes = word.to_le_bytes();
    if into.len() == WORD_LEN {
        into.copy_from_slice(&bytes);
    } else {
        into.copy_from_slice(&bytes[from..from + into.len()]);
    }
}

/// Stores a number in `len` bytes from a place on, all of them in the word that it lies in, in one step. Where they have it
/// already, the step is the load that finds so.
#[inline(always)]
pub(crate) fn store_in_word(words: &[AtomicU64], place: usize, len: usize, v: u64)
    requires there { place < 8 * length words.now }
    requires within { place % 8 + len ≤ 8 }
    requires some { 0 < len }
    requires number { v < 2 ^ (8 * len) }
{
    let change = change_of(word_at(words, place), place % WORD_LEN, len, v);
    if change == 0 {
        return;
    }
    if len == WORD_LEN {
        words[place / WORD_LEN].store(v, Ordering::SeqCst);
    } else {
        words[place / WORD_LEN].fetch_xor(change, Ordering::SeqCst);
    }
}

/// What of a word changes where a number is stored in `len` of its bytes.
#[inline(always)]
fn change_of(word: u64, from: usize, len: usize, v: u64) -> u64
    requires some { 0 < len }
    requires within { from + len ≤ 8 }
    requires number { v < 2 ^ (8 * len) }
    ensures { IsChange word from len v result }
{
    let shift = 8 * from;
    let mask = u64::MAX >> (64 - 8 * len);
    (((word >> shift) & mask) ^ v) << shift
}

/// The number that up to eight bytes are, the lowest first.
#[inline(always)]
pub(crate) fn number_of(bytes: &[u8]) -> u64
    requires some { 0 < length bytes.now }
    requires most { length bytes.now ≤ 8 }
    ensures { result < 2 ^ (8 * length bytes.now) }
{
    let mut word = [0; WORD_LEN];
    word[..bytes.len()].copy_from_slice(bytes);
    u64::from_le_bytes(word) & (u64::MAX >> (64 - 8 * bytes.len()))
}

/// A number's first bytes, so many, and those behind them: the ones that go into a word, and those for the next one.
#[inline(always)]
pub(crate) fn split_number(v: u64, first: usize) -> (u64, u64)
    requires some { 0 < first }
    requires most { first < 8 }
    ensures first { result.0 ≡ v % 2 ^ (8 * first) }
    ensures behind { result.1 ≡ v / 2 ^ (8 * first) }
{
    (v & (u64::MAX >> (64 - 8 * first)), v >> (8 * first))
}
