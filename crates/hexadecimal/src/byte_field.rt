//! Fields that spell bytes.

ghost use Rattle.std.specs.Prelude.{◌≡◌, ◌/◌, ◌<◌, ◌≤◌, ◌∷◌, [], ◌↔◌, ◌⊎◌, All, IsTrue, IfNone, IfSome, length, slice_index_or, take};
ghost use Rattle.hexadecimal.specs.Fields.{ArePairs, IsBytesField, IsDigit, SpellsBytes};

use crate::pairs::read_pairs;

/// How many bytes are judged at once at a field's front, behind it, and in a long field.
const SHORT_BLOCK: usize = 16;

const MIDDLE_BLOCK: usize = 32;

const LONG_BLOCK: usize = 64;

/// A field of so many digits is a long one.
const LONG_FIELD: usize = 4 * LONG_BLOCK;

/// How many digits stand at the front of a text.
pub fn digits_len(text: &[u8]) -> usize
    ensures within { result ≤ length text.now }
    ensures digits { All IsDigit (take result text.now) }
    ensures all { result < length text.now → ¬ IsDigit (slice_index_or text.now result 0) }
{
    let mut n = past_blocks(text, 0, SHORT_BLOCK, MIDDLE_BLOCK);
    if n == MIDDLE_BLOCK {
        let past = past_blocks(text, n, MIDDLE_BLOCK, LONG_FIELD);
        n = past_blocks(text, past_long(text, past), SHORT_BLOCK, usize::MAX);
    }
    while n < text.len() && is_digit(text[n]) {
        n += 1;
    }
    n
}

// Where they end in a long field, of which so many digits were judged.
fn past_long(text: &[u8], past: usize) -> usize
    requires within { past ≤ length text.now }
    requires digits { All IsDigit (take past text.now) }
    ensures within { result ≤ length text.now }
    ensures digits { All IsDigit (take result text.now) }
{
    if past < LONG_FIELD {
        return past;
    }
    past_blocks(text, past, LONG_BLOCK, usize::MAX)
}

// Where the digits end that stand in whole blocks from here on, or the first end of a block from `most` on. It is read into its
// caller, who knows how long a block is.
#[inline(always)]
fn past_blocks(text: &[u8], from: usize, block: usize, most: usize) -> usize
    requires some { 0 < block }
    requires within { from ≤ length text.now }
    requires digits { All IsDigit (take from text.now) }
    ensures within { result ≤ length text.now }
    ensures digits { All IsDigit (take result text.now) }
{
    let mut n = from;
    while n < most && text.len() - n >= block && are_digits(&text[n..n + block]) {
        n += block;
    }
    n
}

/// Whether all bytes are lower case digits. It is read into its caller, who mostly knows how many bytes these are.
#[inline(always)]
pub fn are_digits(field: &[u8]) -> bool
    ensures { IsTrue result ↔ All IsDigit field.now }
{
    let mut all = true;
    for c in field {
        all &= is_digit(*c);
    }
    all
}

/// Whether the byte is a lower case digit: it isn't past the figures, or not past the letters. A processor has instructions that
/// find this of many bytes at once.
fn is_digit(c: u8) -> bool
    ensures { IsTrue result ↔ IsDigit c }
{
    let past_figures = c.wrapping_sub(b'0').saturating_sub(9);
    let past_letters = c.wrapping_sub(b'a').saturating_sub(5);
    lower(past_figures, past_letters) == 0
}

/// The lower of two.
fn lower(a: u8, b: u8) -> u8
    ensures { (result ≡ 0) ↔ ((a ≡ 0) ⊎ (b ≡ 0)) }
{
    if a < b { a } else { b }
}

/// Whether they are so, and in pairs.
fn are_pairs(field: &[u8]) -> bool
    ensures { IsTrue result ↔ ArePairs field.now }
{
    !field.is_empty() && field.len() % 2 == 0 && are_digits(field)
}

/// Whether the field says that there are no bytes.
fn is_minus(field: &[u8]) -> bool
    ensures { IsTrue result ↔ (field.now ≡ 45 ∷ []) }
{
    matches!(field, b"-")
}

/// Whether the field spells bytes: by two digits each, or by `-` where there are none.
pub fn are_bytes(field: &[u8]) -> bool
    ensures { IsTrue result ↔ SpellsBytes field.now }
{
    is_minus(field) || are_pairs(field)
}

/// How many bytes the field spells.
pub fn spelled_len(field: &[u8]) -> usize
    ensures { result ≡ length field.now / 2 }
{
    field.len() / 2
}

/// Writes the bytes that the field spells.
pub fn read_bytes(field: &[u8], bytes: &mut [u8])
    requires spelled { SpellsBytes field.now }
    requires size { length bytes.old ≡ length field.now / 2 }
    ensures { IsBytesField field.now bytes.new }
{
    if !bytes.is_empty() {
        read_pairs(field, bytes);
    }
}
