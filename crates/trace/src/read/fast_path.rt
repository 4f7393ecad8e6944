//! The lines that come most often: accesses to registers and to memory, and console input.
//!
//! Each is read from the front of a text to its line feed, and no fault is looked for. What isn't spelled so is `None` here,
//! and `entry` reads it field by field: it may have a fault, or be a line of another kind.
#![tactic(auto, unfolding(crate::specs::ParsedEvent::parsed_line))]

ghost use Rattle.std.specs.Prelude.{◌≡◌, ◌*◌, ◌++◌, ◌∷◌, ◌^◌, ◌<◌, ℕ, List, IfSome};
ghost use Rattle.trace.specs.ParsedEvent.{IsTaken};
ghost use Rattle.trace.specs.Validating.{IsSkipped};
ghost use Rattle.hexadecimal.specs.Fields.{IsFixed};
ghost use Rattle.hexadecimal.specs.Spelling.{fixed, num};
ghost use Rattle.trace.specs.Spelling.{width_digit, window};
ghost use Rattle.trace.specs.Words.{Bytes as ByBytes, IsWidth, Says, spelled};

use crate::read::choice::{width_of, window_of};
use crate::read::cut::take_line;
use crate::read::number::take_number;
use crate::read::offset::offset_of;
use crate::read::parsed_event::ParsedEvent;
use crate::word::Word;
use board::{Bytes, EventKind, SlotWindow};
use hexadecimal::{are_digits, digits_len, fixed_number, fixed_value, number_u32, value_of};
use std::alloc::Allocator;

/// An event and what follows its line, where that is spelled so.
type Taken<'a, A> = Option<(ParsedEvent<'a, A>, &'a [u8])>;

/// The event of a text's first line, where that is spelled so, and what follows it.
#[inline(never)]
pub(crate) fn take_fast<A: Allocator>(alloc: A, text: &[u8]) -> Taken<'_, A>
    ensures { IfSome result (λ x. IsTaken text.now x.0 x.1.now) }
{
    match text {
        [b'r', b' ', rest @ ..] => read_in(rest),
        [b'w', b' ', rest @ ..] => write_in(rest),
        [b'm', b'w', b' ', rest @ ..] => mem_write_in(alloc, rest),
        [b'm', b'r', b' ', rest @ ..] => mem_read_in(rest),
        [b'i', b'n', b' ', rest @ ..] => input_in(alloc, rest),
        _ => None,
    }
}

/// How many bytes a text's first line spells, where it is one of these, and what follows it. Each kind of line is judged by itself,
/// so that no event is made of it.
#[inline]
pub(crate) fn skip_fast<A: Allocator>(alloc: A, text: &[u8]) -> Option<(usize, &[u8])>
    ensures { IfSome result (λ x. IsSkipped A text.now x.0 x.1.now) }
{
    match text {
        [word, b' ', rest @ ..] => match word {
            b'r' => skipped(read_in::<A>(rest)),
            b'w' => skipped(write_in::<A>(rest)),
            _ => None,
        },
        [b'm', b'w', b' ', rest @ ..] => skipped(mem_write_in(alloc, rest)),
        [b'm', b'r', b' ', rest @ ..] => skip_mem_read::<A>(rest),
        [b'i', b'n', b' ', rest @ ..] => skipped(input_in(alloc, rest)),
        _ => None,
    }
}

#[inline(never)]
fn skip_mem_read<A: Allocator>(rest: &[u8]) -> Option<(usize, &[u8])>
    ensures { IfSome result (λ x. IsSkipped A (spelled Word.MemRead ++ 32 ∷ rest.now) x.0 x.1.now) }
{
    skipped(mem_read_in::<A>(rest))
}

// What is left of an event that was taken off.
#[inline(always)]
fn skipped<A: Allocator>(taken: Taken<'_, A>) -> Option<(usize, &[u8])>
    ensures { (text : List ℕ) → IfSome taken.entry (λ x. IsTaken text x.0 x.1.now) → IfSome result (λ x. IsSkipped A text x.0 x.1.now) }
{
    let (parsed, after) = taken?;
    Some((parsed.spelled_len(), after))
}

// The event that these bytes after its word and a space say.
#[inline(always)]
fn read_in<A: Allocator>(rest: &[u8]) -> Taken<'_, A>
    ensures { IfSome result (λ x. IsTaken (spelled Word.Read ++ 32 ∷ rest.now) x.0 x.1.now) }
{
    let (slot, window, offset, width, after) = access(rest, b'\n')?;
    let what = EventKind::Read {
        window,
        offset,
        width,
    };
    Some((ParsedEvent::plain(slot, what), after))
}

#[inline(always)]
fn write_in<A: Allocator>(rest: &[u8]) -> Taken<'_, A>
    ensures { IfSome result (λ x. IsTaken (spelled Word.Write ++ 32 ∷ rest.now) x.0 x.1.now) }
{
    let (slot, window, offset, width, rest) = access(rest, b' ')?;
    let digits = 2 * width as usize;
    let (value, rest) = rest.split_at_checked(digits)?;
    let [b'\n', after @ ..] = rest else {
        return None;
    };
    let value = value_of_width(value, width)?;
    let what = EventKind::Write {
        window,
        offset,
        width,
        value,
    };
    Some((ParsedEvent::plain(slot, what), after))
}

// The value that is written by this width, of twice so many digits. Those of four bytes are judged all at once.
#[inline(always)]
fn value_of_width(field: &[u8], width: u8) -> Option<u32>
    requires { IsWidth width }
    ensures { IfSome result (λ value. IsFixed (2 * width) field.now value) }
{
    if width != 4 {
        return fixed_number(field, 2 * width as usize);
    }
    if field.len() != 8 || !are_digits(&field[..8]) {
        return None;
    }
    Some(fixed_value(&field[..8]))
}

#[inline(always)]
fn mem_read_in<A: Allocator>(rest: &[u8]) -> Taken<'_, A>
    ensures { IfSome result (λ x. IsTaken (spelled Word.MemRead ++ 32 ∷ rest.now) x.0 x.1.now) }
{
    let (slot, rest) = take_slot(rest)?;
    let (addr, rest) = take_number(rest)?;
    let (len, after) = take_line(rest)?;
    let len = number_u32(len)?;
    Some((
        ParsedEvent::plain(slot, EventKind::MemRead { addr, len }),
        after,
    ))
}

#[inline(always)]
fn mem_write_in<A: Allocator>(alloc: A, rest: &[u8]) -> Taken<'_, A>
    ensures { IfSome result (λ x. IsTaken (spelled Word.MemWrite ++ 32 ∷ rest.now) x.0 x.1.now) }
{
    let (slot, rest) = take_slot(rest)?;
    let (addr, rest) = take_number(rest)?;
    let (bytes, after) = take_bytes(rest)?;
    let what = EventKind::MemWrite {
        addr,
        bytes: Bytes::new(alloc),
    };
    Some((ParsedEvent::new(slot, what, bytes), after))
}

#[inline(always)]
fn input_in<A: Allocator>(alloc: A, rest: &[u8]) -> Taken<'_, A>
    ensures { IfSome result (λ x. IsTaken (spelled Word.Input ++ 32 ∷ rest.now) x.0 x.1.now) }
{
    let (slot, rest) = take_slot(rest)?;
    let (bytes, after) = take_bytes(rest)?;
    let what = EventKind::Input {
        bytes: Bytes::new(alloc),
    };
    Some((ParsedEvent::new(slot, what, bytes), after))
}

/// The slot, the window, the offset and the width of a register access, of which the last three stand in fixed
/// columns, and what follows this byte behind the width.
#[inline(always)]
fn access(line: &[u8], end: u8) -> Option<(u8, SlotWindow, u16, u8, &[u8])>
    ensures line { IfSome result (λ x. line.now ≡ num x.0 ++ 32 ∷ window x.1 ++ 32 ∷ fixed 3 x.2 ++ 32 ∷ width_digit x.3 ++ end ∷ x.4.now) }
    ensures offset { IfSome result (λ x. x.2 < 16 ^ 3) }
    ensures width { IfSome result (λ x. IsWidth x.3) }
{
    let (slot, line) = take_slot(line)?;
    if line.len() < 8 || line[1] != b' ' || line[5] != b' ' || line[7] != end {
        return None;
    }
    let window = window_of(&line[..1])?;
    let offset = offset_of(&line[2..5])?;
    let width = width_of(&line[6..7])?;
    Some((slot, window, offset, width, &line[8..]))
}

/// The digits at the front of a text, two for each of some bytes, and what follows the line feed after them.
#[inline(always)]
fn take_bytes(text: &[u8]) -> Option<(&[u8], &[u8])>
    ensures ended { IfSome result (λ x. text.now ≡ x.0.now ++ 10 ∷ x.1.now) }
    ensures says { IfSome result (λ x. Says ByBytes x.0.now) }
{
    let len = digits_len(text);
    let (field, rest) = text.split_at(len);
    match rest {
        [b'\n', after @ ..] if len > 0 && len % 2 == 0 => Some((field, after)),
        _ => None,
    }
}

/// The slot at the front of a line, and what follows the space after it.
#[inline(always)]
fn take_slot(line: &[u8]) -> Option<(u8, &[u8])>
    ensures { IfSome result (λ x. line.now ≡ num x.0 ++ 32 ∷ x.1.now) }
{
    if let [low, b' ', rest @ ..] = line {
        return Some((value_of(*low)?, rest));
    }
    let [high, low, b' ', rest @ ..] = line else {
        return None;
    };
    if *high == b'0' {
        return None;
    }
    Some((value_of(*high)? * 16 + value_of(*low)?, rest))
}
