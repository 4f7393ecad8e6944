//! The lines that come most often, in a text that was validated: what was judged then isn't judged again.
//!
//! Each is read behind its word and a space. No digit and no sign between two fields is tested here.

ghost use Rattle.std.specs.Prelude.{◌≡◌, ◌≢◌, ◌≤◌, ◌*◌, ◌++◌, ◌∷◌, ℕ, List, length};
ghost use Rattle.hexadecimal.specs.Spelling.{num};
ghost use Rattle.board.specs.declared.event.SlotWindow.{SlotWindow};
ghost use Rattle.trace.specs.Events.{BeginsWithAccess, BeginsWithBytes, BeginsWithEvent, BeginsWithNumber, BeginsWithSlot, BeginsWithValue, HasAccess, HasBytes, HasValue, TakesEvent};
ghost use Rattle.trace.specs.Words.{spelled};
ghost use Rattle.trace.specs.declared.word.Word.{Word};

use crate::read::cut::take_line;
use crate::read::parsed_event::ParsedEvent;
use board::{Bytes, EventKind, SlotWindow};
use hexadecimal::{fixed_value, value_at};
use std::alloc::Allocator;

/// A read of a register, and what follows its line.
#[inline(always)]
pub fn take_read<A: Allocator>(rest: &[u8]) -> (ParsedEvent<'_, A>, &[u8])
    requires { BeginsWithEvent A (spelled Word.Read ++ 32 ∷ rest.now) }
    ensures { TakesEvent (spelled Word.Read ++ 32 ∷ rest.now) result.0 result.1.now }
{
    let (slot, rest) = slot_in(rest);
    let after = &rest[8..];
    let (window, offset, width) = access_in(rest);
    let what = EventKind::Read {
        window,
        offset,
        width,
    };
    (ParsedEvent::plain(slot, what), after)
}

/// The same of a write of a register.
#[inline(always)]
pub fn take_write<A: Allocator>(rest: &[u8]) -> (ParsedEvent<'_, A>, &[u8])
    requires { BeginsWithEvent A (spelled Word.Write ++ 32 ∷ rest.now) }
    ensures { TakesEvent (spelled Word.Write ++ 32 ∷ rest.now) result.0 result.1.now }
{
    let (slot, rest) = slot_in(rest);
    let (window, offset, width) = access_in(rest);
    let value = value_in(&rest[8..], width);
    let what = EventKind::Write {
        window,
        offset,
        width,
        value,
    };
    let after = &rest[9 + 2 * width as usize..];
    (ParsedEvent::plain(slot, what), after)
}

/// The same of a write of memory.
#[inline(always)]
pub fn take_mem_write<A: Allocator>(alloc: A, rest: &[u8]) -> (ParsedEvent<'_, A>, &[u8])
    requires { BeginsWithEvent A (spelled Word.MemWrite ++ 32 ∷ rest.now) }
    ensures { TakesEvent (spelled Word.MemWrite ++ 32 ∷ rest.now) result.0 result.1.now }
{
    let (slot, rest) = slot_in(rest);
    let (addr, rest) = number_in(rest);
    let (field, after) = bytes_in(rest);
    let what = EventKind::MemWrite {
        addr,
        bytes: Bytes::new(alloc),
    };
    (ParsedEvent::new(slot, what, field), after)
}

/// The same of console input.
#[inline(always)]
pub fn take_input<A: Allocator>(alloc: A, rest: &[u8]) -> (ParsedEvent<'_, A>, &[u8])
    requires { BeginsWithEvent A (spelled Word.Input ++ 32 ∷ rest.now) }
    ensures { TakesEvent (spelled Word.Input ++ 32 ∷ rest.now) result.0 result.1.now }
{
    let bytes = Bytes::new(alloc);
    let (slot, rest) = slot_in(rest);
    let (field, after) = bytes_in(rest);
    let what = EventKind::Input { bytes };
    (ParsedEvent::new(slot, what, field), after)
}

// The slot at the front of a text, and what follows the space after it.
#[inline(always)]
fn slot_in(text: &[u8]) -> (u8, &[u8])
    requires { BeginsWithSlot text.now }
    ensures { text.now ≡ num result.0 ++ 32 ∷ result.1.now }
{
    if text[1] == b' ' {
        return (value_at(text[0]), &text[2..]);
    }
    (value_at(text[0]) * 16 + value_at(text[1]), &text[3..])
}

// The window, the offset and the width at the front of a text.
#[inline(always)]
fn access_in(text: &[u8]) -> (SlotWindow, u16, u8)
    requires { BeginsWithAccess text.now }
    ensures { (kind : SlotWindow) (offset width : ℕ) (after : List ℕ) → HasAccess text.now kind offset width after →
        (result.0 ≡ kind) × (result.1 ≡ offset) × (result.2 ≡ width) }
{
    let window = window_named(text[0]);
    let high = u16::from(value_at(text[2]));
    let middle = u16::from(value_at(text[3]));
    let low = u16::from(value_at(text[4]));
    (window, (high * 16 + middle) * 16 + low, text[6] - b'0')
}

// The kind of device whose window a byte names.
#[inline(always)]
fn window_named(byte: u8) -> SlotWindow
    ensures block { byte ≡ 98 → result ≡ SlotWindow.Block }
    ensures console { byte ≢ 98 → result ≡ SlotWindow.Console }
{
    if byte == b'b' {
        SlotWindow::Block
    } else {
        SlotWindow::Console
    }
}

// The value at the front of a text that is written by this width.
#[inline(always)]
fn value_in(text: &[u8], width: u8) -> u32
    requires begins { BeginsWithValue text.now width }
    requires long { 2 * width ≤ length text.now }
    ensures { (value : ℕ) (after : List ℕ) → HasValue text.now width value after → result ≡ value }
{
    if width == 4 {
        return fixed_value(&text[..8]);
    }
    if width == 2 {
        return fixed_value(&text[..4]);
    }
    fixed_value(&text[..2])
}

// The number at the front of a text, and what follows the space after it.
#[inline(always)]
fn number_in(text: &[u8]) -> (u64, &[u8])
    requires { BeginsWithNumber text.now }
    ensures { text.now ≡ num result.0 ++ 32 ∷ result.1.now }
{
    let mut n: u64 = 0;
    let mut i = 0;
    while text[i] != b' ' {
        n = n * 16 + u64::from(value_at(text[i]));
        i += 1;
    }
    (n, &text[i + 1..])
}

// The field at the front of a text that spells bytes, and what follows the line feed after it.
#[inline(always)]
fn bytes_in(text: &[u8]) -> (&[u8], &[u8])
    requires { BeginsWithBytes text.now }
    ensures { (field after : List ℕ) → HasBytes text.now field after → (result.0.now ≡ field) × (result.1.now ≡ after) }
{
    let Some(cut) = take_line(text) else {
        unreachable!()
    };
    cut
}
