//! What the fields of one line say, once its word is known.
//!
//! Where a field says no value the answer is `None`; `at_fault` then finds the fault.

ghost use Rattle.std.specs.Prelude.{◌≡◌, ◌≢◌, ◌<◌, ◌≤◌, ◌^◌, ◌∷◌, ◌++◌, [], ℕ, All, IfSome, IfNone, length, map};
ghost use Rattle.std.specs.Option.{option_copied};
ghost use Rattle.trace.specs.Cuts.{fields_left};
ghost use Rattle.trace.specs.Faults.{MayStand};
ghost use Rattle.trace.specs.Printable.{IsPrintableDisk, IsPrintableMemory};
ghost use Rattle.trace.specs.Refusals.{IsFineSlot};
ghost use Rattle.trace.specs.ParsedEvent.{IsFineParsed, parsed_fields};
ghost use Rattle.hexadecimal.specs.Spelling.{bytes as bytes_field, num};
ghost use Rattle.trace.specs.Spelling.{value_text};
ghost use Rattle.trace.specs.Text.{cache_fields, disk_fields, memory_fields, slot_fields, word_for};
ghost use Rattle.trace.specs.Values.{AreOf};
ghost use Rattle.trace.specs.declared.format.Format.{Format};
ghost use Rattle.trace.specs.Format.{identity_in_version_1, if_extended, unless_version_1};
ghost use Rattle.trace.specs.Words.{AreRight, Disk as ByDisk, DepthInRange, Identity as ByIdentity, Mode as ByMode, Num, RegionInRange, shapes, spelled};

use crate::format::{Format, Version, identity_in_version_1};
use crate::read::device_fields::device_of;
use crate::read::parsed_event::ParsedEvent;
use crate::read::regions::regions_of;
use crate::read::values::values_of;
use crate::value::FieldValue::{
    self, Disk, Identity, Mode, Number, Offset, Spelled, Value, Verdict, Width, Window,
};
use crate::word::Word;
use board::{Backing, Bytes, EventKind, Extent, HostEvent, SlotSpec};
use guest_memory::Regions;
use std::alloc::Allocator;

/// How many sectors the cache keeps, which the fields after its word say.
pub(crate) fn sectors_of(format: Format, rest: Option<&[u8]>) -> Option<u32>
    ensures fields { IfSome result (λ sectors. cache_fields sectors ≡ spelled Word.Cache ∷ fields_left (option_copied rest.entry)) }
    ensures none { IfNone result (¬ AreRight format Word.Cache (fields_left (option_copied rest.entry))) }
{
    let values = values_of(format, Word::Cache, rest)?;
    let &[Number(sectors)] = values.as_slice() else {
        unreachable!()
    };
    Some(sectors as u32)
}

/// The event that the fields after a word say. They are the same in each format that has it.
pub(crate) fn event_of<A: Allocator>(
    alloc: A,
    word: Word,
    rest: Option<&[u8]>,
) -> Option<ParsedEvent<'_, A>>
    requires late { MayStand 3 word }
    requires not_slot { word ≢ Word.Slot }
    ensures fields { IfSome result (λ e. parsed_fields e ≡ spelled word ∷ fields_left (option_copied rest.entry)) }
    ensures word { IfSome result (λ e. word_for e.event.what ≡ word) }
    ensures fine { IfSome result IsFineParsed }
    ensures none { IfNone result ((format : Format) → ¬ AreRight format word (fields_left (option_copied rest.entry))) }
{
    let values = values_of(Format::Extended, word, rest)?;
    Some(parsed_of(alloc, word, &values))
}

// What the values after a word say.
fn parsed_of<'a, A: Allocator>(
    alloc: A,
    word: Word,
    values: &[FieldValue<'a>],
) -> ParsedEvent<'a, A>
    requires late { MayStand 3 word }
    requires not_slot { word ≢ Word.Slot }
    requires values { AreOf (shapes Format.Extended word (map value_text values.now)) values.now }
    ensures fields { parsed_fields result ≡ spelled word ∷ map value_text values.now }
    ensures word { word_for result.event.what ≡ word }
    ensures fine { IsFineParsed result }
{
    let none = Bytes::new(alloc);
    match word {
        Word::Read => read_of(values),
        Word::Write => write_of(values),
        Word::MemRead => {
            let &[Number(slot), Number(addr), Number(len)] = values else {
                unreachable!()
            };
            let len = len as u32;
            ParsedEvent::plain(slot as u8, EventKind::MemRead { addr, len })
        }
        Word::MemWrite => {
            let &[Number(slot), Number(addr), Spelled(bytes)] = values else {
                unreachable!()
            };
            let what = EventKind::MemWrite { addr, bytes: none };
            ParsedEvent::new(slot as u8, what, bytes)
        }
        Word::Input => {
            let &[Number(slot), Spelled(bytes)] = values else {
                unreachable!()
            };
            ParsedEvent::new(slot as u8, EventKind::Input { bytes: none }, bytes)
        }
        Word::Resize => {
            let &[Number(slot), Number(cols), Number(rows)] = values else {
                unreachable!()
            };
            let (cols, rows) = (cols as u16, rows as u16);
            ParsedEvent::plain(slot as u8, EventKind::Resize { cols, rows })
        }
        Word::Restore => {
            let &[Number(slot), Spelled(bytes)] = values else {
                unreachable!()
            };
            ParsedEvent::new(slot as u8, EventKind::Restore { bytes: none }, bytes)
        }
        Word::Complete => {
            let &[Number(slot), Number(tag), Verdict(verdict)] = values else {
                unreachable!()
            };
            let tag = tag as u8;
            ParsedEvent::said(slot as u8, HostEvent::Complete { tag, verdict })
        }
        Word::Drop => ParsedEvent::said(slot_alone(values), HostEvent::Drop),
        Word::Hold => ParsedEvent::said(slot_alone(values), HostEvent::Hold),
        Word::Release => ParsedEvent::said(slot_alone(values), HostEvent::Release),
        Word::Cache | Word::Slot => unreachable!(),
        _ => device_of(none, word, values),
    }
}

// The slot that is the only one of these values.
fn slot_alone(values: &[FieldValue<'_>]) -> u8
    requires { AreOf (Num 8 ∷ []) values.now }
    ensures { map value_text values.now ≡ num result ∷ [] }
{
    let &[Number(slot)] = values else {
        unreachable!()
    };
    slot as u8
}

// What those of a read of a register say.
#[tactic(auto, using(crate::proofs::Widths::num_width))]
fn read_of<'a, A: Allocator>(values: &[FieldValue<'a>]) -> ParsedEvent<'a, A>
    requires { AreOf (shapes Format.Extended Word.Read (map value_text values.now)) values.now }
    ensures fields { parsed_fields result ≡ spelled Word.Read ∷ map value_text values.now }
    ensures word { word_for result.event.what ≡ Word.Read }
    ensures fine { IsFineParsed result }
{
    let &[Number(slot), Window(window), Offset(offset), Width(width)] = values else {
        unreachable!()
    };
    let what = EventKind::Read {
        window,
        offset,
        width,
    };
    ParsedEvent::plain(slot as u8, what)
}

// What those of a write say, whose value is read by the width before it.
fn write_of<'a, A: Allocator>(values: &[FieldValue<'a>]) -> ParsedEvent<'a, A>
    requires { AreOf (shapes Format.Extended Word.Write (map value_text values.now)) values.now }
    ensures fields { parsed_fields result ≡ spelled Word.Write ∷ map value_text values.now }
    ensures word { word_for result.event.what ≡ Word.Write }
    ensures fine { IsFineParsed result }
{
    let &[
        Number(slot),
        Window(window),
        Offset(offset),
        Width(width),
        Value(_, value),
    ] = values
    else {
        unreachable!()
    };
    let what = EventKind::Write {
        window,
        offset,
        width,
        value,
    };
    ParsedEvent::plain(slot as u8, what)
}

/// The slot that the fields after its word say in a format. The first of them say its memory.
pub(crate) fn slot_of(format: Format, rest: Option<&[u8]>) -> Option<SlotSpec>
    ensures fields { IfSome result (λ s. slot_fields format s ≡ spelled Word.Slot ∷ fields_left (option_copied rest.entry)) }
    ensures fine { IfSome result (IsFineSlot format) }
    ensures none { IfNone result (¬ AreRight format Word.Slot (fields_left (option_copied rest.entry))) }
{
    let values = values_of(format, Word::Slot, rest)?;
    let (regions, others) = memory_of(format, values.as_slice());
    let (backing, spare, others) = disk_of(format, others);
    let &[
        Number(start),
        Number(count),
        Mode(read_only),
        Number(cols),
        Number(rows),
        ref last @ ..,
    ] = others
    else {
        unreachable!()
    };
    let identity = last_identity(format, last);
    let extent = Extent { start, count };
    Some(SlotSpec {
        regions,
        extent,
        spare,
        backing,
        read_only,
        cols: cols as u16,
        rows: rows as u16,
        identity,
    })
}

// The regions that the first values of a slot say, and the values behind them.
fn memory_of<'a, 'b>(
    format: Format,
    values: &'b [FieldValue<'a>],
) -> (Regions, &'b [FieldValue<'a>])
    requires { AreOf (shapes format Word.Slot (map value_text values.now)) values.now }
    ensures fields { map value_text values.now ≡ memory_fields format result.0 ++ map value_text result.1.now }
    ensures others { AreOf (if_extended format (ByDisk ∷ []) ++ (Num 64 ∷ Num 64 ∷ ByMode ∷ Num 16 ∷ Num 16 ∷ unless_version_1 format (ByIdentity ∷ []))) result.1.now }
    ensures fits { All RegionInRange result.0 }
    ensures few { length result.0 ≤ 8 }
    ensures printable { IsPrintableMemory format (length result.0) }
{
    match (format, values) {
        (Format::Plain(_), &[Number(base), Number(len), ref others @ ..]) => {
            (Regions::one(base, len), others)
        }
        (Format::Extended, &[Spelled(field), ref others @ ..]) => match regions_of(field) {
            Some(regions) => (regions, others),
            None => unreachable!(),
        },
        _ => unreachable!(),
    }
}

// Who has a slot's disk and how many spare sectors the slot has, from the first of the values behind its memory, and the
// values behind that.
fn disk_of<'a, 'b>(
    format: Format,
    values: &'b [FieldValue<'a>],
) -> (Backing, u64, &'b [FieldValue<'a>])
    requires { AreOf (if_extended format (ByDisk ∷ []) ++ (Num 64 ∷ Num 64 ∷ ByMode ∷ Num 16 ∷ Num 16 ∷ unless_version_1 format (ByIdentity ∷ []))) values.now }
    ensures fields { map value_text values.now ≡ disk_fields format result.0 result.1 ++ map value_text result.2.now }
    ensures others { AreOf (Num 64 ∷ Num 64 ∷ ByMode ∷ Num 16 ∷ Num 16 ∷ unless_version_1 format (ByIdentity ∷ [])) result.2.now }
    ensures fits { DepthInRange result.0 }
    ensures wide { result.1 < 2 ^ 64 }
    ensures printable { IsPrintableDisk format result.0 result.1 }
{
    match (format, values) {
        (Format::Plain(_), others) => (Backing::Image, 0, others),
        (Format::Extended, &[Disk(backing, spare), ref others @ ..]) => (backing, spare, others),
        _ => unreachable!(),
    }
}

// The identity that is a slot's last value, and in version 1 that of each slot.
fn last_identity(format: Format, last: &[FieldValue<'_>]) -> [u8; 20]
    requires values { AreOf (unless_version_1 format (ByIdentity ∷ [])) last.now }
    ensures last { unless_version_1 format (bytes_field result ∷ []) ≡ map value_text last.now }
    ensures range { All (λ b. b < 2 ^ 8) result }
    ensures twenty { length result ≡ 20 }
    ensures left_out { format ≡ Format.Plain Version.One → result ≡ identity_in_version_1 }
{
    match (format, last) {
        (Format::Plain(Version::One), _) => identity_in_version_1(),
        (_, &[Identity(identity)]) => identity,
        _ => unreachable!(),
    }
}
