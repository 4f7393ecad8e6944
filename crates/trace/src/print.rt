//! Writing a whole trace.
//!
//! `line` writes a line, `regions` one of its fields, and `range` says the bounds of its numbers. `records` puts records into the
//! `buffer` before a writer, `asked` what a host is asked to do, and `write` writes whole texts.

ghost use Rattle.std.specs.Prelude.{◌≡◌, ◌*◌, ◌^◌, ◌<◌, ◌↔◌, ◌++◌, ◌∷◌, All, IsTrue, IfOk, OnOk, length, map};
ghost use Rattle.trace.specs.Printable.{InRange, IsAccess, IsPrintable, IsPrintableDisk, IsPrintableDone, IsPrintableKind, IsPrintableMemory, IsPrintableSlot};
ghost use Rattle.trace.specs.Spelling.{behind_of, device_kind, field_text, spec_fields};
ghost use Rattle.trace.specs.Text.{content, text as text_of, device_fields, ended, event_fields, event_line, front_text, joined, slot_line, word_for};
ghost use Rattle.trace.specs.Words.{IsWidth, IsWordOf, behind_kind, fields_in, spelled};

mod asked;
mod buffer;
mod line;
mod pending;
mod range;
mod records;
mod regions;
mod write;

use crate::format::{Format, Version, header_of, identity_in_version_1};
use crate::no_memory::NoMemory;
pub use crate::print::asked::{put_asked_end, put_begun};
pub use crate::print::buffer::Buffer;
use crate::print::line::{LineFields, push_line};
use crate::print::range::in_range;
pub use crate::print::records::{print_records, put_fields, put_line, put_read};
pub use crate::print::write::write_whole;
use crate::trace::Trace;
use crate::word::{Word, is_word_of, word_for};
use board::{Backing, DeviceEvent, DeviceSpec, Event, EventKind, HostEvent, SlotSpec};
use guest_memory::RegionSpec;
use std::alloc::{AllocError, Allocator};

/// Whether the trace has a text. In each, the offset of a register access has three digits, its width is 1, 2 or 4, and a value
/// that is written is within that width. In a plain trace, each memory has one region, the disks are on the image, no slot has spare
/// sectors, there is no Restore and the host says nothing, and in version 1 each slot has the identity of that version. In an extended one, each memory
/// has a region. Each trace that was read has a text.
pub fn is_printable<A: Allocator>(trace: &Trace<A>) -> bool
    ensures { IsTrue result ↔ IsPrintable (content trace.now) }
{
    slots_have_lines(trace.format, &trace.slots)
        && events_have_lines(&trace.events)
        && events_have_words(trace.format, &trace.events)
}

// Whether each slot has a line in a format.
fn slots_have_lines(format: Format, slots: &[SlotSpec]) -> bool
    ensures { IsTrue result ↔ All (IsPrintableSlot format) slots.now }
{
    slots.iter().all(|slot| slot_has_line(format, slot))
}

// Whether a slot has a line in a format.
fn slot_has_line(format: Format, slot: &SlotSpec) -> bool
    ensures { IsTrue result ↔ IsPrintableSlot format slot.now }
{
    has_memory(format, slot.regions.as_slice().len())
        && has_disk(format, slot.backing, slot.spare)
        && (format != Format::Plain(Version::One) || slot.identity == identity_in_version_1())
}

// Whether a memory of so many regions has a spelling in a format.
fn has_memory(format: Format, count: usize) -> bool
    ensures { IsTrue result ↔ IsPrintableMemory format count }
{
    match format {
        Format::Plain(_) => count == 1,
        Format::Extended => count >= 1,
    }
}

// Whether a disk, and so many spare sectors, have a spelling in a format.
fn has_disk(format: Format, backing: Backing, spare: u64) -> bool
    ensures { IsTrue result ↔ IsPrintableDisk format backing spare }
{
    match format {
        Format::Plain(_) => backing == Backing::Image && spare == 0,
        Format::Extended => backing == Backing::Image || spare == 0,
    }
}

// Whether each event has a line.
fn events_have_lines<A: Allocator>(events: &[Event<A>]) -> bool
    ensures { IsTrue result ↔ All (λ event. IsPrintableKind event.what) events.now }
{
    events.iter().all(|event| has_line(&event.what))
}

// Whether the format has the word of each event.
fn events_have_words<A: Allocator>(format: Format, events: &[Event<A>]) -> bool
    ensures { IsTrue result ↔ All (λ event. IsWordOf format (word_for event.what)) events.now }
{
    events.iter().all(|event| has_word(format, event))
}

// Whether the format has the word of an event.
fn has_word<A: Allocator>(format: Format, event: &Event<A>) -> bool
    ensures { IsTrue result ↔ IsWordOf format (word_for event.now.what) }
{
    is_word_of(format, word_for(&event.what))
}

// Whether what an event does has a line.
fn has_line<A: Allocator>(what: &EventKind<A>) -> bool
    ensures { IsTrue result ↔ IsPrintableKind what.now }
{
    match what {
        EventKind::Read { offset, width, .. } => is_access(*offset, *width),
        EventKind::Write {
            offset,
            width,
            value,
            ..
        } => is_access(*offset, *width) && is_within(*value, *width),
        EventKind::Device { what, .. } => done_has_line(what),
        _ => true,
    }
}

// Whether what is done to a further device has a line.
fn done_has_line<A: Allocator>(done: &DeviceEvent<A>) -> bool
    ensures { IsTrue result ↔ IsPrintableDone done.now }
{
    match done {
        DeviceEvent::Read { offset, width } => is_access(*offset, *width),
        DeviceEvent::Write {
            offset,
            width,
            value,
        } => is_access(*offset, *width) && is_within(*value, *width),
        _ => true,
    }
}

// Whether the access to a register has a spelling.
fn is_access(offset: u16, width: u8) -> bool
    ensures { IsTrue result ↔ IsAccess offset width }
{
    offset < 0x1000 && (width == 1 || width == 2 || width == 4)
}

// Whether a value fits a width.
fn is_within(value: u32, width: u8) -> bool
    requires { IsWidth width }
    ensures { IsTrue result ↔ (value < 2 ^ (8 * width)) }
{
    match width {
        1 => value <= 0xff,
        2 => value <= 0xffff,
        _ => true,
    }
}

/// The text of a trace. `is_printable` is the test. Its numbers are those of their types, so that
/// `read_trace` reads the text back.
pub fn print_trace<A: Allocator>(alloc: A, trace: &Trace<A>) -> Result<Vec<u8, A>, NoMemory>
    requires { IsPrintable (content trace.now) }
    ensures text { IfOk result (λ text. text.items ≡ text_of (content trace.now)) }
    ensures range { InRange (content trace.now) }
{
    in_range(trace);
    let mut out = Vec::new(alloc);
    push_front(&mut out, trace.format, trace.cache)?;
    push_slots(&mut out, trace.format, &trace.slots)?;
    push_events(&mut out, &trace.events)?;
    Ok(out)
}

// Appends the lines of the slots.
fn push_slots<A: Allocator>(
    out: &mut Vec<u8, A>,
    format: Format,
    slots: &[SlotSpec],
) -> Result<(), AllocError>
    requires { All (λ slot. IsPrintableMemory format (length slot.regions)) slots.now }
    ensures { OnOk result (out.new.items ≡ out.old.items ++ joined (map (slot_line format) slots.now)) }
{
    for slot in slots {
        push_slot(out, format, slot)?;
    }
    Ok(())
}

// Appends the lines of the events.
fn push_events<A: Allocator>(out: &mut Vec<u8, A>, events: &[Event<A>]) -> Result<(), AllocError>
    requires { All (λ event. IsPrintableKind event.what) events.now }
    ensures { OnOk result (out.new.items ≡ out.old.items ++ joined (map event_line events.now)) }
{
    for event in events {
        push_event(out, event)?;
    }
    Ok(())
}

// Appends the first two lines.
#[tactic(auto, unfolding(crate::specs::Text::cache_line))]
fn push_front<A: Allocator>(
    out: &mut Vec<u8, A>,
    format: Format,
    cache: u32,
) -> Result<(), AllocError>
    ensures { OnOk result (out.new.items ≡ out.old.items ++ front_text format cache) }
{
    out.extend_from_slice(header_of(format))?;
    out.push(b'\n')?;
    let fields = LineFields {
        sectors: cache,
        ..LineFields::default()
    };
    push_line(out, format, Word::Cache, &fields)
}

// Appends the line of a slot.
#[tactic(auto, using(crate::proofs::Formats::map_if_extended, crate::proofs::Formats::map_unless_version_1), unfolding(crate::specs::Text::slot_line))]
fn push_slot<A: Allocator>(
    out: &mut Vec<u8, A>,
    format: Format,
    slot: &SlotSpec,
) -> Result<(), AllocError>
    requires { IsPrintableMemory format (length slot.now.regions) }
    ensures { OnOk result (out.new.items ≡ out.old.items ++ ended (slot_line format slot.now)) }
{
    let regions = slot.regions.as_slice();
    let RegionSpec { base, len } = regions[0];
    let fields = LineFields {
        base,
        size: len,
        regions,
        backing: slot.backing,
        spare: slot.spare,
        start: slot.extent.start,
        count: slot.extent.count,
        read_only: slot.read_only,
        columns: slot.cols,
        rows: slot.rows,
        identity: slot.identity,
        ..LineFields::default()
    };
    push_line(out, format, Word::Slot, &fields)
}

// Appends the line of an event, which is the same in each format that has its word.
#[tactic(auto, unfolding(crate::specs::Text::event_line))]
fn push_event<A: Allocator>(out: &mut Vec<u8, A>, event: &Event<A>) -> Result<(), AllocError>
    requires { IsPrintableKind event.now.what }
    ensures { OnOk result (out.new.items ≡ out.old.items ++ ended (event_line event.now)) }
{
    let (word, fields) = event_says(event);
    push_line(out, Format::Extended, word, &fields)
}

// The word of an event, and what the fields after it say.
#[tactic(auto, using(crate::proofs::Widths::num_width))]
fn event_says<A: Allocator>(event: &Event<A>) -> (Word, LineFields<'_>)
    requires { IsPrintableKind event.now.what }
    ensures { spelled result.0 ∷ map (field_text result.1) (fields_in Format.Extended result.0 (behind_of result.1.kind)) ≡ event_fields event.now }
{
    let mut fields = LineFields {
        slot: event.slot,
        ..LineFields::default()
    };
    match &event.what {
        EventKind::Read {
            window,
            offset,
            width,
        } => {
            (fields.window, fields.offset, fields.width) = (*window, *offset, *width);
            (Word::Read, fields)
        }
        EventKind::Write {
            window,
            offset,
            width,
            value,
        } => {
            (fields.window, fields.offset) = (*window, *offset);
            (fields.width, fields.value) = (*width, *value);
            (Word::Write, fields)
        }
        EventKind::MemRead { addr, len } => {
            (fields.address, fields.length) = (*addr, *len);
            (Word::MemRead, fields)
        }
        EventKind::MemWrite { addr, bytes } => {
            (fields.address, fields.bytes) = (*addr, bytes.as_slice());
            (Word::MemWrite, fields)
        }
        EventKind::Input { bytes } => {
            fields.bytes = bytes.as_slice();
            (Word::Input, fields)
        }
        EventKind::Resize { cols, rows } => {
            (fields.columns, fields.rows) = (*cols, *rows);
            (Word::Resize, fields)
        }
        EventKind::Restore { bytes } => {
            fields.bytes = bytes.as_slice();
            (Word::Restore, fields)
        }
        EventKind::Host(HostEvent::Complete { tag, verdict }) => {
            (fields.tag, fields.verdict) = (*tag, *verdict);
            (Word::Complete, fields)
        }
        EventKind::Host(HostEvent::Drop) => (Word::Drop, fields),
        EventKind::Host(HostEvent::Hold) => (Word::Hold, fields),
        EventKind::Host(HostEvent::Release) => (Word::Release, fields),
        EventKind::Device { device, what } => {
            fields.device = *device;
            device_says(what, fields)
        }
    }
}

// The same of what is done to a further device, whose number and slot the fields say.
#[tactic(auto, using(crate::proofs::Widths::num_width))]
fn device_says<'a, A: Allocator>(
    done: &'a DeviceEvent<A>,
    mut fields: LineFields<'a>,
) -> (Word, LineFields<'a>)
    requires { IsPrintableDone done.now }
    ensures { spelled result.0 ∷ map (field_text result.1) (fields_in Format.Extended result.0 (behind_of result.1.kind)) ≡
        device_fields fields.entry.slot fields.entry.device done.now }
{
    match done {
        DeviceEvent::Plug(spec) => {
            plug_says(*spec, &mut fields);
            (Word::Plug, fields)
        }
        DeviceEvent::Read { offset, width } => {
            (fields.offset, fields.width) = (*offset, *width);
            (Word::DeviceRead, fields)
        }
        DeviceEvent::Write {
            offset,
            width,
            value,
        } => {
            (fields.offset, fields.width, fields.value) = (*offset, *width, *value);
            (Word::DeviceWrite, fields)
        }
        DeviceEvent::Supply { bytes } => {
            fields.bytes = bytes.as_slice();
            (Word::Supply, fields)
        }
        DeviceEvent::Receive { frame } => {
            fields.bytes = frame.as_slice();
            (Word::Receive, fields)
        }
        DeviceEvent::TakeSent => (Word::TakeSent, fields),
        DeviceEvent::DropSent => (Word::DropSent, fields),
        DeviceEvent::SetLink { up } => {
            fields.up = *up;
            (Word::SetLink, fields)
        }
        DeviceEvent::Resize { cols, rows } => {
            (fields.columns, fields.rows) = (*cols, *rows);
            (Word::DeviceResize, fields)
        }
        DeviceEvent::Host(HostEvent::Complete { tag, verdict }) => {
            (fields.tag, fields.verdict) = (*tag, *verdict);
            (Word::DeviceComplete, fields)
        }
        DeviceEvent::Host(HostEvent::Drop) => (Word::DeviceDrop, fields),
        DeviceEvent::Host(HostEvent::Hold) => (Word::DeviceHold, fields),
        DeviceEvent::Host(HostEvent::Release) => (Word::DeviceRelease, fields),
    }
}

// What the fields behind a further device say of what it is to be.
fn plug_says(spec: DeviceSpec, fields: &mut LineFields<'_>)
    ensures fields { device_kind fields.new.kind ∷ map (field_text fields.new) (behind_kind (behind_of fields.new.kind)) ≡
        device_kind spec ∷ spec_fields spec }
    ensures slot { fields.new.slot ≡ fields.old.slot }
    ensures device { fields.new.device ≡ fields.old.device }
{
    fields.kind = spec;
    match spec {
        DeviceSpec::Entropy | DeviceSpec::Network { .. } | DeviceSpec::Console { .. } => {}
        DeviceSpec::Block {
            sectors,
            read_only,
            identity,
            depth,
        } => {
            (fields.capacity, fields.depth) = (sectors, depth);
            (fields.read_only, fields.identity) = (read_only, identity);
        }
        DeviceSpec::Image {
            extent,
            read_only,
            identity,
        } => {
            (fields.start, fields.count) = (extent.start, extent.count);
            (fields.read_only, fields.identity) = (read_only, identity);
        }
    }
}
