//! Reading a whole trace.
//!
//! `cut` takes lines and fields off. `entry` and `fields` read one line, whose `values` are read over the table of its
//! fields, and `fast_path` those that come most often. `choice`, `card`, `console`, `offset`, `regions` and `identity` read one field, of which `bytes_of` reads so many bytes, and `number` the front of a line. `parsed` is the
//! event that a line says, with its bytes still spelled. `validating` goes over a whole text and keeps what stands before its
//! events, `events` takes these one by one, and `at_fault` finds the fault of a line, and its field.

ghost use Rattle.std.specs.Prelude.{◌≡◌, ◌≢◌, ◌≤◌, IfOk, IfErr, OnOk};
ghost use Rattle.trace.specs.Faults.{IsFault, IsCleanBefore};
ghost use Rattle.trace.specs.Text.{Content, content, text as text_of};
ghost use Rattle.trace.specs.Printable.{InRange, IsPrintable};
ghost use Rattle.trace.specs.Refusals.{RefusesHead, IsFirst, IsHead, IsSecond, RefusesSecond, AddsLine, AddsParsed, RefusesLine, has_begun};
ghost use Rattle.trace.specs.ParsedEvent.{IsFineParsed};

mod at_fault;
mod bytes_of;
mod card;
mod choice;
mod console;
mod cut;
mod device_fields;
mod entry;
mod event_line;
mod events;
mod fast_path;
mod fields;
mod identity;
mod number;
mod offset;
mod parsed_event;
mod regions;
mod trusting;
mod validating;
mod values;

use crate::fault::{FaultKind, TraceFault};
use crate::format::{Format, format_of};
use crate::read::at_fault::fault_in;
pub use crate::read::at_fault::{behind_named, field_at_fault, first_word};
pub use crate::read::cut::line_of;
use crate::read::cut::{take_field, take_line};
use crate::read::entry::{Entry, entry_of};
pub use crate::read::event_line::event_of_line;
pub use crate::read::events::{take_event, unrefused_line_begins};
use crate::read::fields::sectors_of;
pub use crate::read::parsed_event::ParsedEvent;
pub use crate::read::trusting::{take_input, take_mem_write, take_read, take_write};
pub use crate::read::validating::{Validated, validate};
use crate::trace::Trace;
use crate::word::{Word, is_cache};
use board::Event;
pub use hexadecimal::{read_bytes, spelled_len};
use std::alloc::{AllocError, Allocator};

/// The format and the capacity of the cache, from the first two lines, and what follows these.
pub(crate) fn after_head(text: &[u8]) -> Result<(Format, u32, &[u8]), TraceFault>
    ensures ok { IfOk result (λ x. IsHead text.now x.0 x.1 x.2.now) }
    ensures fault { IfErr result (λ e. e.kind ≢ FaultKind.NoMemory → IsFault text.now e.line e.kind) }
    ensures numbered { IfErr result (λ e. 1 ≤ e.line) }
    ensures clean { IfErr result (λ e. IsCleanBefore text.now e.line) }
{
    let (format, rest) = match after_header(text) {
        Ok(found) => found,
        Err(kind) => return Err(TraceFault { line: 1, kind }),
    };
    match after_cache(format, rest) {
        Ok((cache, rest)) => Ok((format, cache, rest)),
        Err(kind) => Err(TraceFault { line: 2, kind }),
    }
}

// The format that the first line names, and what follows it.
fn after_header(text: &[u8]) -> Result<(Format, &[u8]), FaultKind>
    ensures ok { IfOk result (λ x. IsFirst text.now x.0 x.1.now) }
    ensures err { IfErr result (λ fault. RefusesHead text.now fault) }
{
    let Some((line, rest)) = take_line(text) else {
        return Err(FaultKind::Cut);
    };
    let Some(format) = format_of(line) else {
        return Err(FaultKind::Header);
    };
    Ok((format, rest))
}

// The capacity of the cache, from the second line of a trace of a format, and what follows it.
fn after_cache(format: Format, rest: &[u8]) -> Result<(u32, &[u8]), FaultKind>
    ensures ok { IfOk result (λ x. IsSecond rest.now x.0 x.1.now) }
    ensures err { IfErr result (λ fault. RefusesSecond format rest.now fault) }
{
    let Some((line, after)) = take_line(rest) else {
        return Err(FaultKind::Cut);
    };
    let (first, others) = take_field(line);
    if !is_cache(first) {
        return Err(FaultKind::Word);
    }
    match sectors_of(format, others) {
        Some(cache) => Ok((cache, after)),
        None => Err(fault_in(format, Word::Cache, others)),
    }
}

/// The trace whose text this is. A `line` beside a fault is numbered from 1.
pub fn read_trace<A: Allocator + Copy>(alloc: A, text: &[u8]) -> Result<Trace<A>, TraceFault>
    // What is read has this text, and no other trace has it.
    ensures found { IfOk result (λ t. text.now ≡ text_of (content t)) }
    ensures printable { IfOk result (λ t. IsPrintable (content t)) }
    ensures range { IfOk result (λ t. InRange (content t)) }
    ensures only { IfOk result
        (λ t. (u : Content A) → InRange u → IsPrintable u → text.now ≡ text_of u → u ≡ content t) }

    // Where no memory was wanting, the fault is that of the text, and no trace has that text.
    ensures fault { IfErr result
        (λ e. e.kind ≢ FaultKind.NoMemory → IsFault text.now e.line e.kind) }
    ensures none { IfErr result
        (λ e. e.kind ≢ FaultKind.NoMemory → (u : Content A) → InRange u → IsPrintable u → text.now ≢ text_of u) }

    // No line before it has a fault, also where memory was wanting.
    ensures numbered { IfErr result (λ e. 1 ≤ e.line) }
    ensures clean { IfErr result (λ e. IsCleanBefore text.now e.line) }
{
    let (format, cache, mut rest) = after_head(text)?;
    let mut trace = Trace::new(alloc, format, cache);
    let mut line = 3;
    while !rest.is_empty() {
        let Some((this, after)) = take_line(rest) else {
            let kind = FaultKind::Cut;
            return Err(TraceFault { line, kind });
        };
        if let Err(kind) = add_line(alloc, &mut trace, this) {
            return Err(TraceFault { line, kind });
        }
        rest = after;
        line += 1;
    }
    Ok(trace)
}

/// Adds what a line says to what was read before it. After an error the trace is as it was.
fn add_line<A: Allocator + Copy>(
    alloc: A,
    trace: &mut Trace<A>,
    line: &[u8],
) -> Result<(), FaultKind>
    ensures ok { OnOk result (AddsLine (content trace.old) line.now (content trace.new)) }
    ensures err { IfErr result (λ fault. fault ≢ FaultKind.NoMemory →
        RefusesLine trace.old.format (has_begun (content trace.old)) line.now fault) }
{
    let begun = !trace.events.is_empty();
    match entry_of(alloc, trace.format, line, begun) {
        Ok(Entry::Slot(slot)) => match trace.slots.push(slot) {
            Ok(()) => Ok(()),
            Err(_) => Err(FaultKind::NoMemory),
        },
        Ok(Entry::Event(parsed)) => match add_event(alloc, &mut trace.events, parsed) {
            Ok(()) => Ok(()),
            Err(_) => Err(FaultKind::NoMemory),
        },
        Err(fault) => Err(fault),
    }
}

// Adds the event that a line says.
fn add_event<A: Allocator>(
    alloc: A,
    events: &mut Vec<Event<A>, A>,
    parsed: ParsedEvent<'_, A>,
) -> Result<(), AllocError>
    requires { IsFineParsed parsed }
    ensures { OnOk result (AddsParsed parsed.entry events.old.items events.new.items) }
{
    let event = parsed.into_event(alloc)?;
    events.push(event)?;
    Ok(())
}
