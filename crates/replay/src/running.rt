//! Running an event on a board, and sending the text of what it came to.
//!
//! Memory that is read is printed where it lies.

ghost use Rattle.std.specs.Prelude.{◌≡◌, ◌≤◌, ◌∷◌, ◌/◌, [], true, false, IfSome, length};
ghost use Rattle.std.specs.List.{slice_get};
ghost use Rattle.board.specs.declared.event.EventKind.{EventKind};
ghost use Rattle.board.specs.declared.reply.Reply.{Reply};
ghost use Rattle.board.specs.Image.{Tells};
ghost use Rattle.board.specs.InPlace.{event_in};
ghost use Rattle.board.specs.Slot.{AreInterruptWords};
ghost use Rattle.trace.specs.Sends.{Sends, waiting};
ghost use Rattle.trace.specs.Validating.{parsed_len};
ghost use Rattle.replay.specs.Running.{AnswersEvent, AnswersParsed, IsPart, RunsParsed, words_of, IsForDevice};
ghost use Rattle.replay.specs.Telling.{SendsRun};
ghost use Rattle.trace.specs.ParsedEvent.{IsFineParsed};
ghost use Rattle.hexadecimal.specs.Fields.{IsBytesField};
ghost use Rattle.trace.specs.Words.{Says, Bytes as ByBytes};

use crate::asking::{put_asked, staying, staying_further};
use board::{
    Board, DeviceEvent, DeviceInPlace, Event, EventKind, Handled, InPlace, Reply, RestoreRefusal,
    SlotWindow,
};
use sector_cache::Image;
use std::alloc::Allocator;
use std::io::Write;
use trace::{
    Buffer, ParsedEvent, put_asked_end, put_fields, put_line, put_read, read_bytes, spelled_len,
};

/// Runs an event of a trace that isn't hosted, and sends the text of its record. What the console puts out waits in `output`
/// meanwhile. It is read into its caller, who knows the kind of the event: nothing here may keep a reference to it.
#[inline(always)]
pub(crate) fn run_event<W: Write, I: Image, A: Allocator + Copy>(
    board: &mut Board<I, A>,
    parsed: &ParsedEvent<'_, A>,
    room: &mut [u8],
    output: &mut Vec<u8, A>,
    text: &mut Buffer<A>,
    writer: &mut W,
)
    requires fine { IsFineParsed parsed.now }
    requires room { parsed_len parsed.now ≤ length room.old }
    ensures { RunsParsed parsed.now (λ event. SendsRun false I.disk board.old board.new (event ∷ [])
        (W.contents writer.old) (W.contents writer.new) (waiting text.old) (waiting text.new)) }
{
    output.clear();
    let slot = parsed.event.slot;
    if let EventKind::MemRead { addr, len } = parsed.event.what {
        if let Some(part) = part_of(board, slot, addr, len) {
            put_read(text, writer, slot, part, words(board, slot), b'\n');
            return;
        }
    }
    let Handled {
        reply,
        block_irq,
        console_irq,
    } = answer(board, parsed, room, output);
    let words = (block_irq, console_irq);
    put_line(text, writer, slot, &reply, output.as_slice(), words);
}

/// The same of a hosted trace.
#[inline(never)]
pub(crate) fn run_hosted_event<W: Write, I: Image, A: Allocator + Copy>(
    board: &mut Board<I, A>,
    parsed: &ParsedEvent<'_, A>,
    room: &mut [u8],
    output: &mut Vec<u8, A>,
    text: &mut Buffer<A>,
    writer: &mut W,
)
    requires fine { IsFineParsed parsed.now }
    requires room { parsed_len parsed.now ≤ length room.old }
    ensures { RunsParsed parsed.now (λ event. SendsRun true I.disk board.old board.new (event ∷ [])
        (W.contents writer.old) (W.contents writer.new) (waiting text.old) (waiting text.new)) }
{
    output.clear();
    let slot = parsed.event.slot;
    if let EventKind::MemRead { addr, len } = parsed.event.what {
        if let Some(part) = part_of(board, slot, addr, len) {
            put_read(text, writer, slot, part, words(board, slot), b' ');
            put_asked_end(text, writer, true);
            return;
        }
    }
    let stayed = staying(board, &parsed.event);
    let stayed_further = staying_further(board, &parsed.event);
    let Handled {
        reply,
        block_irq,
        console_irq,
    } = answer(board, parsed, room, output);
    let words = (block_irq, console_irq);
    put_fields(text, writer, slot, &reply, output.as_slice(), words, b' ');
    put_asked(text, writer, board, &parsed.event, stayed, stayed_further);
}

// The bytes of a slot's memory from an address on, where they lie.
fn part_of<I: Image, A: Allocator>(
    board: &Board<I, A>,
    slot: u8,
    addr: u64,
    len: u32,
) -> Option<&[u8]>
    ensures { IfSome result (λ part. IsPart board.now slot addr len part.now) }
{
    board.memory(slot)?.part(addr, u64::from(len))
}

// The interrupt words of a slot.
fn words<I: Image, A: Allocator>(board: &Board<I, A>, slot: u8) -> (u8, u8)
    ensures is { result ≡ words_of (slice_get board.now.slots slot) }
    ensures block { result.0 ≤ 3 }
    ensures console { result.1 ≤ 3 }
{
    match board.interrupts(slot) {
        Some(words) => words,
        None => (0, 0),
    }
}

// Handles an event, and tells both interrupt words after it.
#[inline(always)]
fn answer<I: Image, A: Allocator + Copy>(
    board: &mut Board<I, A>,
    parsed: &ParsedEvent<'_, A>,
    room: &mut [u8],
    output: &mut Vec<u8, A>,
) -> Handled<A>
    requires fine { IsFineParsed parsed.now }
    requires room { parsed_len parsed.now ≤ length room.old }
    requires empty { output.old.items ≡ [] }
    ensures answers { AnswersParsed I.disk parsed.now board.old result.reply output.new.items board.new }
    ensures words { Tells (I.disk board.old.image) →
        (result.block_irq, result.console_irq) ≡ words_of (slice_get board.new.slots parsed.now.event.slot) }
    ensures few { AreInterruptWords result.block_irq result.console_irq }
{
    let slot = parsed.event.slot;
    match parsed.event.what {
        EventKind::Read {
            window,
            offset,
            width,
        } => {
            let reply = read(board, slot, window, offset, width);
            told(reply, words(board, slot))
        }
        EventKind::MemWrite { addr, .. } => {
            let reply = write_memory(board, slot, addr, bytes_in(room, parsed.bytes));
            told(reply, words(board, slot))
        }
        EventKind::Input { .. } => {
            let bytes = bytes_in(room, parsed.bytes);
            let reply = do_in_place(board, slot, InPlace::Input(bytes));
            told(reply, words(board, slot))
        }
        EventKind::Restore { .. } => {
            let reply = restore(board, slot, bytes_in(room, parsed.bytes));
            told(reply, words(board, slot))
        }
        EventKind::Device { .. } => answer_device(board, parsed, room, output),
        _ => board.handle(slot, &parsed.event.what, output),
    }
}

// Handles what is done to a further device, and tells both interrupt words after it.
fn answer_device<I: Image, A: Allocator + Copy>(
    board: &mut Board<I, A>,
    parsed: &ParsedEvent<'_, A>,
    room: &mut [u8],
    output: &mut Vec<u8, A>,
) -> Handled<A>
    requires device { IsForDevice parsed.now.event.what }
    requires fine { IsFineParsed parsed.now }
    requires room { parsed_len parsed.now ≤ length room.old }
    requires empty { output.old.items ≡ [] }
    ensures answers { AnswersParsed I.disk parsed.now board.old result.reply output.new.items board.new }
    ensures words { Tells (I.disk board.old.image) →
        (result.block_irq, result.console_irq) ≡ words_of (slice_get board.new.slots parsed.now.event.slot) }
    ensures few { AreInterruptWords result.block_irq result.console_irq }
{
    let slot = parsed.event.slot;
    let EventKind::Device { device, what } = &parsed.event.what else {
        unreachable!();
    };
    let device = *device;
    match what {
        DeviceEvent::Supply { .. } => {
            let bytes = bytes_in(room, parsed.bytes);
            let reply = do_in_place(
                board,
                slot,
                InPlace::Device {
                    device,
                    what: DeviceInPlace::Supply(bytes),
                },
            );
            told(reply, words(board, slot))
        }
        DeviceEvent::Receive { .. } => {
            let frame = bytes_in(room, parsed.bytes);
            let reply = do_in_place(
                board,
                slot,
                InPlace::Device {
                    device,
                    what: DeviceInPlace::Receive(frame),
                },
            );
            told(reply, words(board, slot))
        }
        _ => board.handle(slot, &parsed.event.what, output),
    }
}

// What an event came to, by its reply and both interrupt words after it.
#[inline]
fn told<A: Allocator>(reply: Reply<A>, words: (u8, u8)) -> Handled<A>
    ensures { result ≡ record { reply = reply; block_irq = words.0; console_irq = words.1 } }
{
    Handled {
        reply,
        block_irq: words.0,
        console_irq: words.1,
    }
}

// Writes the bytes that a field spells to the front of the room, and answers that front.
fn bytes_in<'a>(room: &'a mut [u8], field: &[u8]) -> &'a [u8]
    requires spelled { Says ByBytes field.now }
    requires room { length field.now / 2 ≤ length room.old }
    ensures { IsBytesField field.now result.now }
{
    let bytes = &mut room[..spelled_len(field)];
    read_bytes(field, bytes);
    bytes
}

// Reads a register of a slot.
#[inline(always)]
fn read<I: Image, A: Allocator + Copy>(
    board: &Board<I, A>,
    slot: u8,
    window: SlotWindow,
    offset: u16,
    width: u8,
) -> Reply<A>
    ensures { AnswersEvent I.disk board.now (record { slot = slot; what = EventKind.Read window offset width }) result [] board.now }
{
    match board.read(slot, window, offset, width) {
        Some(value) => Reply::Value(value),
        None => Reply::BadSlot,
    }
}

// Writes bytes to a slot's memory.
#[inline(always)]
fn write_memory<I: Image, A: Allocator>(
    board: &mut Board<I, A>,
    slot: u8,
    addr: u64,
    bytes: &[u8],
) -> Reply<A>
    ensures { AnswersEvent I.disk board.old (record { slot = slot; what = EventKind.MemWrite addr bytes.now }) result [] board.new }
{
    if board.write_memory(slot, addr, bytes) {
        Reply::Done
    } else if (slot as usize) < board.slots() {
        Reply::BadRange
    } else {
        Reply::BadSlot
    }
}

// Does an event of a slot whose bytes are in a slice.
#[inline(always)]
fn do_in_place<I: Image, A: Allocator + Copy>(
    board: &mut Board<I, A>,
    slot: u8,
    what: InPlace<'_>,
) -> Reply<A>
    ensures { AnswersEvent I.disk board.old (record { slot = slot; what = event_in what.entry }) result [] board.new }
{
    board.do_in_place(slot, what)
}

// Restores a slot's devices from a snapshot.
fn restore<I: Image, A: Allocator>(board: &mut Board<I, A>, slot: u8, bytes: &[u8]) -> Reply<A>
    ensures { AnswersEvent I.disk board.old (record { slot = slot; what = EventKind.Restore bytes.now }) result [] board.new }
{
    match board.restore(slot, bytes) {
        Ok(()) => Reply::Done,
        Err(RestoreRefusal::BadSlot) => Reply::BadSlot,
        Err(RestoreRefusal::Busy) => Reply::Busy,
        Err(RestoreRefusal::Fault(_)) => Reply::BadState,
    }
}
