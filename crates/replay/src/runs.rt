//! Running the events of lines that were validated, one after another.
//!
//! Each line is read, its event handled and the text of its record sent before the next. Bytes that it spells are
//! written into room that is lent.

ghost use Rattle.std.specs.Prelude.{◌≢◌, ℕ, [], ◌∷◌, List, Err, length, true, false};
ghost use Rattle.board.specs.declared.event.Event.{Event};
ghost use Rattle.replay.specs.declared.fault.ReplayFault.{ReplayFault};
ghost use Rattle.replay.specs.Running.{AfterLines, HasRoomFor, RunsLine};
ghost use Rattle.replay.specs.Telling.{SendsRun};
ghost use Rattle.trace.specs.Events.{BeginsWithEvent};
ghost use Rattle.trace.specs.Sends.{waiting};
ghost use Rattle.trace.specs.Validating.{AreEventLines, AreLinesOf};

use crate::fault::ReplayFault;
use crate::running::{run_event, run_hosted_event};
use board::Board;
use sector_cache::Image;
use std::alloc::Allocator;
use std::io::Write;
use trace::{Buffer, take_event, take_input, take_mem_write, take_read, take_write};

/// How many bytes of text wait for the writer at most.
const TEXT_ROOM: usize = 65536;

/// Runs the events that the lines of a trace say, and writes the text of their records. `hosted` tells whether the
/// trace is.
pub(crate) fn run_text<W: Write, I: Image, A: Allocator + Copy>(
    alloc: A,
    board: &mut Board<I, A>,
    hosted: bool,
    lines: &[u8],
    room: &mut [u8],
    writer: &mut W,
) -> Result<(), ReplayFault>
    requires lines { AreEventLines A (length room.old) lines.now }
    ensures after { (events : List (Event A)) → AreLinesOf events lines.now →
        AfterLines hosted I.disk events board.old board.new (W.contents writer.old) (W.contents writer.new) result }
    ensures whole { (done : ℕ) → result ≢ Err (ReplayFault.Run done) }
{
    let Ok(mut text) = Buffer::with_room(alloc, TEXT_ROOM) else {
        return Err(ReplayFault::NoMemory);
    };
    run_lines(alloc, board, hosted, lines, room, &mut text, writer);
    text.flush(writer);
    if text.is_broken() {
        return Err(ReplayFault::Write);
    }
    Ok(())
}

// Runs the events that the lines say, and sends the text of their records. Where the writer fails the run goes on, so
// that what becomes of the image isn't decided by the writer.
fn run_lines<W: Write, I: Image, A: Allocator + Copy>(
    alloc: A,
    board: &mut Board<I, A>,
    hosted: bool,
    lines: &[u8],
    room: &mut [u8],
    text: &mut Buffer<A>,
    writer: &mut W,
)
    requires lines { AreEventLines A (length room.old) lines.now }
    ensures { (events : List (Event A)) → AreLinesOf events lines.now →
        SendsRun hosted I.disk board.old board.new events (W.contents writer.old) (W.contents writer.new) (waiting text.old) (waiting text.new) }
{
    let mut output = Vec::new(alloc);
    let mut rest = lines;
    while !rest.is_empty() {
        rest = run_line(alloc, board, hosted, rest, room, &mut output, text, writer);
    }
}

// Runs the event that the first line says, sends the text of its record, and answers what follows that line. Each kind of
// line that comes often has a call of its own, which knows the kind of its event.
fn run_line<'a, W: Write, I: Image, A: Allocator + Copy>(
    alloc: A,
    board: &mut Board<I, A>,
    hosted: bool,
    lines: &'a [u8],
    room: &mut [u8],
    output: &mut Vec<u8, A>,
    text: &mut Buffer<A>,
    writer: &mut W,
) -> &'a [u8]
    requires begins { BeginsWithEvent A lines.now }
    requires room { HasRoomFor A lines.now (length room.old) }
    ensures { RunsLine A lines.now result.now (λ event. SendsRun hosted I.disk board.old board.new (event ∷ [])
        (W.contents writer.old) (W.contents writer.new) (waiting text.old) (waiting text.new)) }
{
    if hosted {
        run_hosted_line(alloc, board, lines, room, output, text, writer)
    } else {
        run_plain_line(alloc, board, lines, room, output, text, writer)
    }
}

// The same of a trace that isn't hosted.
fn run_plain_line<'a, W: Write, I: Image, A: Allocator + Copy>(
    alloc: A,
    board: &mut Board<I, A>,
    lines: &'a [u8],
    room: &mut [u8],
    output: &mut Vec<u8, A>,
    text: &mut Buffer<A>,
    writer: &mut W,
) -> &'a [u8]
    requires begins { BeginsWithEvent A lines.now }
    requires room { HasRoomFor A lines.now (length room.old) }
    ensures { RunsLine A lines.now result.now (λ event. SendsRun false I.disk board.old board.new (event ∷ [])
        (W.contents writer.old) (W.contents writer.new) (waiting text.old) (waiting text.new)) }
{
    match lines {
        [word, b' ', rest @ ..] => match word {
            b'r' => {
                let (parsed, after) = take_read(rest);
                run_event(board, &parsed, room, output, text, writer);
                after
            }
            b'w' => {
                let (parsed, after) = take_write(rest);
                run_event(board, &parsed, room, output, text, writer);
                after
            }
            _ => run_other_line(alloc, board, lines, room, output, text, writer),
        },
        [b'm', b'w', b' ', rest @ ..] => {
            let (parsed, after) = take_mem_write(alloc, rest);
            run_event(board, &parsed, room, output, text, writer);
            after
        }
        [b'i', b'n', b' ', rest @ ..] => {
            let (parsed, after) = take_input(alloc, rest);
            run_event(board, &parsed, room, output, text, writer);
            after
        }
        _ => run_other_line(alloc, board, lines, room, output, text, writer),
    }
}

// The same of a line of any kind.
#[inline(never)]
fn run_other_line<'a, W: Write, I: Image, A: Allocator + Copy>(
    alloc: A,
    board: &mut Board<I, A>,
    lines: &'a [u8],
    room: &mut [u8],
    output: &mut Vec<u8, A>,
    text: &mut Buffer<A>,
    writer: &mut W,
) -> &'a [u8]
    requires begins { BeginsWithEvent A lines.now }
    requires room { HasRoomFor A lines.now (length room.old) }
    ensures { RunsLine A lines.now result.now (λ event. SendsRun false I.disk board.old board.new (event ∷ [])
        (W.contents writer.old) (W.contents writer.new) (waiting text.old) (waiting text.new)) }
{
    let (parsed, after) = take_event(alloc, lines);
    run_event(board, &parsed, room, output, text, writer);
    after
}

// The same of a hosted trace.
fn run_hosted_line<'a, W: Write, I: Image, A: Allocator + Copy>(
    alloc: A,
    board: &mut Board<I, A>,
    lines: &'a [u8],
    room: &mut [u8],
    output: &mut Vec<u8, A>,
    text: &mut Buffer<A>,
    writer: &mut W,
) -> &'a [u8]
    requires begins { BeginsWithEvent A lines.now }
    requires room { HasRoomFor A lines.now (length room.old) }
    ensures { RunsLine A lines.now result.now (λ event. SendsRun true I.disk board.old board.new (event ∷ [])
        (W.contents writer.old) (W.contents writer.new) (waiting text.old) (waiting text.new)) }
{
    match lines {
        [b'r', b' ', rest @ ..] => {
            let (parsed, after) = take_read(rest);
            run_hosted_event(board, &parsed, room, output, text, writer);
            after
        }
        [b'w', b' ', rest @ ..] => {
            let (parsed, after) = take_write(rest);
            run_hosted_event(board, &parsed, room, output, text, writer);
            after
        }
        [b'm', b'w', b' ', rest @ ..] => {
            let (parsed, after) = take_mem_write(alloc, rest);
            run_hosted_event(board, &parsed, room, output, text, writer);
            after
        }
        [b'i', b'n', b' ', rest @ ..] => {
            let (parsed, after) = take_input(alloc, rest);
            run_hosted_event(board, &parsed, room, output, text, writer);
            after
        }
        _ => {
            let (parsed, after) = take_event(alloc, lines);
            run_hosted_event(board, &parsed, room, output, text, writer);
            after
        }
    }
}
