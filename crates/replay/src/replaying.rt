//! Replaying a trace: from its text to the text of its records.
//!
//! The text goes through two passes: `validate` looks at all of it, and `run_text` then reads and runs line by line.

ghost use Rattle.std.specs.Prelude.{◌≡◌, ◌≢◌, ℕ, All, List, Some, Err, IfErr, IfOk, OnOk, length, map};
ghost use Rattle.board.specs.declared.event.Event.{Event};
ghost use Rattle.board.specs.declared.spec.SlotSpec.{SlotSpec};
ghost use Rattle.board.specs.Fault.{IsAccepted};
ghost use Rattle.board.specs.Slot.{opened};
ghost use Rattle.replay.specs.declared.fault.ReplayFault.{ReplayFault};
ghost use Rattle.trace.specs.Asked.{is_hosted};
ghost use Rattle.trace.specs.Validating.{AreEventLines, AreLinesOf, IsValidated, validation};
ghost use Rattle.replay.specs.Limits.{IsSmallMemory};
ghost use Rattle.replay.specs.Replay.{AfterRun, EndsReading, HasTooMany, RefusesBoardOf, Replays, front};

use crate::fault::ReplayFault;
use crate::input::gather;
use crate::limits::limit_memories;
use crate::runs::run_text;
use board::{Board, BoardFault, SlotSpec};
use sector_cache::{Image, Refused};
use std::alloc::Allocator;
use std::io::{Read, Write};
use trace::{FaultKind, Format, TraceFault, Validated, Version, is_hosted, validate};

/// The fault where there is no memory for the input.
const NO_ROOM: TraceFault = TraceFault {
    line: 1,
    kind: FaultKind::NoMemory,
};

/// How many slots a trace of version 1 has at most.
const MOST_SLOTS_IN_VERSION_1: usize = 16;

/// Reads a trace to the reader's end, makes its board over the image, runs its events, and writes the
/// text of their records, whole. The image is handed back as it then stands.
pub fn replay<R: Read, W: Write, I: Image, A: Allocator + Copy>(
    alloc: A,
    reader: &mut R,
    writer: &mut W,
    image: I,
) -> (I, Result<(), ReplayFault>)
    ensures comes_to { Replays A I.disk (R.remaining reader.old) (W.contents writer.old) (W.contents writer.new) image result.0 result.1 }
    ensures end { EndsReading result.1 (R.remaining reader.new) }
    ensures whole { (done : ℕ) → result.1 ≢ Err (ReplayFault.Run done) }
{
    match gather(alloc, reader) {
        Ok(text) => replay_text(alloc, &text, writer, image),
        Err(ReplayFault::NoMemory) => (image, Err(ReplayFault::Trace(NO_ROOM))),
        Err(_) => (image, Err(ReplayFault::Read)),
    }
}

/// The same of a text that was gathered before. It is validated whole before the first event, of which none is kept.
pub fn replay_text<W: Write, I: Image, A: Allocator + Copy>(
    alloc: A,
    text: &[u8],
    writer: &mut W,
    image: I,
) -> (I, Result<(), ReplayFault>)
    ensures comes_to { Replays A I.disk (Some text.now) (W.contents writer.old) (W.contents writer.new) image result.0 result.1 }
    ensures read { result.1 ≢ Err ReplayFault.Read }
    ensures whole { (done : ℕ) → result.1 ≢ Err (ReplayFault.Run done) }
{
    let validated = match validate(alloc, text) {
        Ok(validated) => validated,
        Err(fault) => return (image, Err(ReplayFault::Trace(fault))),
    };
    let Ok(mut room) = vec![in alloc; 0; validated.longest] else {
        return (image, Err(ReplayFault::Trace(validated.no_room())));
    };
    replay_over(alloc, validated, room.as_mut_slice(), writer, image)
}

// The same of a text that was validated.
fn replay_over<W: Write, I: Image, A: Allocator + Copy>(
    alloc: A,
    mut validated: Validated<'_, A>,
    room: &mut [u8],
    writer: &mut W,
    image: I,
) -> (I, Result<(), ReplayFault>)
    requires { AreEventLines A (length room.old) validated.events.now }
    ensures comes_to { (text : List ℕ) → IsValidated A text (validation validated.entry) →
        Replays A I.disk (Some text) (W.contents writer.old) (W.contents writer.new) image result.0 result.1 }
    ensures read { result.1 ≢ Err ReplayFault.Read }
    ensures whole { (done : ℕ) → result.1 ≢ Err (ReplayFault.Run done) }
{
    let hosted = is_hosted(&validated.slots);
    match board_of(
        alloc,
        validated.format,
        validated.cache,
        &mut validated.slots,
        image,
    ) {
        Ok(board) => run_validated(alloc, board, hosted, validated.events, room, writer),
        Err(Refused { image, why }) => (image, Err(ReplayFault::Board(why))),
    }
}

// The board of a trace of this format, with this cache and these slots, over an image.
fn board_of<I: Image, A: Allocator + Copy>(
    alloc: A,
    format: Format,
    capacity: u32,
    slots: &mut [SlotSpec],
    image: I,
) -> Result<Board<I, A>, Refused<I, BoardFault>>
    ensures made { IfOk result (λ board. board ≡ record { slots = map opened slots.old; image = image }) }
    ensures few { OnOk result (¬ HasTooMany (front A format capacity slots.old)) }
    ensures small { OnOk result (All (IsSmallMemory format) slots.old) }
    ensures accepted { OnOk result (IsAccepted (I.disk image).sector_count slots.old capacity) }
    ensures fault { IfErr result (λ refused. RefusesBoardOf (I.disk image).sector_count (front A format capacity slots.old) refused.why) }
    ensures returned { IfErr result (λ refused. refused.image ≡ image) }
{
    if format == Format::Plain(Version::One) && slots.len() > MOST_SLOTS_IN_VERSION_1 {
        let why = BoardFault::TooManySlots;
        return Err(Refused { image, why });
    }
    limit_memories(format, slots);
    Board::new(alloc, slots, image, capacity)
}

// Runs the events of the lines on their board, which is new, and writes the text of their records.
fn run_validated<W: Write, I: Image, A: Allocator + Copy>(
    alloc: A,
    mut board: Board<I, A>,
    hosted: bool,
    lines: &[u8],
    room: &mut [u8],
    writer: &mut W,
) -> (I, Result<(), ReplayFault>)
    requires { AreEventLines A (length room.old) lines.now }
    ensures ended { (slots : List SlotSpec) (events : List (Event A)) →
        board.slots ≡ map opened slots → hosted ≡ is_hosted slots → AreLinesOf events lines.now →
        AfterRun I.disk slots events board.image result.0 (W.contents writer.old) (W.contents writer.new) result.1 }
    ensures whole { (done : ℕ) → result.1 ≢ Err (ReplayFault.Run done) }
{
    let outcome = run_text(alloc, &mut board, hosted, lines, room, writer);
    (board.into_image(), outcome)
}
