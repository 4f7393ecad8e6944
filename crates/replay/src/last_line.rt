//! How a program tells what became of a replay: by its last line and its status.

ghost use Rattle.std.specs.Prelude.{◌≡◌, ◌++◌, ℕ, codes, OnOk, IfErr};
ghost use Rattle.std.specs.Bool.{OnTrue};
ghost use Rattle.std.specs.Io.KnownBytes.{Appends, Keeps};
ghost use Rattle.board.specs.declared.fault.BoardFault.{BoardFault};
ghost use Rattle.trace.specs.Sends.{AppendsFront};
ghost use Rattle.replay.specs.LastLine.{Ends, board_ending, ending_of, kind_name, trace_ending};
ghost use Rattle.trace.specs.Text.{ended};

use crate::fault::ReplayFault;
use board::{BoardFault, SlotFault};
use guest_memory::MemoryFault;
use sector_cache::CacheFault;
use std::io::Write;
use trace::{FaultKind, TraceFault, write_whole};

/// The status after a replay that came to its end.
const DONE: u8 = 0;

/// The status where a trace or a board was refused.
const REFUSED: u8 = 1;

/// The status where memory, the input or the output failed.
const FAILED: u8 = 3;

/// The last line where memory was wanting.
const MEMORY: &str = "fault memory\n";

/// Writes the last line for what came of a replay, and answers the status to exit with: 0 where it came
/// to its end, 1 where the trace or the board was refused, and 3 for all else, a last line that can't be
/// written among it.
pub fn finish<W: Write>(outcome: &Result<(), ReplayFault>, out: &mut W) -> u8
    ensures done { OnOk outcome.now (result ≡ 0) }
    ensures silent { OnOk outcome.now (Keeps (W.contents out.old) (W.contents out.new)) }
    ensures fault { IfErr outcome.now (λ fault. Ends (ending_of fault) result (W.contents out.old) (W.contents out.new)) }
{
    let Err(fault) = outcome else {
        return DONE;
    };
    if write_fault(fault, out) {
        status_of(fault)
    } else {
        FAILED
    }
}

// The status for a fault.
fn status_of(fault: &ReplayFault) -> u8
    ensures { result ≡ (ending_of fault.now).status }
{
    match fault {
        ReplayFault::Trace(fault) => match fault.kind {
            FaultKind::NoMemory => FAILED,
            _ => REFUSED,
        },
        ReplayFault::Board(fault) if !fault.lacks_memory() => REFUSED,
        _ => FAILED,
    }
}

// Writes the last line for a fault, and answers whether it went out.
fn write_fault<W: Write>(fault: &ReplayFault, out: &mut W) -> bool
    ensures whole { OnTrue result (Appends (W.contents out.old) (W.contents out.new) (ending_of fault.now).line) }
    ensures front { AppendsFront (W.contents out.old) (W.contents out.new) (ending_of fault.now).line }
{
    match fault {
        ReplayFault::Read => write_whole(out, b"fault input\n"),
        ReplayFault::Trace(fault) => write_trace_fault(fault, out),
        ReplayFault::Board(fault) => write_whole(out, board_line(fault).as_bytes()),
        ReplayFault::Run(_) => write_whole(out, MEMORY.as_bytes()),
        ReplayFault::Write => write_whole(out, b"fault output\n"),
        ReplayFault::NoMemory => write_whole(out, MEMORY.as_bytes()),
    }
}

// Writes the last line for a trace's fault, and answers whether it went out.
fn write_trace_fault<W: Write>(fault: &TraceFault, out: &mut W) -> bool
    ensures whole { OnTrue result (Appends (W.contents out.old) (W.contents out.new) (trace_ending fault.now.line fault.now.kind).line) }
    ensures front { AppendsFront (W.contents out.old) (W.contents out.new) (trace_ending fault.now.line fault.now.kind).line }
{
    match fault.kind {
        FaultKind::NoMemory => write_whole(out, MEMORY.as_bytes()),
        kind => {
            let mut digits = itoa::Buffer::new();
            let line = digits.format(fault.line).as_bytes();
            write_three(out, b"fault trace ", line, kind_end(kind).as_bytes())
        }
    }
}

// The end of a trace's last line, from after the number on.
fn kind_end(kind: FaultKind) -> &'static str
    ensures { result.now ≡ codes " " ++ ended (kind_name kind) }
{
    match kind {
        FaultKind::Cut => " Cut\n",
        FaultKind::Header => " Header\n",
        FaultKind::Word => " Word\n",
        FaultKind::Order => " Order\n",
        FaultKind::Fields => " Fields\n",
        FaultKind::Number => " Number\n",
        FaultKind::Choice => " Choice\n",
        FaultKind::Bytes => " Bytes\n",
        FaultKind::NoMemory => " NoMemory\n",
    }
}

// The last line for a board's fault.
fn board_line(fault: &BoardFault) -> &'static str
    ensures { result.now ≡ (board_ending fault.now).line }
{
    match fault {
        BoardFault::NoSlots => "fault board NoSlots\n",
        BoardFault::TooManySlots => "fault board TooManySlots\n",
        BoardFault::Slot { slot: _, fault } => slot_line(fault),
        BoardFault::Cache(CacheFault::BadCapacity) => "fault board BadCapacity\n",
        // All others lack memory.
        _ => MEMORY,
    }
}

// The last line for a slot's fault.
fn slot_line(fault: &SlotFault) -> &'static str
    ensures { (number : ℕ) → result.now ≡ (board_ending (BoardFault.Slot number fault.now)).line }
{
    match fault {
        SlotFault::Memory { region: _, fault } => match fault {
            MemoryFault::NoRegions => "fault board NoRegions\n",
            MemoryFault::BadSize => "fault board BadSize\n",
            MemoryFault::BadBase => "fault board BadBase\n",
            MemoryFault::NotApart => "fault board NotApart\n",
            MemoryFault::NoMemory => MEMORY,
        },
        SlotFault::BadDepth => "fault board BadDepth\n",
        SlotFault::ExtentOutside => "fault board ExtentOutside\n",
        SlotFault::ExtentsOverlap => "fault board ExtentsOverlap\n",
    }
}

// Writes three runs of bytes, one after another.
fn write_three<W: Write>(out: &mut W, one: &[u8], two: &[u8], three: &[u8]) -> bool
    ensures whole { OnTrue result (Appends (W.contents out.old) (W.contents out.new) (one.now ++ (two.now ++ three.now))) }
    ensures front { AppendsFront (W.contents out.old) (W.contents out.new) (one.now ++ (two.now ++ three.now)) }
{
    if !write_whole(out, one) {
        return false;
    }
    if !write_whole(out, two) {
        return false;
    }
    write_whole(out, three)
}
