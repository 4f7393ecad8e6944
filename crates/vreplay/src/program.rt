//! The program's work, over any runtime.

ghost use Rattle.std.specs.Prelude.{◌≡◌, ◌<◌, ◌⊎◌, Err, length};
ghost use Rattle.vreplay.specs.Words.{NamesNoCall, texts_of};

use crate::files::replay_files;
use crate::words::read_words;
use calls::{Advice, Fault, Manual, end, refuse, replayed, told, zero_image};
use replay::{ReplayFault, gather};
use sector_cache::BackingFile;
use std::alloc::Allocator;
use std::io;
use std::io::Write;
use std::rt::Files;

/// What the program says of itself.
const MANUAL: Manual = Manual {
    name: "vreplay",
    call: "vreplay alone, or vreplay TRACE IMAGE, with --save FILE or --in-place",
    help: HELP,
};

const HELP: &str =
    "vreplay replays a trace of guests' events over a board, and prints a record for each event.

Usage: vreplay
       vreplay TRACE IMAGE [--save FILE | --in-place]

Without words it reads the trace from standard input, over an image of eight sectors of zeros.

  TRACE          the trace's file, a text
  IMAGE          the image's file, whole sectors of 512 bytes; without --in-place it is only read
  --save FILE    writes the image's bytes to FILE after a replay that came to its end
  --in-place     reads and writes IMAGE where it lies
  --             what follows is a file's name, whatever it begins with
  -h, --help     prints this, to standard error
  -V, --version  prints the version, to standard error

Example: vreplay two-guests.trace disk.img --save after.img

Status: 0  the trace was replayed
        1  the trace or its board is refused
        2  the words name no call; so also after --help and --version
        3  a file, a stream or memory failed";

/// Does what the words after the program's name ask for, and answers the status. The memory for all but the words comes
/// from this allocator.
pub fn program<A: Allocator + Copy, R: Input + Print + Eprint + Files + AllocGlobal>(
    rt: &R,
    alloc: A,
    words: &[String],
) -> u8
where
    R::File: BackingFile,
    ensures usage { 0 < length words.now → NamesNoCall (texts_of words.now) → (result ≡ 2) ⊎ (result ≡ 3) }
    ensures only_usage { result ≡ 2 → NamesNoCall (texts_of words.now) }
    ensures some_words { result ≡ 2 → 0 < length words.now }
{
    let mut out = io::writer(rt);
    let outcome = carry_out(rt, alloc, words, &mut out);
    end(&outcome, &mut out)
}

// Does what the words ask for, all but the last line.
fn carry_out<A: Allocator + Copy, R: Input + Eprint + Files + AllocGlobal, W: Write>(
    rt: &R,
    alloc: A,
    words: &[String],
    out: &mut W,
) -> Result<(), Fault>
where
    R::File: BackingFile,
    ensures refused { 0 < length words.now → NamesNoCall (texts_of words.now) → (result ≡ Err Fault.Usage) ⊎ (result ≡ Err (Fault.Replay ReplayFault.NoMemory)) }
    ensures usage { result ≡ Err Fault.Usage → NamesNoCall (texts_of words.now) }
    ensures some_words { result ≡ Err Fault.Usage → 0 < length words.now }
{
    if words.is_empty() {
        return Ok(replay_input(rt, alloc, out)?);
    }
    let call = match read_words(rt.alloc(), words) {
        Ok(call) => call,
        Err(fault) => return refuse(rt, fault, Advice::on_words(fault, MANUAL, words)),
    };
    replay_files(rt, alloc, &call, out)?;
    Ok(())
}

// Replays standard input over an image of zeros.
fn replay_input<A: Allocator + Copy, R: Input + Eprint, W: Write>(
    rt: &R,
    alloc: A,
    out: &mut W,
) -> Result<(), ReplayFault> {
    let image = match zero_image(alloc) {
        Ok(image) => image,
        Err(fault) => return refuse(rt, fault, Advice::Memory("the image")),
    };
    let text = match gather(alloc, &mut rt.reader()) {
        Ok(text) => text,
        Err(fault) => return refuse(rt, fault, Advice::on_reading(fault, "standard input")),
    };
    told(rt, &text, replayed(alloc, &text, out, image))?;
    Ok(())
}
