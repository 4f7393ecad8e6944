//! What a person is told on standard error where a call doesn't come to its end: what was wanted and what was found.

ghost use Rattle.std.specs.Prelude.{◌≡◌, Err};

use crate::fault::Fault;
use crate::lines::{Spelling, example_of, spelling_of};
use crate::manual::{Manual, VERSION, Wish, wish_of};
use crate::whose::slot_of;
use board::BoardFault;
use replay::ReplayFault;
use sector_cache::{BackingFile, FileCall, FileFailure, FileImage};
use std::alloc::Allocator;
use std::fmt::{Display, Formatter};
use std::{fmt, io};
use trace::{
    FaultKind, Field, Format, TraceFault, Version, behind_named, field_at_fault, fields_after,
    first_word, format_of, line_of,
};

/// One line for a person.
#[derive(Clone, Copy)]
pub enum Advice<'a> {
    /// Words that name no call, and how one looks.
    Words(&'static str, &'a [String]),
    /// What a program says of itself, to words that ask for it.
    Help(&'static str),
    /// The version, with the program's name.
    Version(&'static str),
    /// A word that isn't text.
    NoText,
    /// A file that can't be opened.
    Unopened(&'a str, io::Error),
    /// Something that can't be read to its end.
    Unread(&'a str),
    /// A file of which the length is none of an image.
    Ragged(&'a str),
    /// What can't be served in place, since it is neither a file nor a block device, and what somebody else holds a
    /// lock on.
    NoFile(&'a str),
    Locked(&'a str),
    /// A file that can't be saved to, because it can't be made, or written whole.
    Unmade(&'a str, io::Error),
    Unsaved(&'a str),
    /// Standard output that can't be written.
    Output,
    /// A line of a trace that is refused, its text, and the trace's format.
    Line(TraceFault, &'a [u8], Format),
    /// A board that is refused.
    Board(BoardFault),
    /// A trace of version 1 with more slots than that may have.
    ManySlots,
    /// How many calls of an image that was served in place failed, the first, and whose sector that was.
    Failed(&'a str, u64, FileFailure, Option<usize>),
    /// The numbers of the standard streams can't be held.
    Streams(io::Error),
    /// Want of memory, and what it was wanted for.
    Memory(&'static str),
}

/// Tells a person. Nothing depends on whether standard error can be written.
pub fn tell<R: Eprint>(rt: &R, advice: Advice<'_>) {
    let _ = rt.eprintln(advice);
}

/// Tells a person, and answers the fault.
pub fn refuse<T, F, R: Eprint>(rt: &R, fault: F, advice: Advice<'_>) -> Result<T, F>
    ensures { result ≡ Err fault }
{
    tell(rt, advice);
    Err(fault)
}

/// Tells a person why this text's replay did not come to its end, where it didn't.
pub fn told<T, R: Eprint>(
    rt: &R,
    text: &[u8],
    outcome: Result<T, ReplayFault>,
) -> Result<T, ReplayFault>
    ensures { result ≡ outcome }
{
    if let Err(fault) = &outcome {
        tell(rt, Advice::on_replay(*fault, text));
    }
    outcome
}

/// Tells a person how many calls of an image that was served in place have failed, where any has.
pub fn tell_failures<A: Allocator + Copy, R: Eprint, F: BackingFile>(
    rt: &R,
    alloc: A,
    text: &[u8],
    path: &str,
    image: &FileImage<F>,
) {
    if let Some(first) = image.first_failure() {
        let slot = match first.sector {
            Some(sector) => slot_of(alloc, text, sector),
            None => None,
        };
        tell(rt, Advice::Failed(path, image.failures(), first, slot));
    }
}

impl<'a> Advice<'a> {
    /// On a replay of this text.
    pub fn on_replay(fault: ReplayFault, text: &'a [u8]) -> Advice<'a> {
        match fault {
            ReplayFault::Read => Advice::Unread("the trace"),
            ReplayFault::Trace(fault) => match fault.kind {
                FaultKind::NoMemory => Advice::Memory("the trace"),
                _ => Advice::Line(fault, line_of(text, fault.line), format_in(text)),
            },
            ReplayFault::Board(fault) if fault.lacks_memory() => Advice::Memory("the board"),
            ReplayFault::Board(BoardFault::TooManySlots) if is_version_1(text) => Advice::ManySlots,
            ReplayFault::Board(fault) => Advice::Board(fault),
            ReplayFault::Run(_) | ReplayFault::NoMemory => Advice::Memory("the records"),
            ReplayFault::Write => Advice::Output,
        }
    }

    /// On words for which there is no call, a request for help or for the version among them.
    pub fn on_words(fault: Fault, manual: Manual, words: &'a [String]) -> Advice<'a> {
        match (fault, wish_of(words)) {
            (Fault::Replay(_), _) => Advice::Memory("the words"),
            (Fault::Usage, Some(Wish::Help)) => Advice::Help(manual.help),
            (Fault::Usage, Some(Wish::Version)) => Advice::Version(manual.name),
            (Fault::Usage, None) => Advice::Words(manual.call, words),
        }
    }

    /// On bytes that were to be read, of which there is a name for people.
    pub fn on_reading(fault: ReplayFault, name: &'a str) -> Advice<'a> {
        match fault {
            ReplayFault::NoMemory => Advice::Memory("the trace"),
            _ => Advice::Unread(name),
        }
    }
}

impl Display for Advice<'_> {
    fn fmt<W: fmt::Write>(&self, f: &mut Formatter<W>) -> fmt::Result {
        match self {
            Advice::Words(call, words) => write_words(f, call, words),
            Advice::Help(text) => write!(f, "{text}"),
            Advice::Version(name) => write!(f, "{name} {VERSION}"),
            Advice::NoText => write!(f, "a word is text in UTF-8; found one that isn't"),
            Advice::Unopened(name, error) => write!(f, "{name:?} can't be opened: {error}"),
            Advice::Unread(name) => write!(f, "{name:?} can't be read"),
            Advice::Ragged(name) => write!(
                f,
                "{name:?} is no image, which is whole sectors of 512 bytes each"
            ),
            Advice::NoFile(name) => write!(
                f,
                "{name:?} is neither a file nor a block device, so it can't be served in place"
            ),
            Advice::Locked(name) => write!(f, "{name:?} is locked: somebody else uses it"),
            Advice::Unmade(name, error) => write!(f, "{name:?} can't be made: {error}"),
            Advice::Unsaved(name) => write!(f, "{name:?} can't be written whole"),
            Advice::Output => write!(f, "standard output can't be written"),
            Advice::Line(fault, line, format) => write_line(f, *fault, line, *format),
            Advice::Board(fault) => write_board(f, *fault),
            Advice::ManySlots => write!(
                f,
                "the trace's board: after \"vreplay 1\" it has sixteen slots at most, after another first line sixty-four"
            ),
            Advice::Failed(name, count, first, slot) => {
                write!(f, "{name:?}: {count} failed of its calls, first ")?;
                write_failure(f, *first, *slot)
            }
            Advice::Streams(error) => write!(f, "the standard streams can't be held: {error}"),
            Advice::Memory(what) => write!(f, "no memory for {what}"),
        }
    }
}

// Why a board is refused; of a slot its number too, with the line where it stands.
fn write_board<W: fmt::Write>(f: &mut Formatter<W>, fault: BoardFault) -> fmt::Result {
    match fault {
        BoardFault::Slot { slot, fault } => {
            let line = usize::from(slot) + 3;
            write!(f, "slot {slot} (line {line}): {fault}")
        }
        fault => write!(f, "the trace's board: {fault}"),
    }
}

// Which call of a file failed, whose sector it was, and the system's error.
fn write_failure<W: fmt::Write>(
    f: &mut Formatter<W>,
    first: FileFailure,
    slot: Option<usize>,
) -> fmt::Result {
    let call = match first.call {
        FileCall::Read => "a read",
        FileCall::Write => "a write",
        FileCall::Sync => "a sync after a write",
    };
    let error = first.error;
    match (first.sector, slot) {
        (Some(sector), Some(number)) => {
            write!(f, "{call} of sector {sector} (slot {number}): {error}")
        }
        (Some(sector), None) => write!(f, "{call} of sector {sector}: {error}"),
        (None, _) => write!(f, "a sync: {error}"),
    }
}

/// How many words are shown.
const SHOWN_WORDS: usize = 8;

// The format that a text's first line names, and the plain one in version 2 where it names none.
fn format_in(text: &[u8]) -> Format {
    match format_of(line_of(text, 1)) {
        Some(format) => format,
        None => Format::Plain(Version::Two),
    }
}

fn is_version_1(text: &[u8]) -> bool {
    format_in(text) == Format::Plain(Version::One)
}

// How a call looks, and the words that were found.
fn write_words<W: fmt::Write>(f: &mut Formatter<W>, call: &str, words: &[String]) -> fmt::Result {
    write!(f, "a call is {call}; found")?;
    for word in words.iter().take(SHOWN_WORDS) {
        let shown = Shown(word.as_bytes());
        write!(f, " {shown}")?;
    }
    Ok(())
}

// Why a line of a trace is refused.
fn write_line<W: fmt::Write>(
    f: &mut Formatter<W>,
    fault: TraceFault,
    line: &[u8],
    format: Format,
) -> fmt::Result {
    let number = fault.line;
    write!(f, "line {number}: ")?;
    let wanted = match fault.kind {
        FaultKind::Cut => "each line ends with a line feed, and the first two are there",
        FaultKind::Header => "the first line is \"vreplay 1\", \"vreplay 2\" or \"kalyubos 1\"",
        FaultKind::Word => words_for(format, number),
        FaultKind::Order => "slots stand before all events",
        FaultKind::Fields => return write_fields(f, line, format),
        kind => {
            return match field_at_fault(format, line, kind) {
                Some((field, bytes)) => write_field(f, field, bytes),
                None => write!(f, "{kind}"),
            };
        }
    };
    let shown = Shown(line);
    write!(f, "{wanted}; found {shown}")
}

// With which words a line of this number begins.
fn words_for(format: Format, number: u64) -> &'static str {
    match (format, number) {
        (_, 2) => "the second line is the cache's, as \"cache 8\"",
        (Format::Plain(_), _) => "a line begins with slot, r, w, mr, mw, in or sz",
        (Format::Extended, _) =>
            "a line begins with slot, r, w, mr, mw, in, sz, st, io, drop, hold, release, plug, dr, dw, supply, frame, take, dsent, link, dsz, dio, ddrop, dhold or drelease",
    }
}

// How many fields a line has, and how it was found.
fn write_fields<W: fmt::Write>(f: &mut Formatter<W>, line: &[u8], format: Format) -> fmt::Result {
    let shown = Shown(line);
    let Some(word) = first_word(line) else {
        return write!(f, "found {shown}");
    };
    let behind = behind_named(line);
    let count = fields_after(format, word, behind).len();
    let (word, example) = example_of(format, word, behind);
    let fields = if count == 1 { "field" } else { "fields" };
    write!(
        f,
        "{word} has {count} {fields} after it, each after one space, as \"{word} {example}\"; found {shown}"
    )
}

// How the field is spelled that is at fault, and how it was found.
fn write_field<W: fmt::Write>(f: &mut Formatter<W>, field: Field, bytes: &[u8]) -> fmt::Result {
    let spelling = spelling_of(field);
    let shown = Shown(bytes);
    write!(f, "{spelling}; found {shown}")
}

impl Display for Spelling {
    fn fmt<W: fmt::Write>(&self, f: &mut Formatter<W>) -> fmt::Result {
        match self {
            Spelling::Number(name, bits) => write!(
                f,
                "{name} is lower case hexadecimal digits without zeros in front, of {bits} bits at most, as 1f"
            ),
            Spelling::Other(how) => write!(f, "{how}"),
        }
    }
}

/// How many bytes of what was found are shown.
const SHOWN_BYTES: usize = 40;

/// Bytes in quotes, at most so many of them, those that aren't printable in hexadecimal.
#[derive(Clone, Copy)]
struct Shown<'a>(&'a [u8]);

impl Display for Shown<'_> {
    fn fmt<W: fmt::Write>(&self, f: &mut Formatter<W>) -> fmt::Result {
        write!(f, "\"")?;
        for byte in self.0.iter().take(SHOWN_BYTES) {
            let byte = *byte;
            match byte {
                b'"' | b'\\' => write!(f, "\\{}", char::from(byte))?,
                b' '..=b'~' => write!(f, "{}", char::from(byte))?,
                _ => write!(f, "\\x{byte:02x}")?,
            }
        }
        let cut = if self.0.len() > SHOWN_BYTES { ".." } else { "" };
        write!(f, "\"{cut}")
    }
}
