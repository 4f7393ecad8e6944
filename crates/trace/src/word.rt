//! The words that lines begin with.

ghost use Rattle.std.specs.Prelude.{◌≡◌, ◌≢◌, ◌↔◌, IsTrue, IfSome, IfNone};
ghost use Rattle.trace.specs.Text.{device_host_word, device_word, host_word, word_for};
ghost use Rattle.trace.specs.Words.{IsWordOf, spelled};
ghost use Rattle.trace.specs.declared.word.Word.{Word};

use crate::format::Format;
use board::{DeviceEvent, EventKind, HostEvent};
use std::alloc::Allocator;

/// The first word of a line after the header. The second line has `Cache`, the later ones the others.
#[derive(Clone, Copy, Debug, PartialEq, Eq)]
pub enum Word {
    Cache,
    Slot,
    Read,
    Write,
    MemRead,
    MemWrite,
    Input,
    Resize,
    Restore,
    Complete,
    Drop,
    Hold,
    Release,
    Plug,
    DeviceRead,
    DeviceWrite,
    Supply,
    Receive,
    TakeSent,
    DropSent,
    SetLink,
    DeviceResize,
    DeviceComplete,
    DeviceDrop,
    DeviceHold,
    DeviceRelease,
}

/// The word that a field is in some format.
pub(crate) fn word_of(field: &[u8]) -> Option<Word>
    ensures some { IfSome result (λ word. field.now ≡ spelled word) }
    ensures none { IfNone result ((word : Word) → field.now ≢ spelled word) }
{
    match field {
        b"r" => Some(Word::Read),
        b"w" => Some(Word::Write),
        b"mr" => Some(Word::MemRead),
        b"mw" => Some(Word::MemWrite),
        b"in" => Some(Word::Input),
        b"sz" => Some(Word::Resize),
        b"st" => Some(Word::Restore),
        b"io" => Some(Word::Complete),
        b"drop" => Some(Word::Drop),
        b"hold" => Some(Word::Hold),
        b"release" => Some(Word::Release),
        b"plug" => Some(Word::Plug),
        b"dr" => Some(Word::DeviceRead),
        b"dw" => Some(Word::DeviceWrite),
        b"supply" => Some(Word::Supply),
        b"frame" => Some(Word::Receive),
        b"take" => Some(Word::TakeSent),
        b"dsent" => Some(Word::DropSent),
        b"link" => Some(Word::SetLink),
        b"dsz" => Some(Word::DeviceResize),
        b"dio" => Some(Word::DeviceComplete),
        b"ddrop" => Some(Word::DeviceDrop),
        b"dhold" => Some(Word::DeviceHold),
        b"drelease" => Some(Word::DeviceRelease),
        b"slot" => Some(Word::Slot),
        b"cache" => Some(Word::Cache),
        _ => None,
    }
}

/// The word of a format that a field is.
pub(crate) fn word_in(format: Format, field: &[u8]) -> Option<Word>
    ensures some { IfSome result (λ word. field.now ≡ spelled word) }
    ensures of_format { IfSome result (IsWordOf format) }
    ensures none { IfNone result ((word : Word) → IsWordOf format word → field.now ≢ spelled word) }
{
    let word = word_of(field)?;
    if !is_word_of(format, word) {
        return None;
    }
    Some(word)
}

/// Whether a format has the word.
pub(crate) fn is_word_of(format: Format, word: Word) -> bool
    ensures { IsTrue result ↔ IsWordOf format word }
{
    match word {
        Word::Cache
        | Word::Slot
        | Word::Read
        | Word::Write
        | Word::MemRead
        | Word::MemWrite
        | Word::Input
        | Word::Resize => true,
        _ => format == Format::Extended,
    }
}

/// The word of what an event does.
pub(crate) fn word_for<A: Allocator>(what: &EventKind<A>) -> Word
    ensures { result ≡ word_for what.now }
{
    match what {
        EventKind::Read { .. } => Word::Read,
        EventKind::Write { .. } => Word::Write,
        EventKind::MemRead { .. } => Word::MemRead,
        EventKind::MemWrite { .. } => Word::MemWrite,
        EventKind::Input { .. } => Word::Input,
        EventKind::Resize { .. } => Word::Resize,
        EventKind::Restore { .. } => Word::Restore,
        EventKind::Host(said) => host_word(said),
        EventKind::Device { what, .. } => device_word(what),
    }
}

// The word of what the host says of a disk that it serves.
fn host_word(said: &HostEvent) -> Word
    ensures { result ≡ host_word said.now }
{
    match said {
        HostEvent::Complete { .. } => Word::Complete,
        HostEvent::Drop => Word::Drop,
        HostEvent::Hold => Word::Hold,
        HostEvent::Release => Word::Release,
    }
}

// The word of what is done to a further device.
fn device_word<A: Allocator>(done: &DeviceEvent<A>) -> Word
    ensures { result ≡ device_word done.now }
{
    match done {
        DeviceEvent::Plug(_) => Word::Plug,
        DeviceEvent::Read { .. } => Word::DeviceRead,
        DeviceEvent::Write { .. } => Word::DeviceWrite,
        DeviceEvent::Supply { .. } => Word::Supply,
        DeviceEvent::Receive { .. } => Word::Receive,
        DeviceEvent::TakeSent => Word::TakeSent,
        DeviceEvent::DropSent => Word::DropSent,
        DeviceEvent::SetLink { .. } => Word::SetLink,
        DeviceEvent::Resize { .. } => Word::DeviceResize,
        DeviceEvent::Host(said) => device_host_word(said),
    }
}

// The word of what the host says of a further disk.
fn device_host_word(said: &HostEvent) -> Word
    ensures { result ≡ device_host_word said.now }
{
    match said {
        HostEvent::Complete { .. } => Word::DeviceComplete,
        HostEvent::Drop => Word::DeviceDrop,
        HostEvent::Hold => Word::DeviceHold,
        HostEvent::Release => Word::DeviceRelease,
    }
}

/// How a word is spelled.
pub(crate) fn spelling_of(word: Word) -> &'static [u8]
    ensures { result.now ≡ spelled word }
{
    match word {
        Word::Read => b"r",
        Word::Write => b"w",
        Word::MemRead => b"mr",
        Word::MemWrite => b"mw",
        Word::Input => b"in",
        Word::Resize => b"sz",
        Word::Restore => b"st",
        Word::Complete => b"io",
        Word::Drop => b"drop",
        Word::Hold => b"hold",
        Word::Release => b"release",
        Word::Plug => b"plug",
        Word::DeviceRead => b"dr",
        Word::DeviceWrite => b"dw",
        Word::Supply => b"supply",
        Word::Receive => b"frame",
        Word::TakeSent => b"take",
        Word::DropSent => b"dsent",
        Word::SetLink => b"link",
        Word::DeviceResize => b"dsz",
        Word::DeviceComplete => b"dio",
        Word::DeviceDrop => b"ddrop",
        Word::DeviceHold => b"dhold",
        Word::DeviceRelease => b"drelease",
        Word::Slot => b"slot",
        Word::Cache => b"cache",
    }
}

/// Whether a field is the word of the second line.
pub(crate) fn is_cache(field: &[u8]) -> bool
    ensures { IsTrue result ↔ (field.now ≡ spelled Word.Cache) }
{
    matches!(field, b"cache")
}
