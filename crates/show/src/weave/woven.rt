//! The text that is put out: the records, and what is said between them.
//!
//! A record stands behind the one tab of its line. What else is said has no tab, so whoever takes of each line what stands
//! behind its first tab has the records.

ghost use Rattle.std.specs.Prelude.{◌≡◌, ◌≤◌, ◌++◌, OnOk, if◌then◌else◌, is_ok, length, take, drop, true, false, vec_len};
ghost use Rattle.std.specs.Bool.{OnFalse, OnTrue};
ghost use Rattle.std.specs.Io.{WritesAtMost};
ghost use Rattle.std.specs.Io.KnownBytes.{Keeps, WriteAppends};
ghost use Rattle.show.specs.Woven.{IsPiece, IsPlain, records_of, woven_records};

use crate::weave::text::Text;
use std::alloc::Global;
use std::io;
use std::io::{ErrorKind, Write};

/// How many bytes wait for the writer at most, but for what was said last.
const MOST_WAITING: usize = 65536;

/// A writer that is given records and what is said between them.
#[derive(Drop)]
pub struct Woven<W: Write + Drop> {
    out: W,
    waiting: Vec<u8>,
    is_inside: bool,
    is_full: bool,
}

impl<W: Write + Drop> Woven<W> {
    /// One in front of a writer. This takes no memory.
    pub fn new(alloc: Global, out: W) -> Woven<W>
        ensures { Keeps (records_of false (W.contents out)) (woven_records W.contents result) }
    {
        Woven {
            out,
            waiting: Vec::new(alloc),
            is_inside: false,
            is_full: false,
        }
    }

    /// Whether the line of a record was begun and not ended.
    pub fn is_inside(&self) -> bool {
        self.is_inside
    }

    /// Whether there was no memory for some of it.
    pub fn is_full(&self) -> bool {
        self.is_full
    }

    /// The writer. What waits for it is dropped.
    pub fn into_out(self) -> W {
        let Woven {
            out,
            waiting: _,
            is_inside: _,
            is_full: _,
        } = self;
        out
    }

    /// Says a text between two records. One with a tab is left out; there is none.
    pub fn say(&mut self, said: &Text) -> io::Result<()>
        ensures { Keeps (woven_records W.contents self.old) (woven_records W.contents self.new) }
    {
        if said.is_full() {
            self.is_full = true;
            return Err(io::Error::from(ErrorKind::OutOfMemory));
        }
        if self.is_inside || said.bytes().is_empty() || has_tab(said.bytes()) {
            return Ok(());
        }
        self.append(said.bytes())
    }

    /// Puts bytes of a record, up to the end of its line, behind a tab where they are its first ones.
    pub fn put(&mut self, bytes: &[u8]) -> io::Result<usize>
        ensures bound { WritesAtMost result bytes.now }
        ensures bytes { WriteAppends (woven_records W.contents self.old) (woven_records W.contents self.new) result bytes.now }
    {
        self.begin()?;
        let (count, is_end) = piece_of(bytes);
        self.append(&bytes[..count])?;
        self.is_inside = !is_end;
        Ok(count)
    }

    // Puts the tab before a record, where it isn't begun.
    fn begin(&mut self) -> io::Result<()>
        ensures kept { Keeps (woven_records W.contents self.old) (woven_records W.contents self.new) }
        ensures inside { OnOk result (self.new.is_inside ≡ true) }
    {
        if !self.is_inside {
            self.append(b"\t")?;
            self.is_inside = true;
        }
        Ok(())
    }

    // Appends bytes to those that wait.
    fn append(&mut self, bytes: &[u8]) -> io::Result<()>
        ensures out { self.new.out ≡ self.old.out }
        ensures inside { self.new.is_inside ≡ self.old.is_inside }
        ensures items { self.new.waiting.items ≡ (if is_ok result then self.old.waiting.items ++ bytes.now else self.old.waiting.items) }
    {
        if self.waiting.extend_from_slice(bytes).is_ok() {
            return Ok(());
        }
        self.is_full = true;
        Err(io::Error::from(ErrorKind::OutOfMemory))
    }

    /// Writes some of what waits, where that is much.
    pub fn pass_on(&mut self) -> io::Result<()>
        ensures { Keeps (woven_records W.contents self.old) (woven_records W.contents self.new) }
    {
        if self.waiting.len() <= MOST_WAITING {
            return Ok(());
        }
        let count = self.out.write(&self.waiting)?;
        if count == 0 {
            return Err(io::Error::from(ErrorKind::WriteZero));
        }
        remove_front(&mut self.waiting, count);
        Ok(())
    }

    /// Writes all that waits, and answers whether all went out, and no record was begun and not ended.
    pub fn end(self) -> (W, bool)
        ensures { OnTrue result.1 (Keeps (woven_records W.contents self) (records_of false (W.contents result.0))) }
    {
        let Woven {
            mut out,
            waiting,
            is_inside,
            is_full: _,
        } = self;
        let is_whole = !is_inside && out.write_all(&waiting).is_ok();
        (out, is_whole)
    }
}

// Whether a text has a tab.
fn has_tab(text: &[u8]) -> bool
    ensures { OnFalse result (IsPlain text.now) }
{
    memchr::memchr(b'\t', text).is_some()
}

// How many bytes there are up to the end of the first line, and whether that is among them.
fn piece_of(bytes: &[u8]) -> (usize, bool)
    ensures bound { result.0 ≤ length bytes.now }
    ensures piece { IsPiece (take result.0 bytes.now) result.1 }
{
    match memchr::memchr(b'\n', bytes) {
        Some(i) => (i + 1, true),
        None => (bytes.len(), false),
    }
}

// Takes the first bytes out.
fn remove_front(bytes: &mut Vec<u8>, count: usize)
    requires { count ≤ vec_len bytes.old }
    ensures { bytes.new.items ≡ drop count bytes.old.items }
{
    let len = bytes.len();
    bytes.as_mut_slice().copy_within(count..len, 0);
    bytes.truncate(len - count);
}
