//! A buffer in front of a writer.
//!
//! Its room is reserved once. The writer is passed along with each call, so that what it holds stays in its
//! owner's sight.

ghost use Rattle.std.specs.Prelude.{◌≡◌, ◌⊎◌, ◌↔◌, ◌++◌, [], Some, None, IfOk, IsTrue, false, if◌then◌else◌};
ghost use Rattle.trace.specs.Sends.{Sends, waiting};

use crate::no_memory::NoMemory;
use crate::print::pending::Pending;
use crate::print::write::write_whole;
use std::alloc::{AllocError, Allocator};
use std::io;
use std::io::{ErrorKind, Write};

/// A writer that takes nothing, behind a buffer that grows: it fails where there is no memory.
#[derive(Drop)]
pub(crate) struct Nowhere;

impl Write for Nowhere {
    ghost contents = { λ _. Some [] };

    fn write(&mut self, _bytes: &[u8]) -> io::Result<usize> {
        Err(io::Error::from(ErrorKind::OutOfMemory))
    }

    fn flush(&mut self) -> io::Result<()> {
        Ok(())
    }
}

/// Bytes that wait for their writer. Once it has failed nothing more is written.
#[derive(Drop)]
pub struct Buffer<A: Allocator> {
    bytes: Pending<A>,
    grows: bool,
    is_broken: bool,
}

impl<A: Allocator> Buffer<A> {
    /// An empty buffer for at most so many bytes.
    pub fn with_room(alloc: A, most: usize) -> Result<Buffer<A>, AllocError>
        ensures { IfOk result (λ buffer. waiting buffer ≡ Some []) }
    {
        Ok(Buffer {
            bytes: Pending::with_room(alloc, most)?,
            grows: false,
            is_broken: false,
        })
    }

    /// An empty buffer that grows, with room made ahead for so many bytes.
    pub(crate) fn growing(alloc: A, room: usize) -> Result<Buffer<A>, AllocError>
        ensures { IfOk result (λ buffer. waiting buffer ≡ Some []) }
    {
        Ok(Buffer {
            bytes: Pending::with_room(alloc, room)?,
            grows: true,
            is_broken: false,
        })
    }

    /// Adds bytes to those that wait. What finds no room goes out, after all that waits. It is read into its caller, who mostly
    /// knows how many bytes these are.
    #[inline(always)]
    pub fn put<W: Write>(&mut self, out: &mut W, bytes: &[u8])
        ensures { Sends (W.contents out.old) (W.contents out.new) (waiting self.old) bytes.now (waiting self.new) }
    {
        if !self.bytes.add(bytes) {
            self.put_full(out, bytes);
        }
    }

    // The same of bytes that found no room.
    #[inline(never)]
    fn put_full<W: Write>(&mut self, out: &mut W, bytes: &[u8])
        ensures { Sends (W.contents out.old) (W.contents out.new) (waiting self.old) bytes.now (waiting self.new) }
    {
        if self.add_growing(bytes) {
            return;
        }
        self.flush(out);
        if self.is_broken || self.bytes.add(bytes) {
            return;
        }
        self.is_broken = !write_whole(out, bytes);
    }

    // Adds the bytes to a buffer that grows, and answers whether it did.
    fn add_growing(&mut self, bytes: &[u8]) -> bool
        ensures bytes { self.new.bytes ≡ (if result then self.old.bytes ++ bytes.now else self.old.bytes) }
        ensures state { self.new.is_broken ≡ self.old.is_broken }
    {
        self.grows && self.bytes.grow(bytes.len()) && self.bytes.add(bytes)
    }

    /// Writes all that waits.
    pub fn flush<W: Write>(&mut self, out: &mut W)
        ensures sends { Sends (W.contents out.old) (W.contents out.new) (waiting self.old) [] (waiting self.new) }
        ensures empty { (waiting self.new ≡ Some []) ⊎ (waiting self.new ≡ None) }
    {
        if self.is_broken {
            return;
        }
        self.is_broken = !write_whole(out, self.bytes.as_slice());
        self.bytes.clear();
    }

    /// The bytes that wait, but after a failure.
    pub(crate) fn into_bytes(self) -> Result<Vec<u8, A>, NoMemory>
        ensures { IfOk result (λ bytes. waiting self ≡ Some bytes.items) }
    {
        if self.is_broken {
            return Err(NoMemory);
        }
        let Buffer { bytes, .. } = self;
        Ok(bytes.into_bytes())
    }

    /// Whether the writer has failed.
    pub fn is_broken(&self) -> bool
        ensures { IsTrue result ↔ (waiting self.now ≡ None) }
    {
        self.is_broken
    }
}
