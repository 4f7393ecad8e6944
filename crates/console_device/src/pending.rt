//! Pending input: what was typed and no buffer has taken yet.

ghost use Rattle.std.specs.Prelude.{◌≡◌, ◌++◌, ◌≤◌, [], length, take, drop, IfOk};
ghost use Rattle.console_device.specs.Input.{fitting};

use crate::no_memory::NoMemory;
use circular_buffer::HeapCircularBuffer;
use std::alloc::{Allocator, Global};
use std::marker::Model;

/// How many bytes may be pending.
const MOST_PENDING: usize = 4096;

/// Bytes in a ring whose room is made once.
#[derive(Drop)]
pub(crate) struct Pending<A: Allocator = Global> {
    ring: HeapCircularBuffer<u8, A>,
}

impl<A: Allocator> Model for Pending<A> {
    ghost use Rattle.std.specs.Prelude.{◌≡◌, ◌≤◌, ℕ, List, length};

    ghost Value = { List ℕ };

    ghost view = { λ p. p.ring.items };

    ghost invariant = { λ p. (p.ring.capacity ≡ 4096) × (length p.ring.items ≤ 4096) };
}

impl<A: Allocator> Pending<A> {
    /// No input, and room for all that may be pending.
    pub(crate) fn new(alloc: A) -> Result<Pending<A>, NoMemory>
        ensures { IfOk result (λ pending. pending ≡ []) }
    {
        match HeapCircularBuffer::with_capacity(alloc, MOST_PENDING) {
            Ok(ring) => Ok(Pending { ring }),
            Err(_) => Err(NoMemory),
        }
    }

    /// Appends the first bytes that fit, and answers how many they are.
    pub(crate) fn append(&mut self, bytes: &[u8]) -> usize
        ensures count { result ≡ fitting self.old bytes.now }
        ensures appended { self.new ≡ self.old ++ take result bytes.now }
        ensures limit { length self.new ≤ 4096 }
    {
        self.ring.fill_from_slice(bytes)
    }

    /// The bytes, in two parts.
    pub(crate) fn parts(&self) -> (&[u8], &[u8])
        ensures { result.0.now ++ result.1.now ≡ self.now }
    {
        self.ring.as_slices()
    }

    /// Puts these bytes in the place of what is there.
    pub(crate) fn replace(&mut self, bytes: &[u8])
        requires { length bytes.now ≤ 4096 }
        ensures { self.new ≡ bytes.now }
    {
        self.ring.clear();
        self.append(bytes);
    }

    /// How many there are.
    pub(crate) fn len(&self) -> usize
        ensures value { result ≡ length self.now }
        ensures most { result ≤ 4096 }
    {
        self.ring.len()
    }

    /// Takes the first bytes away. Where they are all the ring stays where it is, so that what comes next is one part.
    #[inline(always)]
    pub(crate) fn skip(&mut self, count: usize)
        requires { count ≤ length self.old }
        ensures { self.new ≡ drop count self.old }
    {
        if count == self.ring.len() {
            self.ring.clear();
        } else {
            self.ring.truncate_front(self.ring.len() - count);
        }
    }
}
