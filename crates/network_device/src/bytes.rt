//! The bytes of frames, one after another. They stand in a row that has room for twice as many as may wait, so what waits
//! is moved to its front only once more bytes than may wait have come behind it.

ghost use Rattle.std.specs.Prelude.{◌≡◌, ◌≤◌, ◌+◌, ◌++◌, [], IfOk, drop, length, vec_capacity};
ghost use Rattle.std.specs.Vec.{vec_len};
ghost use Rattle.circular_buffer.specs.Buffer.{buffer};

use crate::no_memory::NoMemory;
use std::alloc::{Allocator, Global};
use std::marker::Model;

/// Bytes that wait, the first ones first: those of `row` from `start` on.
#[derive(Drop)]
pub(crate) struct ByteQueue<A: Allocator = Global> {
    row: Vec<u8, A>,
    start: usize,
    capacity: usize,
}

impl<A: Allocator> Model for ByteQueue<A> {
    ghost use Rattle.std.specs.Prelude.{◌≤◌, ◌+◌, ℕ, drop, length, vec_capacity};
    ghost use Rattle.circular_buffer.specs.Buffer.{Buffer, buffer};

    ghost Value = { Buffer ℕ };

    ghost view = { λ q. buffer (drop q.start q.row.items) q.capacity };

    ghost invariant = { λ q. (q.start ≤ length q.row.items) × ((length q.row.items ≤ q.start + q.capacity)
        × (q.capacity ≤ vec_capacity q.row)) };
}

impl<A: Allocator> ByteQueue<A> {
    /// No bytes, and room for so many.
    pub(crate) fn new(alloc: A, capacity: usize) -> Result<ByteQueue<A>, NoMemory>
        ensures { IfOk result (λ queue. queue ≡ buffer [] capacity) }
    {
        match Vec::with_capacity(alloc, capacity.saturating_mul(2)) {
            Ok(row) => Ok(ByteQueue {
                row,
                start: 0,
                capacity,
            }),
            Err(_) => Err(NoMemory),
        }
    }

    /// How many bytes wait.
    #[inline(always)]
    pub(crate) fn len(&self) -> usize
        ensures len { result ≡ length self.now.items }
    {
        self.row.len() - self.start
    }

    /// How many may wait.
    #[inline(always)]
    pub(crate) fn capacity(&self) -> usize
        ensures capacity { result ≡ self.now.capacity }
    {
        self.capacity
    }

    /// The bytes that wait.
    #[inline(always)]
    pub(crate) fn as_slice(&self) -> &[u8]
        ensures { result.now ≡ self.now.items }
    {
        &self.row[self.start..]
    }

    /// Takes bytes behind those that wait.
    #[tactic(auto, using(crate::proofs::Rows::behind))]
    #[inline(always)]
    pub(crate) fn append(&mut self, part: &[u8])
        requires room { length self.old.items + length part.now ≤ self.old.capacity }
        ensures items { self.new ≡ buffer (self.old.items ++ part.now) self.old.capacity }
    {
        if part.len() > self.row.capacity() - self.row.len() {
            remove_front(&mut self.row, self.start);
            self.start = 0;
        }
        let Ok(()) = self.row.extend_from_slice(part) else {
            unreachable!()
        };
    }

    /// Takes all bytes away.
    pub(crate) fn clear(&mut self)
        ensures { self.new ≡ buffer [] self.old.capacity }
    {
        self.row.clear();
        self.start = 0;
    }

    /// Takes the first bytes away.
    #[tactic(auto, using(crate::proofs::Rows::taken, crate::proofs::Rows::all_taken))]
    #[inline(always)]
    pub(crate) fn skip(&mut self, count: usize)
        requires { count ≤ length self.old.items }
        ensures items { self.new ≡ buffer (drop count self.old.items) self.old.capacity }
    {
        self.start += count;
        if self.start == self.row.len() {
            self.row.clear();
            self.start = 0;
        }
    }
}

/// Takes the first bytes of a row away: the others move to its front.
#[inline(never)]
fn remove_front<A: Allocator>(row: &mut Vec<u8, A>, count: usize)
    requires { count ≤ vec_len row.old }
    ensures items { row.new.items ≡ drop count row.old.items }
    ensures capacity { vec_capacity row.new ≡ vec_capacity row.old }
{
    let len = row.len();
    row.copy_within(count..len, 0);
    row.truncate(len - count);
}
