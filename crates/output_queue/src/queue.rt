//! The bytes that wait.

ghost use Rattle.std.specs.Prelude.{◌≡◌, ◌++◌, ◌-◌, ◌≤◌, [], Some, length, vec_capacity, min, take, drop, IfOk};
ghost use Rattle.output_queue.specs.Waiting.{none_waiting};

use console_device::{NoMemory, Outlet};
use std::alloc::{AllocError, Allocator, Global};
use std::marker::Model;
use std::mem;

/// Bytes that wait to be taken, the first ones first: those of `first` from `start` on, and then those of `later`.
/// Bytes are put behind `later`; once all of `first` are taken the two change places. Both have room for as many as
/// may wait, which is made once.
#[derive(Drop)]
pub struct OutputQueue<A: Allocator = Global> {
    first: Vec<u8, A>,
    start: usize,
    later: Vec<u8, A>,
    limit: usize,
}

impl<A: Allocator> Model for OutputQueue<A> {
    ghost use Rattle.std.specs.Prelude.{◌++◌, ◌≤◌, length, drop, vec_capacity};
    ghost use Rattle.output_queue.specs.Waiting.{Waiting};

    ghost Value = { Waiting };

    ghost view = { λ o. record { bytes = drop o.start o.first.items ++ o.later.items; limit = o.limit } };

    ghost invariant = { λ o. (o.start ≤ length o.first.items) ×
        ((length (drop o.start o.first.items ++ o.later.items) ≤ o.limit) ×
        ((o.limit ≤ vec_capacity o.first) × (o.limit ≤ vec_capacity o.later))) };
}

impl<A: Allocator> OutputQueue<A> {
    /// No bytes, and room for so many.
    pub fn new(alloc: A, limit: u32) -> Result<OutputQueue<A>, AllocError>
    where
        A: Copy,
        ensures { IfOk result (λ made. made ≡ none_waiting limit) }
    {
        let limit = limit as usize;
        Ok(OutputQueue {
            first: Vec::with_capacity(alloc, limit)?,
            start: 0,
            later: Vec::with_capacity(alloc, limit)?,
            limit,
        })
    }

    /// The bytes that wait, in two parts.
    pub fn waiting(&self) -> (&[u8], &[u8])
        ensures parts { result.0.now ++ result.1.now ≡ self.now.bytes }
        ensures limit { length self.now.bytes ≤ self.now.limit }
    {
        (&self.first[self.start..], self.later.as_slice())
    }

    /// How many bytes wait.
    pub fn len(&self) -> usize
        ensures { result ≡ length self.now.bytes }
    {
        self.first.len() - self.start + self.later.len()
    }

    /// Moves the first bytes out, as many as find room, and answers how many they are.
    pub fn take(&mut self, into: &mut [u8]) -> usize
        ensures count { result ≡ min (length self.old.bytes) (length into.old) }
        ensures moved { into.new ≡ take result self.old.bytes ++ drop result into.old }
        ensures left { self.new ≡ record self.old { bytes = drop result self.old.bytes } }
    {
        let (first, later) = self.waiting();
        let of_first = first.len().min(into.len());
        let of_later = later.len().min(into.len() - of_first);
        let count = of_first + of_later;
        into[..of_first].copy_from_slice(&first[..of_first]);
        into[of_first..count].copy_from_slice(&later[..of_later]);
        self.skip(count);
        count
    }

    /// Takes all bytes away.
    pub fn clear(&mut self)
        ensures { self.new ≡ record self.old { bytes = [] } }
    {
        self.first.clear();
        self.later.clear();
        self.start = 0;
    }

    // Takes the first bytes away.
    fn skip(&mut self, count: usize)
        requires { count ≤ length self.old.bytes }
        ensures { self.new ≡ record self.old { bytes = drop count self.old.bytes } }
    {
        let of_first = self.first.len() - self.start;
        if count < of_first {
            self.start += count;
        } else {
            self.first.clear();
            mem::swap(&mut self.first, &mut self.later);
            self.start = count - of_first;
        }
    }
}

impl<A: Allocator> Outlet for OutputQueue<A> {
    ghost bytes = { λ out. out.bytes };

    ghost limit = { λ out. Some out.limit };

    ghost room = { λ out. out.limit - length out.bytes };

    fn make_room(&mut self, count: u64) -> Result<(), NoMemory> {
        if count <= (self.limit - self.len()) as u64 {
            Ok(())
        } else {
            Err(NoMemory)
        }
    }

    fn append(&mut self, part: &[u8]) {
        let Ok(()) = self.later.extend_from_slice(part) else {
            unreachable!()
        };
        if self.start == self.first.len() {
            self.skip(0);
        }
    }
}
