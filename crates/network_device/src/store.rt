//! Frames that wait, one after another, with their lengths in a ring beside them.

ghost use Rattle.std.specs.Prelude.{◌≡◌, ◌++◌, [], length, slice_get, drop, IfOk};
ghost use Rattle.std.specs.Option.{option_map};
ghost use Rattle.network_device.specs.Frames.{Store};

use crate::bytes::ByteQueue;
use crate::limits::Limits;
use crate::no_memory::NoMemory;
use crate::outlet::FrameOutlet;
use circular_buffer::HeapCircularBuffer;
use std::alloc::{Allocator, Global};
use std::marker::Model;

/// Frames within limits. All its memory is taken once.
#[derive(Drop)]
pub struct FrameStore<A: Allocator = Global> {
    pub(crate) lens: HeapCircularBuffer<usize, A>,
    pub(crate) bytes: ByteQueue<A>,
    // how many of the bytes are of frames that have ended
    pub(crate) whole: usize,
}

impl<A: Allocator> Model for FrameStore<A> {
    ghost use Rattle.std.specs.Prelude.{◌≡◌, ◌≤◌, drop, length};
    ghost use Rattle.network_device.specs.Frames.{Store, cut, sum_of};

    ghost Value = { Store };

    ghost view = { λ s. record {
      frames = cut s.lens.items s.bytes.items;
      begun = drop (sum_of s.lens.items) s.bytes.items;
      limits = record { bytes = s.bytes.capacity; frames = s.lens.capacity };
    } };

    ghost invariant = { λ s. (sum_of s.lens.items ≡ s.whole) × (s.whole ≤ length s.bytes.items)
        × (length s.bytes.items ≤ s.bytes.capacity) };
}

impl<A: Allocator + Copy> FrameStore<A> {
    /// No frames, and room for all that may wait.
    pub fn new(alloc: A, limits: Limits) -> Result<FrameStore<A>, NoMemory>
        ensures { IfOk result (λ store. store ≡ record { frames = []; begun = []; limits = limits }) }
    {
        let lens = ring(alloc, limits.frames)?;
        let bytes = ByteQueue::new(alloc, limits.bytes)?;
        Ok(FrameStore {
            lens,
            bytes,
            whole: 0,
        })
    }
}

/// A ring with room for so many lengths.
fn ring<A: Allocator>(alloc: A, capacity: usize) -> Result<HeapCircularBuffer<usize, A>, NoMemory>
    ensures { IfOk result (λ ring. ring ≡ record { items = []; capacity = capacity }) }
{
    match HeapCircularBuffer::with_capacity(alloc, capacity) {
        Ok(ring) => Ok(ring),
        Err(_) => Err(NoMemory),
    }
}

impl<A: Allocator> FrameStore<A> {
    /// How many frames wait.
    pub fn count(&self) -> usize
        ensures { result ≡ length self.now.frames }
    {
        self.lens.len()
    }

    /// The length of the frame at this place, where one waits.
    pub fn frame_len(&self, index: usize) -> Option<usize>
        ensures { result ≡ option_map (λ frame. length frame) (slice_get self.now.frames index) }
    {
        self.lens.get(index).copied()
    }

    /// The oldest frame, in two parts.
    pub fn front(&self) -> Option<(&[u8], &[u8])>
        ensures { option_map (λ parts. parts.0.now ++ parts.1.now) result ≡ slice_get self.now.frames 0 }
    {
        let len = self.frame_len(0)?;
        Some((&self.bytes.as_slice()[..len], &[]))
    }

    /// Takes the oldest frame away.
    pub fn pop(&mut self)
        ensures { self.new ≡ record self.old { frames = drop 1 self.old.frames } }
    {
        if let Some(len) = self.lens.pop_front() {
            self.bytes.skip(len);
            self.whole -= len;
        }
    }
}

impl<A: Allocator> FrameOutlet for FrameStore<A> {
    ghost frames = { λ store. store.frames };

    ghost begun = { λ store. store.begun };

    ghost limits = { λ store. store.limits };

    fn admits(&self, len: u64) -> bool {
        self.lens.capacity() > 0 && len <= self.bytes.capacity() as u64
    }

    fn has_room(&self, len: u64) -> bool {
        let left = self.bytes.capacity() - self.whole;
        (self.lens.len() < self.lens.capacity()) & (len <= left as u64)
    }

    fn append(&mut self, part: &[u8]) {
        self.bytes.append(part);
    }

    fn end(&mut self) {
        let len = self.bytes.len() - self.whole;
        let Ok(()) = self.lens.try_push_back(len) else {
            unreachable!()
        };
        self.whole = self.bytes.len();
    }
}
