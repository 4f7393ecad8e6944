//! The chain itself: its buffers, filled one after another, and its two lengths.

ghost use Rattle.std.specs.Prelude.{◌≡◌, [], ◌∷◌, ◌++◌, ◌+◌, ◌^◌, ◌<◌, ◌≤◌, ◌↔◌, length, take, false, true, if◌then◌else◌, All, IsTrue, IfErr, OnOk, OnErr};
ghost use Rattle.guest_memory.specs.Memory.{Memory, Inside};
ghost use Rattle.chain.specs.Buffers.{Admits, Good, Refuses, Within, buffer_of, total_len};
ghost use Rattle.chain.specs.Held.{start_behind};
ghost use Rattle.chain.specs.Bytes.{len_of, readable_of, rest_at, segments_of, writable_of};

use crate::counts::Counts;
use crate::fault::Fault;
use crate::segment::{Buffer, Segment};
use arrayvec::ArrayVec;
use guest_memory::GuestMemory;
use std::alloc::Allocator;
use std::marker::Model;

/// How many buffers a chain may have.
pub(crate) const MOST_BUFFERS: usize = 256;

/// How many bytes the buffers of a chain may have in all (2.7.5.2).
const MOST_BYTES: u32 = u32::MAX;

/// Among so few buffers a place is looked for one after another.
const FEW_BUFFERS: usize = 4;

/// How many bytes of each direction come before a buffer.
#[derive(Clone, Copy, Default)]
struct Start {
    readable: u32,
    writable: u32,
}

impl Start {
    /// The bytes of one direction.
    #[inline(always)]
    fn of(self, writable: bool) -> u64
        ensures { result ≡ (if writable then self.writable else self.readable) }
    {
        u64::from(if writable {
            self.writable
        } else {
            self.readable
        })
    }

    /// What comes before the buffer behind one of `len` bytes.
    #[inline(always)]
    fn behind(self, len: u32, writable: bool) -> Start
        requires { self.readable + self.writable + len < 2 ^ 32 }
        ensures { result ≡ start_behind self len writable }
    {
        if writable {
            Start {
                readable: self.readable,
                writable: self.writable + len,
            }
        } else {
            Start {
                readable: self.readable + len,
                writable: self.writable,
            }
        }
    }
}

/// The buffers of one request, in the order of their descriptors. It holds them in place, some 8 KB, so
/// one chain serves for a whole service.
#[derive(Drop)]
pub struct Chain {
    // The first `filled` are the chain's. Behind them stand buffers of chains before, which are written over.
    room: ArrayVec<Buffer, MOST_BUFFERS>,
    filled: usize,
    // one for each of the chain's buffers, by which the buffer of a place is found, and one for the end of the last
    starts: [Start; MOST_BUFFERS + 1],
    // what the services did whose room this is
    counts: Counts,
}

impl Model for Chain {
    ghost use Rattle.std.specs.Prelude.{List, take};
    ghost use Rattle.chain.specs.declared.segment.Buffer.{Buffer};
    ghost use Rattle.chain.specs.Held.{IsHeld};

    ghost Value = { List Buffer };

    ghost view = { λ c. take c.filled c.room.items };

    ghost invariant = { λ c. IsHeld c.room.items c.filled c.starts };
}

impl Chain {
    /// A chain without buffers.
    pub fn new() -> Chain
        ensures { result ≡ [] }
    {
        Chain {
            room: ArrayVec::from_array_in((), [Buffer::default(); MOST_BUFFERS]),
            filled: 0,
            starts: [Start::default(); MOST_BUFFERS + 1],
            counts: Counts::default(),
        }
    }

    /// Takes all buffers out. What is counted stays.
    pub fn clear(&mut self)
        ensures { self.new ≡ [] }
    {
        self.filled = 0;
    }

    /// Puts the buffer of `len` bytes from `addr` on behind the others: one for the device to write, or one
    /// to read. Refused are, in this order, a buffer that isn't inside memory (`Range`), one behind 256
    /// others (`TooMany`), and one with which the chain would have more than 2^32 - 1 bytes (`TooLong`).
    #[inline(always)]
    pub fn push<A: Allocator>(
        &mut self,
        mem: &GuestMemory<A>,
        addr: u64,
        len: u32,
        writable: bool,
    ) -> Result<(), Fault>
        ensures ok { OnOk result (Admits mem.now self.old (buffer_of addr len writable)) }
        ensures pushed { OnOk result (self.new ≡ self.old ++ buffer_of addr len writable ∷ []) }
        ensures fault { IfErr result (Refuses mem.now self.old (buffer_of addr len writable)) }
        ensures err { OnErr result (self.new ≡ self.old) }
        ensures keeps { Good mem.now self.old → Good mem.now self.new }
    {
        let inside = mem.holds(addr, u64::from(len));
        self.push_tested(inside, addr, len, writable)
    }

    /// The same of a buffer that was tested: `inside` is whether it lies in the memory.
    #[inline(always)]
    pub fn push_tested(
        &mut self,
        inside: bool,
        addr: u64,
        len: u32,
        writable: bool,
    ) -> Result<(), Fault>
        requires fits { IsTrue inside → addr + len ≤ 2 ^ 64 }
        ensures ok { (m : Memory) → (IsTrue inside ↔ Inside m addr len) →
            OnOk result (Admits m self.old (buffer_of addr len writable)) }
        ensures pushed { OnOk result (self.new ≡ self.old ++ buffer_of addr len writable ∷ []) }
        ensures fault { (m : Memory) → (IsTrue inside ↔ Inside m addr len) →
            IfErr result (Refuses m self.old (buffer_of addr len writable)) }
        ensures err { OnErr result (self.new ≡ self.old) }
    {
        if !inside {
            return Err(Fault::Range);
        }
        let filled = self.filled;
        if filled == MOST_BUFFERS {
            return Err(Fault::TooMany);
        }
        let start = self.starts[filled];
        if len > MOST_BYTES - start.readable - start.writable {
            return Err(Fault::TooLong);
        }
        self.starts[filled + 1] = start.behind(len, writable);
        // Field by field, so that what pads them isn't stored.
        let buffer = &mut self.room.as_mut_slice()[filled];
        buffer.segment.addr = addr;
        buffer.segment.len = len;
        buffer.writable = writable;
        self.filled = filled + 1;
        Ok(())
    }

    /// The buffers, in order.
    pub fn buffers(&self) -> &[Buffer]
        ensures value { result.now ≡ self.now }
        ensures few { length self.now ≤ 256 }
        ensures fits { total_len self.now < 2 ^ 32 }
        ensures addressable { All (λ b. b.segment.addr + b.segment.len ≤ 2 ^ 64) self.now }
    {
        &self.room.as_slice()[..self.filled]
    }

    /// What is left of the segment that a place of the writable list (`writable`) or of the readable one
    /// lies in, from that place on.
    pub fn segment_at(&self, writable: bool, place: u64) -> Segment
        requires { place < len_of writable self.now }
        ensures { result ≡ rest_at (segments_of writable self.now) place }
    {
        self.rest_in(self.buffer_at(writable, place), writable, place)
    }

    /// The same, where the buffer is known.
    #[inline(always)]
    pub(crate) fn rest_in(&self, index: usize, writable: bool, place: u64) -> Segment
        requires there { index < length self.now }
        requires from { len_of writable (take index self.now) ≤ place }
        requires to { place < len_of writable (take (index + 1) self.now) }
        ensures { result ≡ rest_at (segments_of writable self.now) place }
    {
        let buffers = self.buffers();
        let left = place - self.starts[index].of(writable);
        buffers[index].segment.rest(left)
    }

    /// The buffer that such a place lies in.
    #[inline(always)]
    pub(crate) fn buffer_at(&self, writable: bool, place: u64) -> usize
        requires { place < len_of writable self.now }
        ensures there { result < length self.now }
        ensures from { len_of writable (take result self.now) ≤ place }
        ensures to { place < len_of writable (take (result + 1) self.now) }
    {
        let mut low = 0;
        let mut high = self.filled;
        while high - low > FEW_BUFFERS {
            let middle = low + (high - low) / 2;
            if self.starts[middle].of(writable) <= place {
                low = middle;
            } else {
                high = middle;
            }
        }
        self.buffer_behind(low, writable, place)
    }

    /// The same, where so many buffers from the first one on end before the place.
    #[inline(always)]
    pub(crate) fn buffer_behind(&self, before: usize, writable: bool, place: u64) -> usize
        requires in_list { place < len_of writable self.now }
        requires before { len_of writable (take before self.now) ≤ place }
        ensures there { result < length self.now }
        ensures from { len_of writable (take result self.now) ≤ place }
        ensures to { place < len_of writable (take (result + 1) self.now) }
    {
        let starts = &self.starts;
        let mut index = before;
        while starts[index + 1].of(writable) <= place {
            index += 1;
        }
        index
    }

    /// How many bytes of each direction its buffers have.
    #[inline(always)]
    fn sizes(&self) -> Start
        ensures readable { result.readable ≡ len_of false self.now }
        ensures writable { result.writable ≡ len_of true self.now }
        ensures both { result.readable + result.writable ≡ total_len self.now }
        ensures fits { total_len self.now < 2 ^ 32 }
    {
        self.starts[self.filled]
    }

    /// The number of bytes that the device may read.
    pub fn readable_len(&self) -> u64
        ensures value { result ≡ len_of false self.now }
        ensures list { (m : Memory) → All (Within m) self.now → length (readable_of m self.now) ≡ result }
    {
        self.sizes().of(false)
    }

    /// The number of bytes that the device may write.
    pub fn writable_len(&self) -> u64
        ensures { result ≡ length (writable_of self.now) }
    {
        self.sizes().of(true)
    }

    /// The number of bytes of both.
    pub fn total_len(&self) -> u64
        ensures { result ≡ total_len self.now }
    {
        let sizes = self.sizes();
        u64::from(sizes.readable + sizes.writable)
    }

    /// Counts the chain as given back, with this used length.
    pub fn count(&mut self, written: u32)
        ensures { self.new ≡ self.old }
    {
        let readable = self.sizes().readable;
        self.counts.used(readable, written);
    }

    /// Counts a service that ended by a fault.
    pub fn count_fault(&mut self)
        ensures { self.new ≡ self.old }
    {
        self.counts.faults = self.counts.faults.wrapping_add(1);
    }

    /// Counts a piece of a service that ended in a pause.
    pub fn count_pause(&mut self)
        ensures { self.new ≡ self.old }
    {
        self.counts.pauses = self.counts.pauses.wrapping_add(1);
    }

    /// What the services did whose room this is, since it was made. No clause speaks of the numbers.
    pub fn counts(&self) -> Counts {
        self.counts
    }
}
