//! A guest's own reads and writes of its memory.

ghost use Rattle.std.specs.Prelude.{◌≡◌, ◌≢◌, ◌<◌, ◌↔◌, IsTrue, length};
ghost use Rattle.std.specs.Bool.{OnTrue, OnFalse};
ghost use Rattle.guest_memory.specs.Memory.{Inside, SameRange, is_inside, part_of, stored};
ghost use Rattle.board.specs.declared.event.EventKind.{EventKind};
ghost use Rattle.board.specs.Quiet.{GivesQuietly};

use crate::bytes::Bytes;
use crate::reply::Reply;
use crate::slot::Slot;
use guest_memory::GuestMemory;
use std::alloc::{AllocError, Allocator};

impl<A: Allocator + Copy> Slot<A> {
    /// A copy of `len` bytes of the memory.
    pub(super) fn read_memory(&self, alloc: A, addr: u64, len: u32) -> Reply<A>
        ensures given { GivesQuietly self.now (EventKind.MemRead addr len) self.now result }
        ensures there { result ≢ Reply.BadSlot }
        ensures no_memory { result ≡ Reply.NoMemory → (0 < len) × Inside self.now.memory addr len }
    {
        let Some(part) = self.memory.part(addr, u64::from(len)) else {
            return Reply::BadRange;
        };
        let mut bytes = Vec::new(alloc);
        match bytes.extend_from_slice(part) {
            Ok(()) => Reply::Bytes(Bytes::from(bytes)),
            Err(AllocError) => Reply::NoMemory,
        }
    }

    /// Writes bytes to the memory.
    pub(super) fn write_memory(&mut self, addr: u64, new: &[u8]) -> Reply<A>
        ensures given { GivesQuietly self.old (EventKind.MemWrite addr new.now) self.new result }
        ensures rest { self.new ≡ record self.old { memory = self.new.memory } }
        ensures range { SameRange self.old.memory self.new.memory }
        ensures there { result ≢ Reply.BadSlot }
        ensures bad_range { result ≡ Reply.BadRange → self.new ≡ self.old }
        ensures no_memory { result ≢ Reply.NoMemory }
    {
        if self.put_bytes(addr, new) {
            Reply::Done
        } else {
            Reply::BadRange
        }
    }
}

impl<A: Allocator> Slot<A> {
    /// Puts bytes into the memory, where all of the range lies in it.
    pub(crate) fn put_bytes(&mut self, addr: u64, new: &[u8]) -> bool
        ensures test { result ≡ is_inside self.old.memory addr (length new.now) }
        ensures done { OnTrue result
            (self.new ≡ record self.old { memory = stored self.old.memory addr new.now }) }
        ensures kept { OnFalse result (self.new ≡ self.old) }
        ensures rest { self.new ≡ record self.old { memory = self.new.memory } }
        ensures range { SameRange self.old.memory self.new.memory }
    {
        if !self.memory.holds(addr, new.len() as u64) {
            return false;
        }
        self.memory
            .lend(addr, new.len() as u64)
            .copy_from_slice(new);
        true
    }
}

/// Copies bytes out of a guest's memory, from address `addr` on. False where not all of the range lies in it: `into` is
/// then left as it was.
pub(crate) fn copy_out<A: Allocator>(memory: &GuestMemory<A>, addr: u64, into: &mut [u8]) -> bool
    ensures inside { IsTrue result ↔ Inside memory.now addr (length into.old) }
    ensures read { OnTrue result (into.new ≡ part_of memory.now addr (length into.old)) }
    ensures kept { OnFalse result (into.new ≡ into.old) }
{
    let Some(part) = memory.part(addr, into.len() as u64) else {
        return false;
    };
    into.copy_from_slice(part);
    true
}
