//! A guest's memory between its accesses. Nothing here takes memory.

ghost use Rattle.std.specs.Prelude.{◌≡◌, ◌⊎◌, ◌<◌, ◌↔◌, ◌≤◌, length, OnErr, IfOk, IfErr, IfSome, IsErrOf, IsSome, IsSomeAnd, IsTrue};
ghost use Rattle.std.specs.Borrow.{sem, u8, Array, Lends};
ghost use Rattle.std.specs.List.{slice_get};
ghost use Rattle.guest_memory.specs.Memory.{Inside, IsRest};
ghost use Rattle.guest_memory.specs.Pages.{bits_of};
ghost use Rattle.board.specs.Lending.{bits_in};
ghost use Rattle.board.specs.declared.event.EventKind.{EventKind};
ghost use Rattle.session.specs.declared.refusal.Refusal.{Refusal};
ghost use Rattle.session.specs.Answering.{Means, bytes_response, done_response};
ghost use Rattle.session.specs.Pausing.{IsToldCall};
ghost use Rattle.session.specs.Session.{IsIdle, IsOutside, with_slot_bytes};
ghost use Rattle.session.specs.contracts.session.Session.{the_row};

use crate::refusal::Refusal;
use crate::session::Session;
use board::GuestMemory;
use std::alloc::Allocator;
use std_alloc::vec::Lodged;

impl<A: Allocator> Session<A> {
    /// Copies bytes out of the slot's memory, from address `addr` on: the step of that read. After a
    /// refusal `into` is as it was.
    pub fn read_memory(&self, slot: u8, addr: u64, into: &mut [u8]) -> Result<(), Refusal>
        ensures call { IsToldCall {A = A} self.now slot (EventKind.MemRead addr (length into.old))
            (Means (bytes_response into.new) result) self.now }
        ensures bad_slot { IsErrOf result Refusal.BadSlot ↔ (length self.now.slots ≤ slot) }
        ensures busy { IsErrOf result Refusal.Busy ↔ ¬ IsIdle slot self.now }
        ensures bad_range { IsErrOf result Refusal.BadRange ↔
            (IsIdle slot self.now × IsOutside slot addr (length into.old) self.now.slots) }
        ensures kept { OnErr result (into.new ≡ into.old) }
    {
        if self.is_paused(slot) {
            return Err(Refusal::Busy);
        }
        if self.board.read_memory(slot, addr, into) {
            return Ok(());
        }
        Err(Refusal::of_range(slot, self.slots()))
    }

    /// Copies bytes into the slot's memory, from address `addr` on: the step of that write.
    pub fn write_memory(&mut self, slot: u8, addr: u64, from: &[u8]) -> Result<(), Refusal>
        ensures call { IsToldCall {A = A} self.old slot (EventKind.MemWrite addr from.now)
            (Means done_response result) self.new }
        ensures bad_slot { IsErrOf result Refusal.BadSlot ↔ (length self.old.slots ≤ slot) }
        ensures busy { IsErrOf result Refusal.Busy ↔ ¬ IsIdle slot self.old }
        ensures bad_range { IsErrOf result Refusal.BadRange ↔
            (IsIdle slot self.old × IsOutside slot addr (length from.now) self.old.slots) }
    {
        if self.is_paused(slot) {
            return Err(Refusal::Busy);
        }
        if self.board.write_memory(slot, addr, from) {
            return Ok(());
        }
        Err(Refusal::of_range(slot, self.slots()))
    }

    /// The slot's memory, as it stands. It is refused for a bad slot, and while a service of the slot is paused.
    pub fn memory(&self, slot: u8) -> Result<&GuestMemory<A>, Refusal>
        ensures value { IfOk result (λ memory.
            IsSomeAnd (slice_get self.now.slots slot) (λ found. memory.now ≡ found.memory)) }
        ensures idle { IfOk result (λ memory. IsIdle slot self.now) }
        ensures refused { IfErr result (λ why. (why ≡ Refusal.BadSlot) ⊎ (why ≡ Refusal.Busy)) }
        ensures missing { IsErrOf result Refusal.BadSlot ↔ (length self.now.slots ≤ slot) }
        ensures busy { IsErrOf result Refusal.Busy → ¬ IsIdle slot self.now }
    {
        let Some(memory) = self.board.memory(slot) else {
            return Err(Refusal::BadSlot);
        };
        if self.is_paused(slot) {
            return Err(Refusal::Busy);
        }
        Ok(memory)
    }

    /// How many addresses the slot's memory has from its first byte to its last, those in gaps included; also while a service
    /// is paused. There is no answer for a bad slot.
    pub fn memory_len(&self, slot: u8) -> Option<u64>
        ensures there { IsSome result ↔ (slot < length self.now.slots) }
        ensures len { IfSome result (λ len.
            IsSomeAnd (slice_get self.now.slots slot) (λ found. len ≡ length found.memory.bytes)) }
    {
        let memory = self.board.memory(slot)?;
        Some(memory.len())
    }

    /// Has the bits of the slot's pages kept in these bytes from now on: one for each page of 4096 bytes of its memory, from
    /// the first region's base on, the lowest of a byte first. What its devices write sets them, and nothing clears one. Of
    /// no bytes none are kept, and a page behind them isn't marked. False where there is no such slot.
    pub fn keep_pages(&mut self, slot: u8, bits: Vec<u8, Lodged>) -> bool
        ensures there { IsTrue result ↔ (slot < length self.old.slots) }
        ensures kept { self.new ≡ record self.old { slots = bits_in slot (slice_get self.old.slots slot) (bits_of bits.items) self.old.slots } }
    {
        self.board.keep_pages(slot, bits)
    }

    /// The bytes of the slot's memory from `addr` to the end of the region that holds it, to be read and written in place:
    /// as a whole the step of that write (`a_write_in_place_is_an_event`). `memory` tells whether there is such a slot that
    /// isn't busy, and its `holds` whether a region holds the address.
    pub fn memory_mut(&mut self, slot: u8, addr: u64) -> &mut [u8]
        requires there { slot < length self.old.slots }
        requires held { IsSomeAnd (slice_get self.old.slots slot) (λ found. Inside found.memory addr 1) }
        requires idle { IsIdle slot self.old }
        ensures* writes_back { sem 𝓛 (Lends (the_row A.row A.Allocator) (Array u8 0) self.entry result
            (with_slot_bytes slot addr self.old)) }
        ensures rest { IsSomeAnd (slice_get self.old.slots slot) (λ found. IsRest found.memory addr result.now) }
    {
        self.board.memory_mut(slot, addr)
    }
}
