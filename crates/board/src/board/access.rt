//! What an embedder reaches between events: the words of interrupt lines, and the guests' memories.
//!
//! Nothing here takes memory, so nothing here can be refused for want of it.

ghost use Rattle.std.specs.Prelude.{◌≡◌, ◌↔◌, ◌<◌, [], IsTrue, IsSome, IfSome, IsSomeAnd, length, slice_set};
ghost use Rattle.std.specs.Bool.{OnTrue, OnFalse};
ghost use Rattle.std.specs.Borrow.{sem, u8, Array, Lends};
ghost use Rattle.std.specs.List.{slice_get};
ghost use Rattle.std.specs.Option.{option_map};
ghost use Rattle.guest_memory.specs.Memory.{Inside, IsRest, part_of, stored};
ghost use Rattle.guest_memory.specs.Pages.{bits_of};
ghost use Rattle.board.specs.declared.event.EventKind.{EventKind};
ghost use Rattle.board.specs.declared.reply.Reply.{Reply};
ghost use Rattle.board.specs.Image.{Tells};
ghost use Rattle.board.specs.Lending.{with_slot_bits, with_slot_bytes};
ghost use Rattle.board.specs.Machine.{register};
ghost use Rattle.board.specs.contracts.board.Board.{the_row};
ghost use Rattle.board.specs.Slot.{interrupt_words};
ghost use Rattle.board.specs.World.{Answers, disturbed_of, world_of};

use crate::board::Board;
use crate::event::SlotWindow;
use crate::in_place::InPlace;
use crate::slot::copy_out;
use guest_memory::GuestMemory;
use sector_cache::Image;
use std::alloc::Allocator;
use std_alloc::vec::Lodged;

impl<I: Image, A: Allocator> Board<I, A> {
    /// How many slots the board has, from 1 to 64. They are numbered from 0.
    pub fn slots(&self) -> usize
        ensures { result ≡ length self.now.slots }
    {
        self.slots.len()
    }

    /// InterruptStatus of the slot's block window and of its console window, in this order (4.2.2).
    /// A window's interrupt line is raised while its word isn't 0. There is no answer for a slot that
    /// isn't there.
    pub fn interrupts(&self, slot: u8) -> Option<(u8, u8)>
        ensures { result ≡ option_map interrupt_words (slice_get self.now.slots slot) }
    {
        let slot = self.slot(slot)?;
        Some(slot.interrupts())
    }

    /// The image, as it stands. Each write went through to it.
    pub fn image(&self) -> &I
        ensures { result.now ≡ self.now.image }
    {
        self.cache.image()
    }

    /// The slot's memory, as it stands. There is no answer for a slot that isn't there.
    pub fn memory(&self, slot: u8) -> Option<&GuestMemory<A>>
        ensures there { IsSome result ↔ (slot < length self.now.slots) }
        ensures value { IfSome result (λ memory.
            IsSomeAnd (slice_get self.now.slots slot) (λ found. memory.now ≡ found.memory)) }
    {
        let slot = self.slot(slot)?;
        Some(slot.slot().memory())
    }

    /// The bytes of the slot's memory from `addr` to the end of the region that holds it, to be read and written.
    /// `slots` tells which slots there are, and `holds` of `memory` whether a region holds the address.
    pub fn memory_mut(&mut self, slot: u8, addr: u64) -> &mut [u8]
        requires there { slot < length self.old.slots }
        requires held { IsSomeAnd (slice_get self.old.slots slot) (λ found. Inside found.memory addr 1) }
        ensures* writes_back { sem 𝓛 (Lends (the_row I.row A.row I.Image A.Allocator) (Array u8 0) self.entry
            result (with_slot_bytes slot addr self.old)) }
        ensures rest { IsSomeAnd (slice_get self.old.slots slot) (λ found. IsRest found.memory addr result.now) }
    {
        let found = &mut self.slots[slot as usize];
        found.memory_mut(addr)
    }

    /// Has the bits of the slot's pages kept in these bytes from now on: one for each page of 4096 bytes of its memory, from
    /// the first region's base on, the lowest of a byte first. What its devices write sets them, and nothing clears one. Of
    /// no bytes none are kept, and a page behind them isn't marked. False where there is no such slot.
    pub fn keep_pages(&mut self, slot: u8, bits: Vec<u8, Lodged>) -> bool
        ensures there { IsTrue result ↔ (slot < length self.old.slots) }
        ensures kept { self.new ≡ with_slot_bits slot self.old (bits_of bits.items) }
    {
        let Some(found) = self.slots.get_mut(slot as usize) else {
            return false;
        };
        found.keep_pages(bits);
        true
    }

    /// Copies bytes out of the slot's memory, from address `addr` on. False where there is no such slot,
    /// or not all of the range lies in its memory: `into` is then left as it was.
    pub fn read_memory(&self, slot: u8, addr: u64, into: &mut [u8]) -> bool
        ensures inside { IsTrue result ↔ IsSomeAnd (slice_get self.now.slots slot)
            (λ found. Inside found.memory addr (length into.old)) }
        ensures read { OnTrue result (IsSomeAnd (slice_get self.now.slots slot)
            (λ found. into.new ≡ part_of found.memory addr (length into.old))) }
        ensures kept { OnFalse result (into.new ≡ into.old) }
    {
        let Some(memory) = self.memory(slot) else {
            return false;
        };
        copy_out(memory, addr, into)
    }

    /// Copies bytes into the slot's memory, from address `addr` on: the event of that write, for who
    /// has the bytes in a slice. False where there is no such slot, or not all of the range lies in its
    /// memory: nothing has changed then.
    pub fn write_memory(&mut self, slot: u8, addr: u64, from: &[u8]) -> bool
        ensures step { Tells (I.disk self.old.image) → OnTrue result
            (Answers {A = A} (world_of I.disk self.old)
            (record { slot = slot; what = EventKind.MemWrite addr from.now }) Reply.Done [] []
            (world_of I.disk self.new)) }
        ensures inside { IsTrue result ↔ IsSomeAnd (slice_get self.old.slots slot)
            (λ found. Inside found.memory addr (length from.now)) }
        ensures put { OnTrue result (IsSomeAnd (slice_get self.old.slots slot)
            (λ found. self.new.slots ≡ slice_set self.old.slots slot
            (record found { memory = stored found.memory addr from.now }))) }
        ensures kept { OnFalse result (self.new ≡ self.old) }
        ensures image { self.new.image ≡ self.old.image }
        ensures disturbed { disturbed_of self.new.slots ≡ disturbed_of self.old.slots }
    {
        let Some(slot) = self.slots.get_mut(slot as usize) else {
            return false;
        };
        slot.put_bytes(addr, from)
    }
}

impl<I: Image, A: Allocator + Copy> Board<I, A> {
    /// What a guest's read of `width` bytes, 1, 2 or 4, at an offset of a window gets, extended by zeros: the answer to
    /// the event of that read, which changes nothing. There is none for a slot that isn't there.
    #[inline]
    pub fn read(&self, slot: u8, window: SlotWindow, offset: u16, width: u8) -> Option<u32>
        ensures there { IsSome result ↔ (slot < length self.now.slots) }
        ensures value { Tells (I.disk self.now.image) → IfSome result (λ value.
            IsSomeAnd (slice_get (world_of I.disk self.now).slots slot) (λ state.
            value ≡ register state window offset width)) }
    {
        let found = self.slots.get(slot as usize)?;
        Some(found.slot().read_window(window, offset, width))
    }
}
