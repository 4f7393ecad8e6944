//! What an embedder reaches of a guest between its events.

ghost use Rattle.std.specs.Prelude.{◌≡◌, ◌≢◌, ◌||◌, ◌++◌, ◌∷◌, [], All, None, IfErr, IfOk, IfSome, OnErr, OnOk, length};
ghost use Rattle.std.specs.Bool.{OnTrue, OnFalse};
ghost use Rattle.std.specs.Borrow.{sem};
ghost use Rattle.std.specs.Option.{option_map};
ghost use Rattle.guest_memory.specs.Memory.{Inside, IsRest, SameRange, is_inside, stored};
ghost use Rattle.guest_memory.specs.Pages.{bits_of};
ghost use Rattle.block_device.specs.Tags.{TagIsHeld};
ghost use Rattle.device_list.specs.Device.{fresh_device};
ghost use Rattle.device_list.specs.List.{IsRefusedFor, refusal_of};
ghost use Rattle.board.specs.declared.event.DeviceEvent.{DeviceEvent};
ghost use Rattle.board.specs.declared.event.EventKind.{EventKind};
ghost use Rattle.board.specs.Units.{disk_in};
ghost use Rattle.board.specs.InPlace.{event_in};
ghost use Rattle.board.specs.Lending.{LendsBytes, with_page_bits};
ghost use Rattle.board.specs.Pausing.{Begins, PausesByLimit, ServesOver, met_in};
ghost use Rattle.board.specs.Quiet.{AnswersQuietly, AsksImageDisk, BeginsQuietly};
ghost use Rattle.board.specs.declared.pause.Turn.{Turn};
ghost use Rattle.board.specs.declared.reply.Reply.{Reply};
ghost use Rattle.block_device.specs.Extent.{IsWithin, TouchesExtent};
ghost use Rattle.board.specs.Slot.{AreInterruptWords, KeepsPlace, StaysInSlot, interrupt_words, whole_extent};

use crate::guest::Guest;
use crate::in_place::InPlace;
use crate::pause::{Pause, Turn};
use crate::slot::Slot;
use crate::slot_disk::SlotDisk;
use chain::Budget;
use device_list::{AddRefusal, DeviceSpec, HostedDisk};
use mmio_window::Stage;
use sector_cache::{Image, SectorCache};
use std::alloc::Allocator;
use std_alloc::vec::Lodged;

impl<A: Allocator> Guest<A> {
    /// The slot, to be looked at.
    #[inline(always)]
    pub(crate) fn slot(&self) -> &Slot<A>
        ensures { result.now ≡ self.now }
    {
        &self.slot
    }

    /// InterruptStatus of the block window and of the console window.
    #[inline(always)]
    pub(crate) fn interrupts(&self) -> (u8, u8)
        ensures value { result ≡ interrupt_words self.now }
        ensures words { AreInterruptWords result.0 result.1 }
    {
        self.slot.interrupts()
    }

    /// The bytes of the guest's memory from `addr` to the end of the region that holds it, to be written.
    pub(crate) fn memory_mut(&mut self, addr: u64) -> &mut [u8]
        requires { Inside self.old.memory addr 1 }
        ensures* writes_back { sem 𝓛 (LendsBytes A.row A.Allocator self.entry addr result) }
        ensures rest { IsRest self.old.memory addr result.now }
    {
        self.slot.memory_mut(addr)
    }

    /// Has the bits of the memory's pages kept in these bytes from now on.
    pub(crate) fn keep_pages(&mut self, bits: Vec<u8, Lodged>)
        ensures { self.new ≡ with_page_bits self.old (bits_of bits.items) }
    {
        self.slot.keep_pages(bits);
    }

    /// Puts bytes into the memory, where all of the range lies in it.
    pub(crate) fn put_bytes(&mut self, addr: u64, new: &[u8]) -> bool
        ensures test { result ≡ is_inside self.old.memory addr (length new.now) }
        ensures done { OnTrue result
            (self.new ≡ record self.old { memory = stored self.old.memory addr new.now }) }
        ensures kept { OnFalse result (self.new ≡ self.old) }
        ensures place { KeepsPlace self.old self.new }
        ensures disturbed { self.new.disturbed ≡ self.old.disturbed }
    {
        self.slot.put_bytes(addr, new)
    }

    /// A disk of the slot that its host serves.
    pub(crate) fn disk(&self, disk: SlotDisk) -> Option<&HostedDisk<A>>
        ensures value { option_map (λ disk. disk.now) result ≡ disk_in disk self.now }
        ensures held { IfSome result (λ disk.
            All (TagIsHeld disk.now.device.extent.count self.now.memory) disk.now.tags) }
    {
        match disk {
            SlotDisk::Own => self.slot.host(),
            SlotDisk::Further(device) => self.slot.disk_at(device),
        }
    }
}

impl<A: Allocator + Copy> Guest<A> {
    /// Begins an event whose bytes are in a slice. A service that it asks for may pause where the budget is spent.
    #[inline(never)]
    pub(super) fn begin_in_place<I: Image>(
        &mut self,
        what: InPlace<'_>,
        budget: Budget,
        cache: &mut SectorCache<I, A>,
    ) -> Turn<A>
        requires lies { IsWithin (I.disk cache.old).sector_count (whole_extent self.old) }
        ensures serves { ServesOver (Begins (event_in what.entry) budget) self.old self.new (I.disk cache.old)
            (I.disk cache.new) result [] [] }
        ensures noted { self.new.disturbed ≡ (self.old.disturbed ||
            met_in result (I.disk cache.old).failures (I.disk cache.new).failures) }
        ensures stays { StaysInSlot self.old self.new (I.disk cache.old) (I.disk cache.new) }
        ensures touches { TouchesExtent I.moment I.may_leave I.left_since (whole_extent self.old) cache.old cache.new }
        ensures limited { PausesByLimit budget result }
        ensures there { result ≢ Turn.Answered Reply.BadSlot }
        ensures in_range { result ≢ Turn.Answered Reply.BadRange }
        ensures answered { result ≢ Turn.Answered Reply.NoMemory }
    {
        match self.begin_beside_image(what, budget) {
            Ok(turn) => turn,
            Err(pause) => {
                let answer = self.slot.serve_image(pause, Stage::First, budget, cache);
                self.slot.note(answer)
            }
        }
    }

    // The same, but for a service over the image: one that it asks for is to begin.
    #[inline(always)]
    fn begin_beside_image(&mut self, what: InPlace<'_>, budget: Budget) -> Result<Turn<A>, Pause>
        ensures begins { IfOk result (BeginsQuietly self.old (event_in what.entry) budget self.new) }
        ensures asks { IfErr result (AsksImageDisk {A = A} (event_in what.entry) self.old self.new) }
    {
        match what {
            InPlace::Input(bytes) => Ok(self.slot.input(bytes, budget)),
            InPlace::Device { device, what } => self.slot.begin_at_device(device, what, budget),
        }
    }

    /// Plugs a further device in, and answers its number.
    pub(crate) fn plug(&mut self, alloc: A, spec: DeviceSpec) -> Result<u8, AddRefusal>
        ensures plugged { IfOk result (λ number. (number ≡ length self.old.devices) × (self.new ≡
            record self.old { devices = self.old.devices ++ fresh_device spec ∷ [] })) }
        ensures taken { OnOk result (refusal_of self.old.devices self.old.spare spec ≡ None) }
        ensures refused { IfErr result (IsRefusedFor self.old.devices self.old.spare spec) }
        ensures kept { OnErr result (self.new ≡ self.old) }
        ensures place { KeepsPlace self.old self.new }
    {
        self.slot.plug(alloc, spec)
    }
}
