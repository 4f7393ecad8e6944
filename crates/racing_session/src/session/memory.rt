//! Other memory for a guest while its devices go on, as a machine has it whose memory is plugged in and out.

ghost use Rattle.std.specs.Prelude.{◌≡◌, IfErr, IsTrue, OnErr, OnOk, false, map};
ghost use Rattle.std.specs.Vec.{vec_items};
ghost use Rattle.guest_memory.specs.Faults.{zeroed_regions};
ghost use Rattle.guest_memory.specs.Memory.{Memory};
ghost use Rattle.racing_guest.specs.declared.reply.GuestQueue.{GuestQueue};
ghost use Rattle.racing_guest.specs.Guest.{IsSoundGuest};
ghost use Rattle.racing_guest.specs.Memory.{guest_fits};
ghost use Rattle.racing_guest.specs.Place.{has_flights};
ghost use Rattle.device_list.specs.List.{AreSoundDevices, are_at_work, devices_fit};
ghost use Rattle.racing_session.specs.Memory.{IsKeptFor, MayHave, is_busy, with_regions};

use crate::fault::MemoryRefusal;
use crate::further::Further;
use crate::memory::{LentMemory, are_words_of};
use crate::session::RacingSession;
use guest_memory::{RegionFault, Regions, fault_of_regions};
use racing_guest::{GuestQueue, RacingGuest};
use std::alloc::Allocator;
use std::sync::atomic::AtomicU64;
use std_alloc::vec::Lodged;

impl<A: Allocator> RacingSession<A> {
    /// Whether a queue is due, or an operation of a disk is in flight.
    pub fn is_busy(&self) -> bool
        ensures { result ≡ is_busy self.now }
    {
        self.is_any_due()
            || self.guest.has_flights(GuestQueue::Block)
            || self.further.devices().are_at_work()
    }

    /// Gives the guest this memory in the place of the one before: these regions over the words that its host lends, a run for each.
    /// Each ready queue is judged again, as when it was made ready. No word is read or written. No bits of pages are kept any more.
    pub fn set_memory(
        &mut self,
        regions: Regions,
        words: Vec<Vec<AtomicU64, Lodged>, A>,
    ) -> Result<(), MemoryRefusal>
        ensures moved { OnOk result (self.new ≡ with_regions regions self.old) }
        ensures may { OnOk result (MayHave self.old regions (map vec_items words.items)) }
        ensures fault { IfErr result (IsKeptFor self.old regions (map vec_items words.items)) }
        ensures kept { OnErr result (self.new ≡ self.old) }
    {
        if self.is_busy() {
            return Err(MemoryRefusal::Busy);
        }
        if !are_words_of(regions.as_slice(), &words) {
            return Err(MemoryRefusal::BadLoan);
        }
        if let Some(RegionFault { region, fault }) = fault_of_regions(regions.as_slice()) {
            return Err(MemoryRefusal::Memory { region, fault });
        }
        let memory = LentMemory::new(regions, words);
        if !fits(&self.guest, &memory) {
            return Err(MemoryRefusal::QueueOutside);
        }
        if !devices_fit(&self.further, &memory) {
            return Err(MemoryRefusal::QueueOutside);
        }
        self.memory = memory;
        self.pages = Vec::new(Lodged);
        Ok(())
    }
}

// Whether each ready queue of a guest could be made ready over this memory.
fn fits<A: Allocator>(guest: &RacingGuest<A>, memory: &LentMemory<A>) -> bool
    ensures fits { result ≡ guest_fits (zeroed_regions memory.now) guest.now }
    ensures sound { IsTrue result → has_flights GuestQueue.Block guest.now ≡ false → (m : Memory) → IsSoundGuest m guest.now
        → IsSoundGuest (zeroed_regions memory.now) guest.now }
{
    let regions = memory.regions();
    guest.fits(&memory.over(&regions, Vec::new(Lodged)))
}

// Whether each ready queue of the further devices could be made ready over this memory.
fn devices_fit<A: Allocator>(further: &Further<A>, memory: &LentMemory<A>) -> bool
    ensures fits { result ≡ devices_fit (zeroed_regions memory.now) further.now.devices }
    ensures sound { IsTrue result → are_at_work further.now.devices ≡ false → (m : Memory) → AreSoundDevices m further.now.devices
        → AreSoundDevices (zeroed_regions memory.now) further.now.devices }
{
    let regions = memory.regions();
    let memory = memory.over(&regions, Vec::new(Lodged));
    further.devices().fits(&memory)
}
