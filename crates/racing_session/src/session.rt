//! The session: a guest, its memory, and what its console put out.

ghost use Rattle.std.specs.Prelude.{◌≡◌, map, IfErr, IfOk, OnOk};
ghost use Rattle.std.specs.Vec.{vec_items};
ghost use Rattle.racing_session.specs.Judging.{IsAccepted, IsRefusedFor};
ghost use Rattle.racing_session.specs.Session.{is_due_in, new_session, waits_of};

mod console;
mod devices;
mod disk;
mod memory;
mod pages;
mod place;
mod registers;

use crate::due::Due;
use crate::fault::RacingFault;
use crate::further::Further;
use crate::memory::{LentMemory, are_words_of};
use crate::spec::RacingSpec;
use crate::told::Waits;
use guest_memory::{RegionFault, fault_of_regions};
use output_queue::OutputQueue;
use racing_guest::{GuestWindow, RacingGuest};
use racing_hosted_disk::LookLimits;
use std::alloc::{Allocator, Global};
use std::marker::Model;
use std::sync::atomic::AtomicU64;
use std_alloc::vec::Lodged;

/// One guest, whose CPUs run on during each call. `new` makes all room: no other call takes memory. It shares nothing with any
/// other guest.
#[derive(Drop)]
pub struct RacingSession<A: Allocator = Global> {
    guest: RacingGuest<A>,
    memory: LentMemory<A>,
    // The bits of its pages, if these are kept.
    pages: Vec<u8, Lodged>,
    output: OutputQueue<A>,
    due: Due,
    limits: LookLimits,
    further: Further<A>,
}

impl<A: Allocator> Model for RacingSession<A> {
    ghost use Rattle.guest_memory.specs.Faults.{zeroed_regions};
    ghost use Rattle.guest_memory.specs.Pages.{bits_of};
    ghost use Rattle.device_list.specs.List.{AreSoundDevices};
    ghost use Rattle.racing_guest.specs.Guest.{IsSoundGuest};
    ghost use Rattle.racing_session.specs.Session.{RacingSession};

    ghost Value = { RacingSession };

    ghost view = { λ s. record {
      guest = s.guest;
      regions = s.memory;
      pages = bits_of s.pages.items;
      output = s.output;
      due = s.due;
      limits = s.limits;
      further = s.further;
    } };

    ghost invariant = { λ s. IsSoundGuest (zeroed_regions s.memory) s.guest
        × AreSoundDevices (zeroed_regions s.memory) s.further.devices };
}

impl<A: Allocator + Copy> RacingSession<A> {
    /// A session of this guest over the words that its host lends for its memory, a run for each region. None is read or written,
    /// then or at the end.
    pub fn new(
        alloc: A,
        spec: &RacingSpec,
        words: Vec<Vec<AtomicU64, Lodged>, A>,
    ) -> Result<RacingSession<A>, RacingFault>
        ensures made { IfOk result (λ session. session ≡ new_session spec.now) }
        ensures accepted { OnOk result (IsAccepted spec.now (map vec_items words.items)) }
        ensures fault { IfErr result (IsRefusedFor spec.now (map vec_items words.items)) }
    {
        judge(spec, &words)?;
        let Ok(output) = OutputQueue::new(alloc, spec.outlet) else {
            return Err(RacingFault::NoMemory);
        };
        let Ok(guest) = RacingGuest::new(alloc, &spec.guest) else {
            return Err(RacingFault::NoMemory);
        };
        let Ok(further) = Further::new(alloc) else {
            return Err(RacingFault::NoMemory);
        };
        Ok(RacingSession {
            guest,
            memory: LentMemory::new(spec.regions, words),
            pages: Vec::new(Lodged),
            output,
            due: Due::none(),
            limits: spec.limits,
            further,
        })
    }
}

impl<A: Allocator> RacingSession<A> {
    /// Which queues are due: `go_on` serves them.
    pub fn due(&self) -> Due
        ensures { result ≡ self.now.due }
    {
        self.due
    }

    /// Whether any queue is due, of the guest's own devices or of a further one.
    pub fn is_any_due(&self) -> bool
        ensures { result ≡ is_due_in self.now }
    {
        self.due.is_any() | self.further.is_due()
    }

    /// What waits for the guest and for its host.
    pub fn waits(&self) -> Waits
        ensures { result ≡ waits_of self.now }
    {
        Waits {
            block_irq: self.guest.interrupts(GuestWindow::Block),
            console_irq: self.guest.interrupts(GuestWindow::Console),
            output: self.output.len(),
        }
    }
}

// Judges what a session is to be made of.
fn judge(spec: &RacingSpec, words: &[Vec<AtomicU64, Lodged>]) -> Result<(), RacingFault>
    ensures good { OnOk result (IsAccepted spec.now (map vec_items words.now)) }
    ensures fault { IfErr result (IsRefusedFor spec.now (map vec_items words.now)) }
{
    if !are_words_of(spec.regions.as_slice(), words) {
        return Err(RacingFault::BadLoan);
    }
    if !spec.has_outlet() {
        return Err(RacingFault::BadOutlet);
    }
    if !spec.has_limits() {
        return Err(RacingFault::SpentLimits);
    }
    if let Some(RegionFault { region, fault }) = fault_of_regions(spec.regions.as_slice()) {
        return Err(RacingFault::Memory { region, fault });
    }
    if !spec.has_depth() {
        return Err(RacingFault::BadDepth);
    }
    if !spec.has_sectors() {
        return Err(RacingFault::BadDisk);
    }
    Ok(())
}
