//! What the host is asked to do with the guest's disk, and what it says of it.

ghost use Rattle.std.specs.Prelude.{◌≡◌, ℕ, List, None, get_or, IfOk, IfErr, IfSome, OnErr, is_ok};
ghost use Rattle.guest_memory.specs.Memory.{Memory};
ghost use Rattle.block_device.specs.Operation.{LiesInside};
ghost use Rattle.block_device.specs.declared.operation.HostEvent.{HostEvent};
ghost use Rattle.block_device.specs.Tags.{operation_in, runs_in};
ghost use Rattle.racing_hosted_disk.specs.Told.{has_effect};
ghost use Rattle.racing_session.specs.declared.progress.Refusal.{Refusal};
ghost use Rattle.racing_session.specs.Session.{IsMemoryOf, IsSaid, IsSoundSession, in_flight, waits_of};

use crate::memory::lent;
use crate::progress::{Refusal, has_asked_by, progress_by};
use crate::session::RacingSession;
use crate::told::Told;
use block_device::{HostEvent, Operation, Verdict};
use chain::Segment;
use racing_guest::GuestQueue;
use std::alloc::Allocator;

impl<A: Allocator> RacingSession<A> {
    /// Completes what is in flight with this tag, by what came of it. Then the device looks at its queue again, and operations may
    /// begin, this tag's among them. It is refused where the tag is free.
    pub fn completed(&mut self, tag: u8, verdict: Verdict) -> Told
        ghost stood: { List ℕ }
        ensures found { is_ok result.answer ≡ has_effect (HostEvent.Complete tag verdict) self.old.guest.block.disk }
        ensures said { IfOk result.answer (IsSaid stood (HostEvent.Complete tag verdict) self.old self.new) }
        ensures idle { IfErr result.answer (λ why. why ≡ Refusal.Idle) }
        ensures kept { OnErr result.answer (self.new ≡ self.old) }
        ensures waits { result.waits ≡ waits_of self.new }
    {
        self.say(HostEvent::Complete { tag, verdict })
    }

    /// Gives up what is in flight, as no transfer touches the guest's memory any more: its tags are free, and the device asks to
    /// be reset. It is refused where nothing is in flight.
    pub fn dropped(&mut self) -> Told
        ghost stood: { List ℕ }
        ensures found { is_ok result.answer ≡ has_effect HostEvent.Drop self.old.guest.block.disk }
        ensures said { IfOk result.answer (IsSaid stood HostEvent.Drop self.old self.new) }
        ensures idle { IfErr result.answer (λ why. why ≡ Refusal.Idle) }
        ensures kept { OnErr result.answer (self.new ≡ self.old) }
        ensures waits { result.waits ≡ waits_of self.new }
    {
        self.say(HostEvent::Drop)
    }

    /// Has no further chain of the disk taken until `release`. What is in flight is completed as ever. It is refused where the disk
    /// is on hold.
    pub fn hold(&mut self) -> Told
        ghost stood: { List ℕ }
        ensures found { is_ok result.answer ≡ has_effect HostEvent.Hold self.old.guest.block.disk }
        ensures said { IfOk result.answer (IsSaid stood HostEvent.Hold self.old self.new) }
        ensures idle { IfErr result.answer (λ why. why ≡ Refusal.Idle) }
        ensures kept { OnErr result.answer (self.new ≡ self.old) }
        ensures waits { result.waits ≡ waits_of self.new }
    {
        self.say(HostEvent::Hold)
    }

    /// Has chains of the disk taken again: the device looks at its queue, and operations may begin. It is refused where the disk
    /// isn't on hold.
    pub fn release(&mut self) -> Told
        ghost stood: { List ℕ }
        ensures found { is_ok result.answer ≡ has_effect HostEvent.Release self.old.guest.block.disk }
        ensures said { IfOk result.answer (IsSaid stood HostEvent.Release self.old self.new) }
        ensures idle { IfErr result.answer (λ why. why ≡ Refusal.Idle) }
        ensures kept { OnErr result.answer (self.new ≡ self.old) }
        ensures waits { result.waits ≡ waits_of self.new }
    {
        self.say(HostEvent::Release)
    }

    /// The host says this of the disk: `completed`, `dropped`, `hold` or `release`.
    pub fn say(&mut self, said: HostEvent) -> Told
        ghost stood: { List ℕ }
        ensures found { is_ok result.answer ≡ has_effect said self.old.guest.block.disk }
        ensures said { IfOk result.answer (IsSaid stood said self.old self.new) }
        ensures idle { IfErr result.answer (λ why. why ≡ Refusal.Idle) }
        ensures kept { OnErr result.answer (self.new ≡ self.old) }
        ensures waits { result.waits ≡ waits_of self.new }
    {
        let before = self.guest.taken();
        let pages = lent(&mut self.pages);
        let regions = self.memory.regions();
        let mut mem = self.memory.over(&regions, pages);
        let told = self.guest.tell(said, &mut mem, self.limits);
        self.pages = mem.into_pages();
        let Some(so_far) = told else {
            return Told {
                answer: Err(Refusal::Idle),
                waits: self.waits(),
            };
        };
        self.due = self.due.by(GuestQueue::Block, so_far);
        let asks = has_asked_by(said, before, self.guest.taken());
        Told {
            answer: Ok(progress_by(self.is_any_due(), asks)),
            waits: self.waits(),
        }
    }

    /// The tags in flight of the disk: bit n is set where tag n is taken.
    pub fn in_flight(&self) -> u64
        ensures tags { result ≡ in_flight self.now.guest }

        // whatever was called before, and whatever the guest wrote and writes
        ensures sound { IsSoundSession self.now }
    {
        self.guest.taken()
    }

    /// What the host is asked to do with this tag. There is no answer where the tag is free.
    pub fn operation(&self, tag: u8) -> Option<Operation>
        ensures { result ≡ operation_in (get_or self.now.guest.block.disk.tags tag None) }
    {
        self.guest.operation(tag)
    }

    /// Where the bytes of the operation in flight with this tag lie: runs of guest memory, or of a ZEROES of the guest's disk.
    /// There are none where the tag is free.
    pub fn runs(&self, tag: u8) -> &[Segment]
        ensures runs { result.now ≡ runs_in (get_or self.now.guest.block.disk.tags tag None) }

        // nothing that the host is told lies outside the guest's memory or its disk, whatever the guest wrote and writes
        ensures inside { (m : Memory) → IsMemoryOf self.now m →
            IfSome (operation_in (get_or self.now.guest.block.disk.tags tag None)) (λ operation.
            LiesInside self.now.guest.block.disk.device.extent.count m operation result.now) }
    {
        self.guest.runs(tag)
    }
}
