//! What a guest does to its devices' registers, what is due of that, and the words that stand for its interrupt lines.

ghost use Rattle.std.specs.Prelude.{◌≡◌, ◌↔◌, ℕ, List, IsErrOf, IsTrue};
ghost use Rattle.guest_memory.specs.Memory.{SameRange};
ghost use Rattle.mmio_window.specs.Interrupts.{interrupt_bits};
ghost use Rattle.shared_memory.specs.Sightings.{memory};
ghost use Rattle.racing_memory.specs.Past.{sightings_of};
ghost use Rattle.racing_guest.specs.Guest.{IsSoundGuest, register, service_limits, window_of, write_waits};
ghost use Rattle.racing_session.specs.declared.progress.Refusal.{Refusal};
ghost use Rattle.racing_session.specs.Answering.{answer_by, has_asked};
ghost use Rattle.racing_session.specs.Session.{GoesOn, IsWritten, ServesIf, came_to, in_flight, waits_of};

use crate::due::Due;
use crate::memory::lent;
use crate::progress::{answer_by, has_asked, progress_by};
use crate::session::RacingSession;
use crate::told::Told;
use mmio_window::FaultNote;
use output_queue::OutputQueue;
use racing_guest::{GuestQueue, GuestWindow, RacingGuest, Reply};
use racing_hosted_disk::LookLimits;
use racing_memory::RacingMemory;
use served_memory::{Limits, Raced};
use std::alloc::Allocator;

impl<A: Allocator> RacingSession<A> {
    /// A guest's read of `width` bytes, 1, 2 or 4, at an offset of a window: what its register gets, extended by zeros (4.2.2).
    pub fn read(&self, window: GuestWindow, offset: u16, width: u8) -> u32
        ensures { result ≡ register window offset width self.now.guest }
    {
        self.guest.read(window, offset, width)
    }

    /// A guest's write. What it notifies is served as far as the limits go: what is left then is due, and `go_on` serves it. A
    /// write of the block window's Status or QueueReady is busy while an operation of the disk is in flight. Where what the
    /// console puts out doesn't fit behind what waits the write is refused: the chain stays on offer, those before it are served,
    /// and its queue is due.
    pub fn write(&mut self, window: GuestWindow, offset: u16, width: u8, value: u32) -> Told
        ghost stood: { List ℕ }
        ensures writes { IsWritten stood window offset width value self.old self.new result.answer }
        ensures busy { IsErrOf result.answer Refusal.Busy ↔ IsTrue (write_waits window offset self.old.guest) }
        ensures waits { result.waits ≡ waits_of self.new }
    {
        let before = self.guest.taken();
        let pages = lent(&mut self.pages);
        let regions = self.memory.regions();
        let mut mem = self.memory.over(&regions, pages);
        let (limits, out) = (self.limits, &mut self.output);
        let guest = &mut self.guest;
        let reply = guest.write(window, offset, width, value, &mut mem, limits, out);
        self.pages = mem.into_pages();
        self.due = self.due.after(reply);
        self.told(reply, before)
    }

    /// Serves each queue that is due once: the block device's, the console's for input and that for output, and then those of the
    /// further devices. What is left then is due again.
    pub fn go_on(&mut self) -> Told
        ghost stood: { List ℕ }
        ensures goes_on { GoesOn stood self.old self.new result.answer }
        ensures waits { result.waits ≡ waits_of self.new }
    {
        let before = self.guest.taken();
        let pages = lent(&mut self.pages);
        let regions = self.memory.regions();
        let mut raced = Raced(self.memory.over(&regions, pages));
        let mem = &mut raced.0;
        let (due, limits, out) = (self.due, self.limits, &mut self.output);
        let guest = &mut self.guest;
        let block = serve_if(due.block, guest, GuestQueue::Block, mem, limits, out);
        let receive = serve_if(due.receive, guest, GuestQueue::Receive, mem, limits, out);
        let transmit = serve_if(due.transmit, guest, GuestQueue::Transmit, mem, limits, out);
        self.further.go_on(&mut raced, service_limits(limits));
        self.pages = raced.0.into_pages();
        self.due = Due::none().after(block).after(receive).after(transmit);
        self.told(transmit, before)
    }

    // What is told of a call whose guest answered so, by the tags in flight before it.
    fn told(&self, reply: Reply, before: u64) -> Told
        ensures answer { result.answer ≡ answer_by reply (came_to (has_asked before (in_flight self.now.guest)) self.now) }
        ensures waits { result.waits ≡ waits_of self.now }
    {
        let asks = has_asked(before, self.guest.taken());
        Told {
            answer: answer_by(reply, progress_by(self.is_any_due(), asks)),
            waits: self.waits(),
        }
    }

    /// InterruptStatus of a window (4.2.2). Its line is high while this isn't 0.
    pub fn interrupts(&self, window: GuestWindow) -> u8
        ensures { result ≡ interrupt_bits (window_of window self.now.guest).interrupts }
    {
        self.guest.interrupts(window)
    }

    /// Why a window asks for a reset: the last fault that was met in it, if one was. No clause speaks of it.
    pub fn last_fault(&self, window: GuestWindow) -> Option<FaultNote> {
        match window {
            GuestWindow::Block => self.guest.block().window().last_fault(),
            GuestWindow::Console => self.guest.console().window().last_fault(),
        }
    }
}

// How much one service of a queue may do that isn't the disk's.
pub(super) fn service_limits(limits: LookLimits) -> Limits
    ensures { result ≡ service_limits limits }
{
    Limits {
        budget: limits.budget,
        rounds: limits.rounds,
    }
}

// Serves a queue once more, if it is due.
fn serve_if<A: Allocator>(
    is_due: bool,
    guest: &mut RacingGuest<A>,
    queue: GuestQueue,
    mem: &mut RacingMemory<'_, '_>,
    limits: LookLimits,
    out: &mut OutputQueue<A>,
) -> Reply
    requires sound { IsSoundGuest (memory (sightings_of mem.old)) guest.old }
    ensures serves { ServesIf is_due limits out.old.limit queue
        (record { guest = guest.old; output = out.old.bytes; seen = sightings_of mem.old })
        (record { guest = guest.new; output = out.new.bytes; seen = sightings_of mem.new }) result }
    ensures limit { out.new.limit ≡ out.old.limit }
    ensures range { SameRange (memory (sightings_of mem.old)) (memory (sightings_of mem.new)) }
    ensures sound { IsSoundGuest (memory (sightings_of mem.new)) guest.new }
{
    if !is_due {
        return Reply::Done;
    }
    guest.serve_again(queue, mem, limits, out)
}
