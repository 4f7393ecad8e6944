//! Where the guest's queues stand, and another place for one, as a front end says it that starts a queue again.

ghost use Rattle.std.specs.Prelude.{◌≡◌, ◌⊎◌, ◌↔◌, None, Some, IfErr, IsErrOf, IsTrue, OnErr, OnOk};
ghost use Rattle.racing_guest.specs.Place.{guest_moved, place_in};
ghost use Rattle.racing_session.specs.declared.progress.Refusal.{Refusal};
ghost use Rattle.racing_session.specs.Place.{is_at_work};

use crate::progress::Refusal;
use crate::session::RacingSession;
use racing_guest::GuestQueue;
use std::alloc::Allocator;

impl<A: Allocator> RacingSession<A> {
    /// Where a queue stands: the place of its next used entry. There is no answer where its device may not serve it.
    pub fn place(&self, queue: GuestQueue) -> Option<u16>
        ensures { result ≡ place_in queue self.now.guest }
    {
        self.guest.place(queue)
    }

    /// Puts a queue to this place, from which on its device serves it. It is busy while the queue is due, or chains of it are in
    /// flight. It is refused as idle where the device may not serve the queue, or its ring has no such place.
    pub fn set_place(&mut self, queue: GuestQueue, place: u16) -> Result<(), Refusal>
        ensures moved { OnOk result (guest_moved queue place self.old.guest ≡ Some self.new.guest) }
        ensures rest { self.new ≡ record self.old { guest = self.new.guest } }
        ensures busy { IsErrOf result Refusal.Busy ↔ IsTrue (is_at_work queue self.old) }
        ensures idle { IsErrOf result Refusal.Idle → guest_moved queue place self.old.guest ≡ None }
        ensures fault { IfErr result (λ why. (why ≡ Refusal.Busy) ⊎ (why ≡ Refusal.Idle)) }
        ensures kept { OnErr result (self.new ≡ self.old) }
    {
        if self.due.has(queue) || self.guest.has_flights(queue) {
            return Err(Refusal::Busy);
        }
        if !self.guest.put_to(queue, place) {
            return Err(Refusal::Idle);
        }
        Ok(())
    }
}
