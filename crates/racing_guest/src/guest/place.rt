//! Where a guest's queues stand, and another place for one.

ghost use Rattle.std.specs.Prelude.{◌≡◌, Some, false, is_some};
ghost use Rattle.std.specs.Bool.{OnTrue, OnFalse};
ghost use Rattle.guest_memory.specs.Memory.{Memory};
ghost use Rattle.racing_guest.specs.Guest.{IsSoundGuest};
ghost use Rattle.racing_guest.specs.Place.{guest_moved, has_flights, place_in};

use crate::guest::RacingGuest;
use crate::reply::GuestQueue;
use block_device::REQUESTQ;
use console_device::{RECEIVEQ, TRANSMITQ};
use racing_window::place_of;
use std::alloc::Allocator;

impl<A: Allocator> RacingGuest<A> {
    /// Whether chains of a queue are in flight.
    pub fn has_flights(&self, queue: GuestQueue) -> bool
        ensures { result ≡ has_flights queue self.now }
    {
        match queue {
            GuestQueue::Block => self.block.disk().is_busy(),
            GuestQueue::Receive | GuestQueue::Transmit => false,
        }
    }

    /// Where a queue stands: the place of its next used entry. There is no answer where its device may not serve it.
    pub fn place(&self, queue: GuestQueue) -> Option<u16>
        ensures { result ≡ place_in queue self.now }
    {
        match queue {
            GuestQueue::Block => place_of(self.block.window(), REQUESTQ),
            GuestQueue::Receive => place_of(self.console.window(), RECEIVEQ),
            GuestQueue::Transmit => place_of(self.console.window(), TRANSMITQ),
        }
    }

    /// Puts a queue to this place, while nothing of it is in flight. False where its device may not serve it, or its ring has no
    /// such place: nothing has changed then.
    pub fn put_to(&mut self, queue: GuestQueue, place: u16) -> bool
        requires idle { has_flights queue self.old ≡ false }
        ensures there { result ≡ is_some (guest_moved queue place self.old) }
        ensures moved { OnTrue result (guest_moved queue place self.old ≡ Some self.new) }
        ensures kept { OnFalse result (self.new ≡ self.old) }
        ensures sound { (m : Memory) → IsSoundGuest m self.old → IsSoundGuest m self.new }
    {
        match queue {
            GuestQueue::Block => self.block.put_to(place),
            GuestQueue::Receive => self.console.put_to(RECEIVEQ, place),
            GuestQueue::Transmit => self.console.put_to(TRANSMITQ, place),
        }
    }
}
