//! Whether a guest can stand over another memory.

ghost use Rattle.std.specs.Prelude.{◌≡◌, IsTrue, false};
ghost use Rattle.guest_memory.specs.Memory.{Memory};
ghost use Rattle.shared_memory.specs.Sightings.{memory};
ghost use Rattle.racing_guest.specs.declared.reply.GuestQueue.{GuestQueue};
ghost use Rattle.racing_guest.specs.Guest.{IsSoundGuest};
ghost use Rattle.racing_guest.specs.Memory.{guest_fits};
ghost use Rattle.racing_guest.specs.Place.{has_flights};

use crate::guest::RacingGuest;
use racing_window::fits;
use shared_memory::Shared;
use std::alloc::Allocator;

impl<A: Allocator> RacingGuest<A> {
    /// Whether each ready queue of the guest could be made ready over this memory, which is another than that of the calls before.
    /// Where nothing is in flight either, this may be the memory of the calls from now on.
    pub fn fits<M: Shared>(&self, mem: &M) -> bool
        ensures fits { result ≡ guest_fits (memory (M.sightings mem.now)) self.now }
        ensures sound { IsTrue result → has_flights GuestQueue.Block self.now ≡ false → (m : Memory) → IsSoundGuest m self.now
            → IsSoundGuest (memory (M.sightings mem.now)) self.now }
    {
        fits(self.block.window(), mem) && fits(self.console.window(), mem)
    }
}
