//! What comes to a guest from outside: what is typed, the console's size, and what the host says of the disk.

ghost use Rattle.std.specs.Prelude.{◌≡◌, IfNone, IfSome, is_some};
ghost use Rattle.guest_memory.specs.Memory.{Memory, SameRange};
ghost use Rattle.shared_memory.specs.Sightings.{memory};
ghost use Rattle.console_device.specs.Input.{fitting};
ghost use Rattle.racing_hosted_disk.specs.Told.{has_effect};
ghost use Rattle.racing_guest.specs.Console.{with_size};
ghost use Rattle.racing_guest.specs.Guest.{IsSoundGuest, IsTold, TakesInput};

use crate::guest::{RacingGuest, service_limits};
use block_device::HostEvent;
use chain::Progress;
use racing_hosted_disk::LookLimits;
use shared_memory::Shared;
use std::alloc::Allocator;

impl<A: Allocator> RacingGuest<A> {
    /// Takes what is typed, as much of it as fits, and serves the console's receive queue: how many bytes were taken, and whether
    /// that queue is to be served once more.
    pub fn input<M: Shared>(
        &mut self,
        bytes: &[u8],
        mem: &mut M,
        limits: LookLimits,
    ) -> (usize, Progress)
        requires sound { IsSoundGuest (memory (M.sightings mem.old)) self.old }
        ensures count { result.0 ≡ fitting self.old.console.device.pending bytes.now }
        ensures takes { TakesInput bytes.now M.races limits (M.sightings mem.old) (M.sightings mem.new)
            self.old self.new result.1 }
        ensures range { SameRange (memory (M.sightings mem.old)) (memory (M.sightings mem.new)) }
        ensures sound { IsSoundGuest (memory (M.sightings mem.new)) self.new }
    {
        let taken = self.console.input(bytes);
        let chain = &mut *self.chain;
        let room = &mut *self.room;
        let limits = service_limits(limits);
        let progress = self.console.serve_receive(mem, limits, chain, room);
        (taken, progress)
    }

    /// Changes the console's size, of which the driver is told where there is one.
    pub fn resize(&mut self, cols: u16, rows: u16)
        ensures resized { self.new ≡ record self.old { console = with_size cols rows self.old.console } }
        ensures sound { (m : Memory) → IsSoundGuest m self.old → IsSoundGuest m self.new }
    {
        self.console.resize(cols, rows);
    }

    /// Does what the host says of the disk. `None` where there is nothing to do: nothing has changed then.
    pub fn tell<M: Shared>(
        &mut self,
        said: HostEvent,
        mem: &mut M,
        limits: LookLimits,
    ) -> Option<Progress>
        requires sound { IsSoundGuest (memory (M.sightings mem.old)) self.old }
        ensures found { is_some result ≡ has_effect said self.old.block.disk }
        ensures does { IfSome result (IsTold said M.races limits (M.sightings mem.old) (M.sightings mem.new)
            self.old self.new) }
        ensures kept { IfNone result (self.new ≡ self.old) }
        ensures unwritten { IfNone result (M.sightings mem.new ≡ M.sightings mem.old) }
        ensures range { SameRange (memory (M.sightings mem.old)) (memory (M.sightings mem.new)) }
        ensures sound { IsSoundGuest (memory (M.sightings mem.new)) self.new }
    {
        let chain = &mut *self.chain;
        let room = &mut *self.room;
        self.block.tell(said, mem, limits, chain, room)
    }
}
