//! What the host says of the disk.

ghost use Rattle.std.specs.Prelude.{◌≡◌, IfNone, IfSome, None, Some, get_or, is_some, not, true};
ghost use Rattle.chain.specs.declared.budget.Budget.{Budget};
ghost use Rattle.guest_memory.specs.Memory.{SameRange};
ghost use Rattle.shared_memory.specs.Sightings.{memory};
ghost use Rattle.racing_hosted_disk.specs.Disk.{HoldsFlights};
ghost use Rattle.racing_hosted_disk.specs.Looking.{idle, place_at};
ghost use Rattle.block_device.specs.Tags.{freed, is_any};
ghost use Rattle.racing_hosted_disk.specs.Told.{DoesAsTold, Lands, has_effect};

use crate::disk::RacingHostedDisk;
use crate::look::{LookLimits, Served};
use block_device::{HostEvent, Verdict};
use chain::Chain;
use racing_disk::complete;
use racing_ring::Room;
use racing_service::{KeepsFlights, Stage};
use shared_memory::Shared;
use std::alloc::Allocator;

impl<T: Drop, A: Allocator> RacingHostedDisk<T, A> {
    /// Does what the host says, and looks at the queue where further chains may be taken. `None` where there is nothing to do:
    /// nothing has changed then. Behind a drop the device has to ask to be reset (2.1.2), which the caller shows.
    pub fn tell<Q: KeepsFlights<Token = T>, M: Shared>(
        &mut self,
        said: HostEvent,
        mem: &mut M,
        queue: &mut Q,
        limits: LookLimits,
        stable: bool,
        chain: &mut Chain,
        room: &mut Room,
    ) -> Option<Served>
        requires lies { Q.LiesIn (memory (M.sightings mem.old)) queue.old }
        requires held { HoldsFlights Q.entry_of Q.Fits Q.ahead_of (memory (M.sightings mem.old)) queue.old self.old }
        ensures found { is_some result ≡ has_effect said self.old }
        ensures does { IfSome result (λ served. DoesAsTold Q.kind Q.entry_of Q.IsTaken M.races limits stable said self.old
            (M.sightings mem.old) (M.sightings mem.new) queue.old queue.new self.new served.ending served.wanted) }
        ensures kept { IfNone result (self.new ≡ self.old) }
        ensures unwritten { IfNone result (M.sightings mem.new ≡ M.sightings mem.old) }
        ensures untouched { IfNone result (queue.new ≡ queue.old) }
        ensures device { self.new.device ≡ self.old.device }
        ensures range { SameRange (memory (M.sightings mem.old)) (memory (M.sightings mem.new)) }
        ensures lies { Q.LiesIn (memory (M.sightings mem.new)) queue.new }

        // Nothing that the host is told lies outside the guest's memory or its disk.
        ensures held { HoldsFlights Q.entry_of Q.Fits Q.ahead_of (memory (M.sightings mem.new)) queue.new self.new }
    {
        match said {
            HostEvent::Complete { tag, verdict } => {
                let before = self.land(tag, verdict, mem, queue)?;
                let served = self.serve_from(mem, queue, Stage::Again, limits, stable, chain, room);
                Some(Served {
                    ending: served.ending,
                    wanted: before | served.wanted,
                })
            }
            HostEvent::Drop => self.give_up(),
            HostEvent::Hold => self.hold(),
            HostEvent::Release => {
                if !self.on_hold {
                    return None;
                }
                self.on_hold = false;
                Some(self.look(mem, queue, Stage::First, limits, stable, chain, room))
            }
        }
    }

    // Completes the operation of this tag, and closes the queue behind it: whether the driver wants a notification. `None` where
    // no operation has the tag.
    fn land<Q: KeepsFlights<Token = T>, M: Shared>(
        &mut self,
        tag: u8,
        verdict: Verdict,
        mem: &mut M,
        queue: &mut Q,
    ) -> Option<bool>
        requires lies { Q.LiesIn (memory (M.sightings mem.old)) queue.old }
        requires held { HoldsFlights Q.entry_of Q.Fits Q.ahead_of (memory (M.sightings mem.old)) queue.old self.old }
        ensures found { is_some result ≡ is_some (get_or self.old.tags tag None) }
        ensures lands { IfSome result (λ wanted. (left : Budget) → Lands Q.kind Q.entry_of self.old.device M.races tag
            verdict (place_at (M.sightings mem.old) queue.old left self.old.tags)
            (place_at (M.sightings mem.new) queue.new left self.new.tags) wanted) }
        ensures rest { self.new ≡ record self.old { tags = self.new.tags } }
        ensures kept { IfNone result (self.new ≡ self.old) }
        ensures unwritten { IfNone result (M.sightings mem.new ≡ M.sightings mem.old) }
        ensures untouched { IfNone result (queue.new ≡ queue.old) }
        ensures range { SameRange (memory (M.sightings mem.old)) (memory (M.sightings mem.new)) }
        ensures lies { Q.LiesIn (memory (M.sightings mem.new)) queue.new }
        ensures held { HoldsFlights Q.entry_of Q.Fits Q.ahead_of (memory (M.sightings mem.new)) queue.new self.new }
    {
        let (flight, _) = self.tags.take(tag as usize)?;
        complete(flight, mem, queue, verdict);
        Some(queue.close(mem))
    }

    // Gives up what is in flight. `None` where nothing is.
    pub(crate) fn give_up(&mut self) -> Option<Served>
        ensures found { is_some result ≡ is_any self.old.tags }
        ensures idle { IfSome result (λ served. served ≡ idle) }
        ensures gives { IfSome result (λ served. self.new ≡ record self.old { tags = freed self.old.tags }) }
        ensures kept { IfNone result (self.new ≡ self.old) }
    {
        if !self.tags.is_busy() {
            return None;
        }
        self.tags.free_all();
        Some(Served::IDLE)
    }

    // Has no further chain taken. `None` where the queue is on hold already.
    pub(crate) fn hold(&mut self) -> Option<Served>
        ensures found { is_some result ≡ not self.old.on_hold }
        ensures idle { IfSome result (λ served. served ≡ idle) }
        ensures held { self.new ≡ record self.old { on_hold = true } }
        ensures kept { IfNone result (self.new ≡ self.old) }
    {
        if self.on_hold {
            return None;
        }
        self.on_hold = true;
        Some(Served::IDLE)
    }
}
