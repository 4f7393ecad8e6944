//! Looks at the queue, one after another, until one finds no request, no tag is free, or there were as many as there may be. The
//! queue stands open behind each that finds a request.

ghost use Rattle.std.specs.Prelude.{◌≡◌};
ghost use Rattle.guest_memory.specs.Memory.{SameRange};
ghost use Rattle.shared_memory.specs.Sightings.{memory};
ghost use Rattle.racing_hosted_disk.specs.Disk.{HoldsFlights};
ghost use Rattle.racing_hosted_disk.specs.Looking.{HasLooked, LooksAtQueue, ServesDisk, place_at, progress_of};

use crate::disk::RacingHostedDisk;
use crate::step::look_for;
use chain::{Budget, Chain, Progress};
use racing_ring::Room;
use racing_service::{Ending, KeepsFlights, Limits, Stage};
use shared_memory::Shared;
use std::alloc::Allocator;

/// How much one call may do, so that a driver which offers chains without end can't hold its device for ever.
#[derive(Clone, Copy)]
pub struct LookLimits {
    /// What all chains may cost.
    pub budget: Budget,
    /// How many rounds each look may have.
    pub rounds: u32,
    /// How many looks there may be: each but the last one finds a request.
    pub looks: u32,
}

/// Why a call looks no further.
#[derive(Clone, Copy)]
pub enum LookEnding {
    /// A look found no request, and its service ended so.
    Served(Ending),
    /// No tag is free. The queue is left as it stands, and looked at once one is: behind a completion.
    Full,
    /// There were as many looks as there may be. More may be on offer, of which the driver doesn't notify again: the caller
    /// serves the queue once more.
    Limited,
    /// The queue wasn't looked at.
    Idle,
}

/// What a call comes to.
#[derive(Clone, Copy)]
pub struct Served {
    /// Why it looks no further.
    pub ending: LookEnding,
    /// Whether the driver wants a notification.
    pub wanted: bool,
}

impl LookEnding {
    /// Whether the queue is to be served once more, though its driver doesn't notify again.
    pub fn progress(self) -> Progress
        ensures { result ≡ progress_of self }
    {
        match self {
            LookEnding::Served(ending) => ending.progress(),
            LookEnding::Limited => Progress::More,
            LookEnding::Full | LookEnding::Idle => Progress::Done,
        }
    }
}

impl Served {
    /// The queue wasn't looked at.
    pub(crate) const IDLE: Served = Served {
        ending: LookEnding::Idle,
        wanted: false,
    };
}

impl<T: Drop, A: Allocator> RacingHostedDisk<T, A> {
    /// Serves the queue, which was notified: chains that ask the host for something take free tags, unless the queue is on hold.
    /// `stable` is whether the driver can't flush. `chain` and `room` are where chains stand, one after another.
    pub fn serve<Q: KeepsFlights<Token = T>, M: Shared>(
        &mut self,
        mem: &mut M,
        queue: &mut Q,
        limits: LookLimits,
        stable: bool,
        chain: &mut Chain,
        room: &mut Room,
    ) -> Served
        requires lies { Q.LiesIn (memory (M.sightings mem.old)) queue.old }
        requires held { HoldsFlights Q.entry_of Q.Fits Q.ahead_of (memory (M.sightings mem.old)) queue.old self.old }
        ensures serves { ServesDisk Q.kind Q.entry_of Q.IsTaken M.races limits stable self.old (M.sightings mem.old)
            (M.sightings mem.new) queue.old queue.new self.new result.ending result.wanted }
        ensures device { self.new.device ≡ self.old.device }
        ensures range { SameRange (memory (M.sightings mem.old)) (memory (M.sightings mem.new)) }
        ensures lies { Q.LiesIn (memory (M.sightings mem.new)) queue.new }

        // Nothing that the host is told lies outside the guest's memory or its disk.
        ensures held { HoldsFlights Q.entry_of Q.Fits Q.ahead_of (memory (M.sightings mem.new)) queue.new self.new }
    {
        self.serve_from(mem, queue, Stage::First, limits, stable, chain, room)
    }

    // Looks at the queue from this stage on, unless it is on hold.
    pub(crate) fn serve_from<Q: KeepsFlights<Token = T>, M: Shared>(
        &mut self,
        mem: &mut M,
        queue: &mut Q,
        stage: Stage,
        limits: LookLimits,
        stable: bool,
        chain: &mut Chain,
        room: &mut Room,
    ) -> Served
        requires lies { Q.LiesIn (memory (M.sightings mem.old)) queue.old }
        requires held { HoldsFlights Q.entry_of Q.Fits Q.ahead_of (memory (M.sightings mem.old)) queue.old self.old }
        ensures serves { LooksAtQueue Q.kind Q.entry_of Q.IsTaken M.races limits stable stage self.old (M.sightings mem.old)
            (M.sightings mem.new) queue.old queue.new self.new result.ending result.wanted }
        ensures device { self.new.device ≡ self.old.device }
        ensures range { SameRange (memory (M.sightings mem.old)) (memory (M.sightings mem.new)) }
        ensures lies { Q.LiesIn (memory (M.sightings mem.new)) queue.new }
        ensures held { HoldsFlights Q.entry_of Q.Fits Q.ahead_of (memory (M.sightings mem.new)) queue.new self.new }
    {
        if self.on_hold {
            return Served::IDLE;
        }
        self.look(mem, queue, stage, limits, stable, chain, room)
    }

    // Looks at the queue from this stage on.
    pub(crate) fn look<Q: KeepsFlights<Token = T>, M: Shared>(
        &mut self,
        mem: &mut M,
        queue: &mut Q,
        stage: Stage,
        limits: LookLimits,
        stable: bool,
        chain: &mut Chain,
        room: &mut Room,
    ) -> Served
        requires lies { Q.LiesIn (memory (M.sightings mem.old)) queue.old }
        requires held { HoldsFlights Q.entry_of Q.Fits Q.ahead_of (memory (M.sightings mem.old)) queue.old self.old }
        ensures looks { HasLooked Q.kind Q.entry_of Q.IsTaken self.old.device M.races limits stable stage
            (place_at (M.sightings mem.old) queue.old limits.budget self.old.tags)
            (M.sightings mem.new) queue.new self.new.tags result.ending result.wanted }
        ensures rest { self.new ≡ record self.old { tags = self.new.tags } }
        ensures range { SameRange (memory (M.sightings mem.old)) (memory (M.sightings mem.new)) }
        ensures lies { Q.LiesIn (memory (M.sightings mem.new)) queue.new }
        ensures held { HoldsFlights Q.entry_of Q.Fits Q.ahead_of (memory (M.sightings mem.new)) queue.new self.new }
    {
        let mut left = limits.budget;
        let mut wanted = false;
        let mut here = stage;
        for _ in 0..limits.looks {
            let Some(tag) = self.tags.lowest_free() else {
                return Served {
                    ending: LookEnding::Full,
                    wanted,
                };
            };
            let limits = Limits {
                budget: left,
                rounds: limits.rounds,
            };
            let (disk, tags) = (&mut self.disk, &mut self.tags);
            match look_for(
                disk, tags, tag, mem, queue, here, limits, stable, chain, room,
            ) {
                Ok(outcome) => {
                    return Served {
                        ending: LookEnding::Served(outcome.ending),
                        wanted: wanted | outcome.wanted,
                    };
                }
                Err(step) => {
                    wanted |= step.wanted;
                    left = step.left;
                }
            }
            here = Stage::Next;
        }
        let asked = queue.close(mem);
        Served {
            ending: LookEnding::Limited,
            wanted: wanted | asked,
        }
    }
}
