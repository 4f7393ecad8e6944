//! Where a service begins: whether its queue stands open, and what was done right before.

ghost use Rattle.std.specs.Prelude.{◌≡◌, ◌↔◌, IsTrue};
ghost use Rattle.std.specs.Result.{result_err};
ghost use Rattle.shared_memory.specs.Sightings.{Loads, memory};
ghost use Rattle.racing_service.specs.Service.{fault_at, opened_at};

use chain::Fault;
use racing_ring::RacingQueue;
use shared_memory::Shared;

/// Where a service begins.
#[derive(Clone, Copy)]
pub enum Stage {
    /// As its queue was notified: its first round opens the queue.
    First,
    /// Behind a chain that the service before left, and that was launched or answered: the queue stands open.
    Next,
    /// Right behind the closing writes of its caller. Where the first look finds nothing new, the service is settled.
    Again,
}

impl Stage {
    /// Opens the queue, unless it stands open.
    pub(crate) fn open<Q: RacingQueue, M: Shared>(
        self,
        queue: &mut Q,
        mem: &mut M,
    ) -> Result<(), Fault>
        requires { Q.LiesIn (memory (M.sightings mem.old)) queue.old }
        ensures loads { Loads M.races (M.sightings mem.old) (M.sightings mem.new) }
        ensures fault { result_err result ≡ fault_at Q.kind self (memory (M.sightings mem.new)) queue.old }
        ensures opened { queue.new ≡ opened_at Q.kind self (memory (M.sightings mem.new)) queue.old }
        ensures lies { Q.LiesIn (memory (M.sightings mem.new)) queue.new }
    {
        match self {
            Stage::First | Stage::Again => queue.open(mem),
            Stage::Next => Ok(()),
        }
    }

    /// Whether the closing writes of the round before stand.
    pub(crate) fn is_again(self) -> bool
        ensures { IsTrue result ↔ (self ≡ Stage.Again) }
    {
        matches!(self, Stage::Again)
    }
}
