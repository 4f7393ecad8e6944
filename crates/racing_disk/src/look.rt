//! A look at the queue: a service up to the next request, which stays in flight or is answered at once.

ghost use Rattle.std.specs.Prelude.{◌≡◌, ◌*◌, ◌^◌, ◌<◌, IfErr, IfNone, IfOk, IfSome};
ghost use Rattle.guest_memory.specs.Memory.{Inside};
ghost use Rattle.shared_memory.specs.Sightings.{memory};
ghost use Rattle.block_device.specs.Asking.{asks_image};
ghost use Rattle.block_device.specs.Extent.{sector_len};
ghost use Rattle.block_device.specs.Hosting.{hosted_device};
ghost use Rattle.block_device.specs.Operation.{LiesInside};
ghost use Rattle.racing_service.specs.Service.{IsRacingService, standing_at};
ghost use Rattle.racing_disk.specs.Looking.{FindsOneThatAsks, FindsOneToAnswer};

use crate::disk::RacingDisk;
use block_device::{Flight, Request};
use chain::{Budget, Chain, Runs};
use racing_ring::Room;
use racing_service::{Limits, Outcome, RacingQueue, Refused, Stage, serve};
use shared_memory::Shared;

/// A look that found a request. The queue stands open behind its chain: the caller looks once more from `Stage::Next` on, or closes
/// it.
#[derive(Drop)]
pub struct Found<T> {
    /// The chain, where it asks for the disk and is in flight. Else it was answered.
    pub flight: Option<Flight<T>>,
    /// Whether the driver wants a notification of the rounds before.
    pub wanted: bool,
    /// What is left of the budget.
    pub left: Budget,
}

/// Whether a request asks for the disk.
fn asks(request: Request) -> bool
    ensures { result ≡ asks_image request }
{
    !matches!(request, Request::Rejected(_) | Request::GetId)
}

impl RacingDisk {
    /// Serves a queue from this stage on, up to its next request. One that asks for the disk stays in flight: `runs` has then where the bytes of its
    /// operation lie, and `chain` its buffers. Any other is answered. `stable` is whether the driver can't flush.
    pub fn look<Q: RacingQueue, M: Shared>(
        &mut self,
        mem: &mut M,
        queue: &mut Q,
        stage: Stage,
        limits: Limits,
        stable: bool,
        chain: &mut Chain,
        room: &mut Room,
        runs: &mut Runs,
    ) -> Result<Outcome, Found<Q::Token>>
        requires lies { Q.LiesIn (memory (M.sightings mem.old)) queue.old }
        requires disk { sector_len * self.old.device.extent.count < 2 ^ 64 }
        ensures serves { IfOk result (λ outcome. IsRacingService Q.kind (hosted_device self.old.device) M.races stage limits.rounds
            (standing_at (M.sightings mem.old) queue.old tt limits.budget)
            (standing_at (M.sightings mem.new) queue.new tt outcome.left) outcome.ending outcome.wanted) }
        ensures asks { IfErr result (λ found. IfSome found.flight (λ flight.
            FindsOneThatAsks Q.kind self.old.device M.races stage limits.rounds
            (λ ring. Q.IsTaken ring flight.token) stable
            (standing_at (M.sightings mem.old) queue.old tt limits.budget)
            (standing_at (M.sightings mem.new) queue.new tt found.left)
            (Q.entry_of flight.token) flight.operation flight.status flight.writable chain.new runs.new found.wanted)) }
        ensures answers { IfErr result (λ found. IfNone found.flight (
            FindsOneToAnswer Q.kind self.old.device M.races stage limits.rounds
            (standing_at (M.sightings mem.old) queue.old tt limits.budget)
            (standing_at (M.sightings mem.new) queue.new tt found.left) found.wanted)) }

        // Nothing that the host is told lies outside the guest's memory or its disk.
        ensures inside { IfErr result (λ found. IfSome found.flight (λ flight.
            LiesInside self.old.device.extent.count (memory (M.sightings mem.new)) flight.operation runs.new)) }

        ensures ahead { IfErr result (λ found. IfSome found.flight (λ flight. Q.IsAhead queue.new flight.token)) }
        ensures place { IfErr result (λ found. IfSome found.flight (λ flight.
            Inside (memory (M.sightings mem.new)) flight.status 1)) }
        ensures same { self.new.device ≡ self.old.device }
        ensures lies { Q.LiesIn (memory (M.sightings mem.new)) queue.new }
    {
        let Refused {
            token,
            why,
            wanted,
            left,
        } = match serve(self, runs, mem, queue, stage, limits, chain, room) {
            Ok(outcome) => return Ok(outcome),
            Err(refused) => refused,
        };
        if asks(why) {
            let flight = self.launch(queue, token, why, stable, chain, runs);
            return Err(Found {
                flight: Some(flight),
                wanted,
                left,
            });
        }
        self.answer(mem, queue, token, why, chain, runs);
        Err(Found {
            flight: None,
            wanted,
            left,
        })
    }
}
