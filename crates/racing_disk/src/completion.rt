//! A chain in flight that is completed: its status is stored, and behind it its used entry.

ghost use Rattle.std.specs.Prelude.{◌<◌};
ghost use Rattle.guest_memory.specs.Memory.{Inside};
ghost use Rattle.shared_memory.specs.Sightings.{memory};
ghost use Rattle.racing_disk.specs.Completing.{IsGivenBack};

use block_device::{Done, Flight, Verdict};
use racing_service::RacingQueue;
use shared_memory::Shared;

/// Completes a chain in flight by how its operation came out, and gives it back. Answers its used length. The round takes no
/// more chains, and the caller closes the queue.
pub fn complete<Q: RacingQueue, M: Shared>(
    flight: Flight<Q::Token>,
    mem: &mut M,
    queue: &mut Q,
    verdict: Verdict,
) -> u32
    requires lies { Q.LiesIn (memory (M.sightings mem.old)) queue.old }
    requires ahead { Q.IsAhead queue.old flight.token }
    requires status { Inside (memory (M.sightings mem.old)) flight.status 1 }
    requires some { 0 < flight.writable }
    ensures back { IsGivenBack Q.kind M.races (M.sightings mem.old) (M.sightings mem.new) flight.status
        flight.writable flight.operation.kind verdict (Q.entry_of flight.token) result queue.old queue.new }
    ensures lies { Q.LiesIn (memory (M.sightings mem.new)) queue.new }
{
    let writable = u64::from(flight.writable);
    let done = Done::by(flight.operation.kind, verdict, writable - 1);
    mem.store_u8(flight.status, done.status.code());
    let used = done.used(writable);
    queue.land(mem, flight.token, used);
    used.len
}
