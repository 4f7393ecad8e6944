//! One look at the queue, and the tag that it is made for.

ghost use Rattle.std.specs.Prelude.{◌≡◌, ◌*◌, ◌^◌, ◌<◌, All, IfErr, IfOk, None, OnOk, Option, Some, is_some};
ghost use Rattle.guest_memory.specs.Memory.{SameRange};
ghost use Rattle.shared_memory.specs.Sightings.{memory};
ghost use Rattle.block_device.specs.Extent.{sector_len};
ghost use Rattle.block_device.specs.Hosting.{hosted_device};
ghost use Rattle.racing_service.specs.Flights.{AreAhead, TagFits};
ghost use Rattle.racing_service.specs.Service.{IsRacingService, standing_at};
ghost use Rattle.racing_hosted_disk.specs.Looking.{FindsIn, LooksOn, place_at};
ghost use Rattle.block_device.specs.Tags.{InFlight, TagIsHeld, free_tag, token_in, tokens_of};

use block_device::{Tag, Tags, with_tag};
use chain::{Budget, Chain};
use racing_disk::{Found, RacingDisk};
use racing_ring::Room;
use racing_service::{KeepsFlights, Limits, Outcome, Stage};
use shared_memory::Shared;
use std::alloc::Allocator;

/// A look that found a request. The queue stands open behind it.
#[derive(Clone, Copy)]
pub(crate) struct Step {
    // Whether the request asks for the disk, and is in flight.
    asks: bool,
    pub(crate) wanted: bool,
    pub(crate) left: Budget,
}

/// Looks for the next request. One that asks is put into this tag, which is the lowest free one.
pub(crate) fn look_for<Q: KeepsFlights, M: Shared, A: Allocator>(
    disk: &mut RacingDisk,
    tags: &mut Tags<Q::Token, (), A>,
    tag: usize,
    mem: &mut M,
    queue: &mut Q,
    stage: Stage,
    limits: Limits,
    stable: bool,
    chain: &mut Chain,
    room: &mut Room,
) -> Result<Outcome, Step>
    requires lies { Q.LiesIn (memory (M.sightings mem.old)) queue.old }
    requires disk { sector_len * disk.old.device.extent.count < 2 ^ 64 }
    requires lowest { free_tag tags.old ≡ Some tag }
    requires each { All (TagIsHeld disk.old.device.extent.count (memory (M.sightings mem.old))) tags.old }
    requires ahead { AreAhead Q.entry_of Q.Fits Q.ahead_of queue.old (tokens_of tags.old) }
    ensures ends { IfOk result (λ outcome. IsRacingService Q.kind (hosted_device disk.old.device) M.races stage limits.rounds
        (standing_at (M.sightings mem.old) queue.old tt limits.budget)
        (standing_at (M.sightings mem.new) queue.new tt outcome.left) outcome.ending outcome.wanted) }
    ensures idle { OnOk result (tags.new ≡ tags.old) }
    ensures finds { IfErr result (λ step. (asks : Option (InFlight Q.Token)) × LooksOn Q.kind Q.entry_of Q.IsTaken disk.old.device
        M.races stage limits.rounds stable asks (place_at (M.sightings mem.old) queue.old limits.budget tags.old)
        (place_at (M.sightings mem.new) queue.new step.left tags.new) step.wanted) }
    ensures device { disk.new.device ≡ disk.old.device }
    ensures each { All (TagIsHeld disk.old.device.extent.count (memory (M.sightings mem.new))) tags.new }
    ensures ahead { AreAhead Q.entry_of Q.Fits Q.ahead_of queue.new (tokens_of tags.new) }
    ensures range { SameRange (memory (M.sightings mem.old)) (memory (M.sightings mem.new)) }
    ensures lies { Q.LiesIn (memory (M.sightings mem.new)) queue.new }
{
    let room_of = &mut tags.items[tag];
    match look_into(
        disk, room_of, mem, queue, stage, limits, stable, chain, room,
    ) {
        Ok(outcome) => Ok(outcome),
        Err(step) => {
            if step.asks {
                tags.taken = with_tag::<Q::Token>(tags.taken, tag);
            }
            Err(step)
        }
    }
}

// Looks for the next request. One that asks is put into this tag, which is free.
fn look_into<Q: KeepsFlights, M: Shared, A: Allocator>(
    disk: &mut RacingDisk,
    tag: &mut Tag<Q::Token, (), A>,
    mem: &mut M,
    queue: &mut Q,
    stage: Stage,
    limits: Limits,
    stable: bool,
    chain: &mut Chain,
    room: &mut Room,
) -> Result<Outcome, Step>
    requires lies { Q.LiesIn (memory (M.sightings mem.old)) queue.old }
    requires disk { sector_len * disk.old.device.extent.count < 2 ^ 64 }
    requires free { tag.old ≡ None }
    ensures ends { IfOk result (λ outcome. IsRacingService Q.kind (hosted_device disk.old.device) M.races stage limits.rounds
        (standing_at (M.sightings mem.old) queue.old tt limits.budget)
        (standing_at (M.sightings mem.new) queue.new tt outcome.left) outcome.ending outcome.wanted) }
    ensures idle { OnOk result (tag.new ≡ None) }
    ensures finds { IfErr result (λ step. FindsIn Q.kind Q.entry_of Q.IsTaken disk.old.device M.races stage limits.rounds stable tag.new
        (standing_at (M.sightings mem.old) queue.old tt limits.budget)
        (standing_at (M.sightings mem.new) queue.new tt step.left) step.wanted) }
    ensures asks { IfErr result (λ step. step.asks ≡ is_some tag.new) }
    ensures device { disk.new.device ≡ disk.old.device }
    ensures held { TagIsHeld disk.old.device.extent.count (memory (M.sightings mem.new)) tag.new }
    ensures fits { TagFits Q.Fits queue.new (token_in tag.new) }
    ensures range { SameRange (memory (M.sightings mem.old)) (memory (M.sightings mem.new)) }
    ensures lies { Q.LiesIn (memory (M.sightings mem.new)) queue.new }
{
    match disk.look(
        mem,
        queue,
        stage,
        limits,
        stable,
        chain,
        room,
        &mut tag.runs,
    ) {
        Ok(outcome) => Ok(outcome),
        Err(
            Found {
                flight,
                wanted,
                left,
            },
        ) => {
            let asks = flight.is_some();
            tag.flight = flight;
            Err(Step { asks, wanted, left })
        }
    }
}
