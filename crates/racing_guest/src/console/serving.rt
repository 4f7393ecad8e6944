//! The services of the console's queues.

ghost use Rattle.std.specs.Prelude.{◌≡◌, IfOk, IsSome, OnErr};
ghost use Rattle.guest_memory.specs.Memory.{SameRange};
ghost use Rattle.mmio_window.specs.Soundness.{IsSound};
ghost use Rattle.mmio_window.specs.Window.{queue_at};
ghost use Rattle.shared_memory.specs.Sightings.{memory};
ghost use Rattle.console_device.specs.Device as queues;
ghost use Rattle.racing_window.specs.Serving.{Notified};
ghost use Rattle.racing_guest.specs.Console.{ClosesLeft, TransmitsUpTo};

use chain::{Chain, Progress};
use console_device::{
    ConsoleDevice, NoMemory, Outlet, RECEIVEQ, ReceiveHandler, TRANSMITQ, TransmitHandler,
};
use mmio_window::{Left, Window, show};
use racing_ring::Room;
use racing_service::{Limits, RacingQueue};
use racing_window::{RacingRing, serve_queue};
use shared_memory::Shared;
use std::alloc::Allocator;

/// Fills the chains of the receive queue from pending input.
pub(super) fn receive<M: Shared, A: Allocator>(
    window: &mut Window,
    console: &mut ConsoleDevice<A>,
    mem: &mut M,
    limits: Limits,
    chain: &mut Chain,
    room: &mut Room,
) -> Progress
    requires sound { IsSound (memory (M.sightings mem.old)) window.old }
    ensures notified { Notified queues.receive M.races limits.rounds 0 limits.budget (queue_at 0 window.old) result
        (M.sightings mem.old) (M.sightings mem.new) window.old window.new console.old.pending console.new.pending }
    ensures size { console.new ≡ record console.old { pending = console.new.pending } }
    ensures range { SameRange (memory (M.sightings mem.old)) (memory (M.sightings mem.new)) }
    ensures sound { IsSound (memory (M.sightings mem.new)) window.new }
{
    let device = &mut ReceiveHandler;
    match serve_queue(window, RECEIVEQ, device, console, mem, limits, chain, room) {
        Ok(progress) => progress,
        Err(_) => unreachable!(),
    }
}

/// Puts out the chains of the transmit queue. One for whose bytes `out` has no room stays on offer.
pub(super) fn transmit<M: Shared, O: Outlet>(
    window: &mut Window,
    mem: &mut M,
    limits: Limits,
    chain: &mut Chain,
    room: &mut Room,
    out: &mut O,
) -> Result<Progress, NoMemory>
    requires sound { IsSound (memory (M.sightings mem.old)) window.old }
    ensures notified { IfOk result (λ progress. Notified (queues.transmit_within (O.limit out.old)) M.races
        limits.rounds 1 limits.budget (queue_at 1 window.old) progress (M.sightings mem.old) (M.sightings mem.new) window.old
        window.new (O.bytes out.old) (O.bytes out.new)) }
    ensures refused { OnErr result (TransmitsUpTo M.races limits (O.limit out.old) (queue_at 1 window.old)
        (M.sightings mem.old) (M.sightings mem.new) window.old window.new (O.bytes out.old) (O.bytes out.new)) }
    ensures limit { O.limit out.new ≡ O.limit out.old }
    ensures range { SameRange (memory (M.sightings mem.old)) (memory (M.sightings mem.new)) }
    ensures sound { IsSound (memory (M.sightings mem.new)) window.new }
{
    let device = &mut TransmitHandler;
    match serve_queue(window, TRANSMITQ, device, out, mem, limits, chain, room) {
        Ok(progress) => Ok(progress),
        Err(refused) => {
            close(window, refused.wanted, mem, chain);
            Err(refused.why)
        }
    }
}

// Closes the transmit queue behind a chain that is left, and shows what is owed of the chains before it.
fn close<M: Shared>(window: &mut Window, before: bool, mem: &mut M, chain: &mut Chain)
    requires there { IsSome (queue_at 1 window.old) }
    requires sound { IsSound (memory (M.sightings mem.old)) window.old }
    ensures closes { ClosesLeft M.races (queue_at 1 window.old) before (M.sightings mem.old) (M.sightings mem.new)
        window.old window.new }
    ensures range { SameRange (memory (M.sightings mem.old)) (memory (M.sightings mem.new)) }
    ensures sound { IsSound (memory (M.sightings mem.new)) window.new }
{
    let Some(queue) = window.queue(TRANSMITQ) else {
        unreachable!();
    };
    let mut ring = RacingRing::of(queue);
    let wanted = before | ring.close(mem);
    *queue = ring.queue();
    let fault = None;
    let _ = show(window, TRANSMITQ, Left::Closed { fault, wanted }, chain);
}
