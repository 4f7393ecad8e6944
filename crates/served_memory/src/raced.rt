//! A guest that runs on.

ghost use Rattle.std.specs.Prelude.{◌≡◌, ◌||◌, IsSome};
ghost use Rattle.guest_memory.specs.Memory.{SameRange};
ghost use Rattle.mmio_window.specs.Soundness.{IsSound};
ghost use Rattle.mmio_window.specs.Window.{queue_at};
ghost use Rattle.shared_memory.specs.Sightings.{memory};
ghost use Rattle.served_memory.specs.Closing.{ClosesLeft};

use crate::served::Served;
use chain::{Chain, Progress};
use chain_handler::{ChainHandler, Standing};
use mmio_window::{Left, Stage, Window, show};
use racing_ring::Room;
use racing_service::{Limits, RacingQueue};
use racing_window::{RacingRing, serve_queue};
use shared_memory::Shared;

/// Memory that its guest may write during each call.
#[derive(Drop)]
pub struct Raced<M>(pub M);

impl<M: Shared> Served for Raced<M> {
    ghost use Rattle.served_memory.specs.World.{racing};
    ghost use Rattle.served_memory.specs.Racing.{racing_laws};

    type Room = Room;

    ghost world = { racing M.races };

    ghost laws = { racing_laws M.races };

    ghost seen = { λ m. M.sightings m.0 };

    fn serve<B, H: ChainHandler<B>>(
        &mut self,
        device: &mut Standing<H>,
        backend: &mut B,
        q: u16,
        window: &mut Window,
        _stage: Stage,
        limits: Limits,
        chain: &mut Chain,
        room: &mut Room,
    ) -> Result<Progress, H::Refusal> {
        match serve_queue(
            window,
            q,
            &mut device.0,
            backend,
            &mut self.0,
            limits,
            chain,
            room,
        ) {
            Ok(progress) => Ok(progress),
            Err(refused) => {
                close(window, q, refused.wanted, &mut self.0, chain);
                Err(refused.why)
            }
        }
    }
}

// Closes the queue behind a chain that is left, and shows what is owed of the chains before it.
fn close<M: Shared>(window: &mut Window, q: u16, before: bool, mem: &mut M, chain: &mut Chain)
    requires there { IsSome (queue_at q window.old) }
    requires sound { IsSound (memory (M.sightings mem.old)) window.old }
    ensures closes { ClosesLeft M.races q (queue_at q window.old) before (M.sightings mem.old) (M.sightings mem.new)
        window.old window.new }
    ensures range { SameRange (memory (M.sightings mem.old)) (memory (M.sightings mem.new)) }
    ensures sound { IsSound (memory (M.sightings mem.new)) window.new }
{
    let Some(queue) = window.queue(q) else {
        unreachable!();
    };
    let mut ring = RacingRing::of(queue);
    let wanted = before | ring.close(mem);
    *queue = ring.queue();
    let fault = None;
    let _ = show(window, q, Left::Closed { fault, wanted }, chain);
}
