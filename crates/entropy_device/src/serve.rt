//! A service of the requestq, whole or in pieces, and whether its driver waits.

ghost use Rattle.std.specs.Prelude.{◌≡◌};
ghost use Rattle.guest_memory.specs.Memory.{SameRange};
ghost use Rattle.mmio_window.specs.Serving.{IsNotified};
ghost use Rattle.mmio_window.specs.Soundness.{IsSound};
ghost use Rattle.mmio_window.specs.Window.{queue_at};
ghost use Rattle.entropy_device.specs.Device.{entropy};
ghost use Rattle.entropy_device.specs.Waiting.{is_starved};

use crate::device::EntropyDevice;
use crate::requestq::Requestq;
use chain::{Budget, Chain, Progress};
use chain_handler::Standing;
use guest_memory::GuestMemory;
use mmio_window::{Stage, Window};
use served_memory::{Limits, Served};
use std::alloc::Allocator;

/// The one queue (5.4.2).
pub const REQUESTQ: u16 = 0;

impl EntropyDevice {
    /// Puts the pool's bytes into the chains on offer (5.4.6), in the window of this device. Where the window isn't
    /// live or its queue not ready, nothing happens.
    pub fn serve<M: Allocator>(&mut self, mem: &mut GuestMemory<M>, window: &mut Window)
        requires sound { IsSound mem.old window.old }
        ensures served { IsNotified entropy 0 (queue_at 0 window.old) mem.old mem.new
            window.old window.new self.old self.new }
        ensures range { SameRange mem.old mem.new }
        ensures sound { IsSound mem.new window.new }
    {
        let limits = Limits {
            budget: Budget::UNLIMITED,
            rounds: 1,
        };
        let mut chain = Chain::new();
        let _ = self.serve_in(mem, window, Stage::First, limits, &mut chain, &mut ());
    }

    /// The same over any memory, within limits: where those are met, the pool has a byte and one more chain is on offer, the
    /// service goes on with its next piece. Until then no other call may be made with the window of a guest that stands still, whose
    /// queue stands open. `chain` and `room` are as [`Served::serve`] takes them.
    #[inline(always)]
    pub fn serve_in<G: Served>(
        &mut self,
        mem: &mut G,
        window: &mut Window,
        stage: Stage,
        limits: Limits,
        chain: &mut Chain,
        room: &mut G::Room,
    ) -> Progress
        requires sound { IsSound (G.world.last (G.seen mem.old)) window.old }
        ensures served { G.world.ServesTo entropy stage limits 0 (queue_at 0 window.old) result (G.seen mem.old)
            (G.seen mem.new) window.old window.new self.old self.new }
        ensures range { SameRange (G.world.last (G.seen mem.old)) (G.world.last (G.seen mem.new)) }
        ensures sound { IsSound (G.world.last (G.seen mem.new)) window.new }
    {
        let device = &mut Standing(Requestq);
        match mem.serve(device, self, REQUESTQ, window, stage, limits, chain, room) {
            Ok(progress) => progress,
            Err(_) => unreachable!(),
        }
    }

    /// Whether the driver waits for bytes: the pool is empty, and a chain is on offer. `room` is where that chain is put.
    pub fn starved<M: Allocator>(
        &self,
        mem: &GuestMemory<M>,
        window: &Window,
        room: &mut Chain,
    ) -> bool
        requires sound { IsSound mem.now window.now }
        ensures { result ≡ is_starved mem.now (queue_at 0 window.now) self.now }
    {
        self.is_empty() && window.has_offer(REQUESTQ, mem, room)
    }
}
