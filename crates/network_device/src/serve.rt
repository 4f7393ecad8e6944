//! A piece of a service of each queue, and what the window shows of it.

ghost use Rattle.std.specs.Prelude.{◌≡◌, [], IfOk, OnErr};
ghost use Rattle.guest_memory.specs.Memory.{SameRange};
ghost use Rattle.mmio_window.specs.Soundness.{IsSound};
ghost use Rattle.mmio_window.specs.Window.{queue_at};
ghost use Rattle.network_device.specs.Device.{emptied, passing, transmit};
ghost use Rattle.network_device.specs.Receiving.{ReceivesIn};

use crate::device::{NetworkDevice, RECEIVEQ, TRANSMITQ};
use crate::outlet::FrameOutlet;
use crate::receive::{Receive, skip};
use crate::transmit::{NoRoom, Transmit};
use chain::{Chain, Progress};
use chain_handler::Standing;
use mmio_window::{Stage, Window};
use served_memory::{Limits, Served};
use std::alloc::Allocator;

impl<A: Allocator> NetworkDevice<A> {
    /// Puts waiting frames into the chains on offer (5.1.6.4), in the window of this device, over any memory, within limits. Where the
    /// window isn't live or its receive queue not ready, nothing happens. Where the limits are met, a frame waits and one more chain
    /// is on offer, the service goes on with its next piece. Until then no other call may be made with the window of a guest that
    /// stands still, whose queue stands open. `chain` and `room` are as [`Served::serve`] takes them.
    #[inline(always)]
    pub fn serve_receive_in<G: Served>(
        &mut self,
        mem: &mut G,
        window: &mut Window,
        stage: Stage,
        limits: Limits,
        chain: &mut Chain,
        room: &mut G::Room,
    ) -> Progress
        requires sound { IsSound (G.world.last (G.seen mem.old)) window.old }
        ensures served { ReceivesIn G.world stage limits (queue_at 0 window.old) result (G.seen mem.old) (G.seen mem.new)
            window.old window.new self.old.waiting self.new.waiting }
        ensures rest { self.new ≡ record self.old { waiting = self.new.waiting } }
        ensures range { SameRange (G.world.last (G.seen mem.old)) (G.world.last (G.seen mem.new)) }
        ensures sound { IsSound (G.world.last (G.seen mem.new)) window.new }
    {
        let device = &mut Standing(Receive {
            dropped: self.dropped_in,
        });
        let waiting = &mut self.waiting;
        let served = mem.serve(
            device, waiting, RECEIVEQ, window, stage, limits, chain, room,
        );
        self.dropped_in = device.0.dropped;
        match served {
            Ok(progress) => progress,
            Err(_) => {
                self.drop_waiting();
                Progress::Done
            }
        }
    }

    /// Drops the frames that wait.
    fn drop_waiting(&mut self)
        ensures { self.new ≡ record self.old { waiting = emptied self.old.waiting } }
    {
        let count = self.waiting.count();
        skip(&mut self.waiting, count);
        self.dropped_in = self.dropped_in.saturating_add(count as u64);
    }

    /// Puts out the frames of the chains on offer (5.1.6.2), in the window of this device, behind those that wait in `out`,
    /// over any memory, within limits. A chain for whose frame there is no room stays on offer, and those before it are used. A
    /// chain without a frame, or with one that `out` can never take, is given back and counted as dropped. Where the window isn't
    /// live or its transmit queue not ready, nothing happens. A further piece, `chain` and `room` are as in `serve_receive_in`.
    #[inline(always)]
    pub fn serve_transmit_in<G: Served, O: FrameOutlet>(
        &mut self,
        mem: &mut G,
        window: &mut Window,
        out: &mut O,
        stage: Stage,
        limits: Limits,
        chain: &mut Chain,
        room: &mut G::Room,
    ) -> Result<Progress, NoRoom>
        requires sound { IsSound (G.world.last (G.seen mem.old)) window.old }
        requires begun { O.begun out.old ≡ [] }
        ensures ok { IfOk result (λ progress. G.world.ServesTo (transmit (O.limits out.old)) stage limits 1
            (queue_at 1 window.old) progress (G.seen mem.old) (G.seen mem.new) window.old window.new
            (passing (O.frames out.old) self.old.dropped) (passing (O.frames out.new) self.new.dropped)) }
        ensures no_room { OnErr result (G.world.RefusedTo (transmit (O.limits out.old)) stage limits 1
            (queue_at 1 window.old) (G.seen mem.old) (G.seen mem.new) window.old window.new
            (passing (O.frames out.old) self.old.dropped) (passing (O.frames out.new) self.new.dropped)) }
        ensures limits { O.limits out.new ≡ O.limits out.old }
        ensures begun { O.begun out.new ≡ [] }
        ensures rest { self.new ≡ record self.old { dropped = self.new.dropped } }
        ensures range { SameRange (G.world.last (G.seen mem.old)) (G.world.last (G.seen mem.new)) }
        ensures sound { IsSound (G.world.last (G.seen mem.new)) window.new }
    {
        let device = &mut Standing(Transmit {
            dropped: self.dropped_out,
        });
        let served = mem.serve(device, out, TRANSMITQ, window, stage, limits, chain, room);
        self.dropped_out = device.0.dropped;
        served
    }
}
