//! A service of each queue, whole or in pieces, and what the window shows of it.

ghost use Rattle.std.specs.Prelude.{◌≡◌, IfOk, OnOk, OnErr};
ghost use Rattle.guest_memory.specs.Memory.{SameRange};
ghost use Rattle.chain.specs.Service.{Refused};
ghost use Rattle.mmio_window.specs.Pieces.{IsRefusedAt, ServesTo};
ghost use Rattle.mmio_window.specs.Serving.{IsNotified, Notified};
ghost use Rattle.mmio_window.specs.Soundness.{IsSound};
ghost use Rattle.mmio_window.specs.Window.{queue_at};
ghost use Rattle.console_device.specs.Device.{exact_transmit, receive, transmit, transmit_fitting, transmit_within};
ghost use Rattle.console_device.specs.Output.{IsUnrefused};

use crate::device::{ConsoleDevice, RECEIVEQ, TRANSMITQ};
use crate::no_memory::NoMemory;
use crate::outlet::Outlet;
use crate::receive::ReceiveHandler;
use crate::transmit::TransmitHandler;
use chain::{Budget, Chain, Progress};
use chain_handler::Standing;
use guest_memory::GuestMemory;
use mmio_window::{Stage, Window};
use served_memory::{Limits, Served};
use std::alloc::Allocator;

impl<A: Allocator> ConsoleDevice<A> {
    /// Puts pending input into the chains on offer (5.3.6), in the window of this device. Where the window
    /// isn't live or its receive queue not ready, nothing happens.
    pub fn serve_receive<M: Allocator>(&mut self, mem: &mut GuestMemory<M>, window: &mut Window)
        requires sound { IsSound mem.old window.old }
        ensures served { IsNotified receive 0 (queue_at 0 window.old) mem.old mem.new
            window.old window.new self.old.pending self.new.pending }
        ensures size { self.new ≡ record self.old { pending = self.new.pending } }
        ensures range { SameRange mem.old mem.new }
        ensures sound { IsSound mem.new window.new }
    {
        let mut room = Chain::new();
        let _ = self.serve_receive_piece(mem, window, Stage::First, Budget::UNLIMITED, &mut room);
    }

    /// The same within a budget: where that is spent, input is still pending and one more chain is on offer, the
    /// service pauses, and goes on with its next piece. In a pause its queue stands open, and no other call may be
    /// made with the window. `room` is where the chains stand, one after another: what it holds before is of no account.
    pub fn serve_receive_piece<M: Allocator>(
        &mut self,
        mem: &mut GuestMemory<M>,
        window: &mut Window,
        stage: Stage,
        budget: Budget,
        room: &mut Chain,
    ) -> Progress
        requires sound { IsSound mem.old window.old }
        ensures served { ServesTo stage receive budget 0 (queue_at 0 window.old) result mem.old mem.new
            window.old window.new self.old.pending self.new.pending }
        ensures size { self.new ≡ record self.old { pending = self.new.pending } }
        ensures range { SameRange mem.old mem.new }
        ensures sound { IsSound mem.new window.new }
    {
        let limits = Limits { budget, rounds: 1 };
        self.serve_receive_in(mem, window, stage, limits, room, &mut ())
    }

    /// The same over any memory, within limits. `chain` and `room` are as [`Served::serve`] takes them.
    #[inline(always)]
    pub fn serve_receive_in<G: Served>(
        &mut self,
        mem: &mut G,
        window: &mut Window,
        stage: Stage,
        limits: Limits,
        chain: &mut Chain,
        room: &mut G::Room,
    ) -> Progress
        requires sound { IsSound (G.world.last (G.seen mem.old)) window.old }
        ensures served { G.world.ServesTo receive stage limits 0 (queue_at 0 window.old) result (G.seen mem.old)
            (G.seen mem.new) window.old window.new self.old.pending self.new.pending }
        ensures size { self.new ≡ record self.old { pending = self.new.pending } }
        ensures range { SameRange (G.world.last (G.seen mem.old)) (G.world.last (G.seen mem.new)) }
        ensures sound { IsSound (G.world.last (G.seen mem.new)) window.new }
    {
        let device = &mut Standing(ReceiveHandler);
        match mem.serve(device, self, RECEIVEQ, window, stage, limits, chain, room) {
            Ok(progress) => progress,
            Err(_) => unreachable!(),
        }
    }

    /// Puts out the chains on offer (5.3.6), in the window of this device, behind what stands in `out`. A chain
    /// for which there is no memory stays on offer, and those before it are used. Where the window isn't live
    /// or its transmit queue not ready, nothing happens.
    pub fn serve_transmit<M: Allocator, O: Outlet>(
        &mut self,
        mem: &mut GuestMemory<M>,
        window: &mut Window,
        out: &mut O,
    ) -> Result<(), NoMemory>
        requires sound { IsSound mem.old window.old }
        ensures ok { OnOk result (IsNotified exact_transmit 1 (queue_at 1 window.old) mem.old mem.new
            window.old window.new (O.bytes out.old) (O.bytes out.new)) }
        ensures no_memory { OnErr result (Notified transmit 1 (queue_at 1 window.old) Refused mem.old mem.new
            window.old window.new (O.bytes out.old) (O.bytes out.new)) }

        // the same by the limit of the output, which decides how the service ends where there is one
        ensures ok_within { OnOk result (IsUnrefused (transmit_within (O.limit out.old)) 1
            (queue_at 1 window.old) mem.old mem.new window.old window.new (O.bytes out.old) (O.bytes out.new)) }
        ensures no_memory_within { OnErr result (Notified (transmit_within (O.limit out.old)) 1
            (queue_at 1 window.old) Refused mem.old mem.new window.old window.new (O.bytes out.old) (O.bytes out.new)) }
        ensures limit { O.limit out.new ≡ O.limit out.old }
        ensures same { self.new ≡ self.old }
        ensures range { SameRange mem.old mem.new }
        ensures sound { IsSound mem.new window.new }
    {
        let mut room = Chain::new();
        self.serve_transmit_piece(mem, window, out, Stage::First, Budget::UNLIMITED, &mut room)?;
        Ok(())
    }

    /// The same within a budget: where that is spent and one more chain is on offer, the service pauses, and goes on
    /// with its next piece. In a pause its queue stands open, and no other call may be made with the window. `room` is as
    /// in `serve_receive_piece`.
    pub fn serve_transmit_piece<M: Allocator, O: Outlet>(
        &mut self,
        mem: &mut GuestMemory<M>,
        window: &mut Window,
        out: &mut O,
        stage: Stage,
        budget: Budget,
        room: &mut Chain,
    ) -> Result<Progress, NoMemory>
        requires sound { IsSound mem.old window.old }
        ensures ok { IfOk result (λ progress. ServesTo stage (transmit_fitting (O.limit out.old)) budget 1
            (queue_at 1 window.old) progress mem.old mem.new window.old window.new (O.bytes out.old) (O.bytes out.new)) }
        ensures no_memory { OnErr result (IsRefusedAt stage (transmit_within (O.limit out.old)) budget 1
            (queue_at 1 window.old) mem.old mem.new window.old window.new (O.bytes out.old) (O.bytes out.new)) }
        ensures limit { O.limit out.new ≡ O.limit out.old }
        ensures same { self.new ≡ self.old }
        ensures range { SameRange mem.old mem.new }
        ensures sound { IsSound mem.new window.new }
    {
        let limits = Limits { budget, rounds: 1 };
        self.serve_transmit_in(mem, window, out, stage, limits, room, &mut ())
    }

    /// The same over any memory, within limits. `chain` and `room` are as [`Served::serve`] takes them.
    #[inline(always)]
    pub fn serve_transmit_in<G: Served, O: Outlet>(
        &mut self,
        mem: &mut G,
        window: &mut Window,
        out: &mut O,
        stage: Stage,
        limits: Limits,
        chain: &mut Chain,
        room: &mut G::Room,
    ) -> Result<Progress, NoMemory>
        requires sound { IsSound (G.world.last (G.seen mem.old)) window.old }
        ensures ok { IfOk result (λ progress. G.world.ServesTo (transmit_within (O.limit out.old)) stage limits 1
            (queue_at 1 window.old) progress (G.seen mem.old) (G.seen mem.new) window.old window.new
            (O.bytes out.old) (O.bytes out.new)) }
        ensures no_memory { OnErr result (G.world.RefusedTo (transmit_within (O.limit out.old)) stage limits 1
            (queue_at 1 window.old) (G.seen mem.old) (G.seen mem.new) window.old window.new
            (O.bytes out.old) (O.bytes out.new)) }
        ensures limit { O.limit out.new ≡ O.limit out.old }
        ensures same { self.new ≡ self.old }
        ensures range { SameRange (G.world.last (G.seen mem.old)) (G.world.last (G.seen mem.new)) }
        ensures sound { IsSound (G.world.last (G.seen mem.new)) window.new }
    {
        let device = &mut Standing(TransmitHandler);
        mem.serve(device, out, TRANSMITQ, window, stage, limits, chain, room)
    }
}
