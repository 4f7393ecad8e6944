//! The services of the slot's queues, piece by piece.

ghost use Rattle.std.specs.Prelude.{◌≡◌, ◌≢◌, [], nat_lt, IfOk, OnErr, IsSome};
ghost use Rattle.guest_memory.specs.Memory.{SameRange};
ghost use Rattle.mmio_window.specs.declared.stage.Stage.{Stage};
ghost use Rattle.mmio_window.specs.Window.{queue_at};
ghost use Rattle.block_device.specs.Device.{block_device};
ghost use Rattle.block_device.specs.Extent.{IsWithin, StaysInExtent, TouchesExtent, extent_disk};
ghost use Rattle.console_device.specs.Device.{receive, transmit_fitting, transmit_within};
ghost use Rattle.board.specs.declared.pause.Pause.{Pause};
ghost use Rattle.board.specs.declared.pause.Service.{Service};
ghost use Rattle.board.specs.declared.pause.Turn.{Turn};
ghost use Rattle.board.specs.declared.reply.Reply.{Reply};
ghost use Rattle.mmio_window.specs.Pieces.{IsRefusedAt, ServesTo};
ghost use Rattle.board.specs.Image.{Tells, bytes_of, health_of};
ghost use Rattle.board.specs.ImageDisks.{image_served_in};
ghost use Rattle.board.specs.Pausing.{ComesTo, PausesByLimit, ServesOver};
ghost use Rattle.board.specs.Slot.{IsUnnoted, state_of, whole_extent};
ghost use Rattle.board.specs.Within.{DecidesOver, PieceWithin};
ghost use Rattle.board.specs.World.{HasBytesToPutOut};

use crate::pause::{Pause, Service};
use crate::slot::{Answer, Slot};
use block_device::{Extent, Piece};
use chain::{Budget, Progress};
use console_device::{NoMemory, Outlet};
use mmio_window::Stage;
use sector_cache::{Image, SectorCache};
use std::alloc::Allocator;

impl<A: Allocator + Copy> Slot<A> {
    /// Serves a piece of a service. What the console puts out is appended to `out`.
    #[inline(always)]
    pub(crate) fn serve_piece<I: Image, O: Outlet>(
        &mut self,
        pause: Pause,
        stage: Stage,
        budget: Budget,
        cache: &mut SectorCache<I, A>,
        out: &mut O,
    ) -> Answer<A>
        requires lies { IsWithin (I.disk cache.old).sector_count (whole_extent self.old) }
        ensures serves { ServesOver (ComesTo pause stage budget) self.old self.new (I.disk cache.old)
            (I.disk cache.new) result.turn (O.bytes out.old) (O.bytes out.new) }
        ensures within { DecidesOver (λ limit. PieceWithin limit pause stage budget) (O.limit out.old) self.old self.new
            (I.disk cache.old) (I.disk cache.new) (O.bytes out.old) (O.bytes out.new) result.turn }
        ensures limit { O.limit out.new ≡ O.limit out.old }
        ensures unnoted { IsUnnoted self.old self.new (I.disk cache.old) (I.disk cache.new) result.failed }
        ensures host { self.new.host ≡ self.old.host }
        ensures touches { TouchesExtent I.moment I.may_leave I.left_since (whole_extent self.old) cache.old cache.new }
        ensures no_memory { result.turn ≡ Turn.Answered Reply.NoMemory → stage ≡ Stage.First →
            (pause.service ≡ Service.Transmit) × HasBytesToPutOut self.old.memory self.old.console }
        ensures limited { PausesByLimit budget result.turn }
        ensures there { result.turn ≢ Turn.Answered Reply.BadSlot }
        ensures in_range { result.turn ≢ Turn.Answered Reply.BadRange }
    {
        if let Service::Block = pause.service {
            let Piece { progress, failed } = self.serve_block(stage, budget, cache);
            return Answer {
                turn: pause.turn(progress),
                failed,
            };
        }
        if self.is_of_image(pause.service) {
            return self.serve_image(pause, stage, budget, cache);
        }
        Answer {
            turn: self.serve_beside_image(pause, stage, budget, out),
            failed: false,
        }
    }

    /// Serves a piece of the service of a further disk over the image.
    pub(crate) fn serve_image<I: Image>(
        &mut self,
        pause: Pause,
        stage: Stage,
        budget: Budget,
        cache: &mut SectorCache<I, A>,
    ) -> Answer<A>
        requires disk { IsSome (image_served_in pause.service self.old) }
        requires lies { IsWithin (I.disk cache.old).sector_count (whole_extent self.old) }
        ensures serves { Tells (I.disk cache.old) → ComesTo pause stage budget (state_of (bytes_of (I.disk cache.old)) self.old)
            (health_of (I.disk cache.old)) (health_of (I.disk cache.new))
            (state_of (bytes_of (I.disk cache.new)) self.new) [] result.turn }
        ensures rest { self.new ≡ record self.old { memory = self.new.memory; devices = self.new.devices } }
        ensures unnoted { IsUnnoted self.old self.new (I.disk cache.old) (I.disk cache.new) result.failed }
        ensures touches { TouchesExtent I.moment I.may_leave I.left_since (whole_extent self.old) cache.old cache.new }
        ensures limited { PausesByLimit budget result.turn }
        ensures there { result.turn ≢ Turn.Answered Reply.BadSlot }
        ensures in_range { result.turn ≢ Turn.Answered Reply.BadRange }
        ensures answered { result.turn ≢ Turn.Answered Reply.NoMemory }
    {
        let Service::Further { device, .. } = pause.service else {
            unreachable!()
        };
        let Extent { start, count } = self.disk.of_image().extent;
        let base = start + count;
        let (memory, room) = (&mut self.memory, &mut self.chain);
        let Piece { progress, failed } = self
            .devices
            .serve_image(device, base, memory, cache, stage, budget, room);
        Answer {
            turn: pause.turn(progress),
            failed,
        }
    }

    // Serves requests of the block device (5.2.6).
    #[inline(always)]
    fn serve_block<I: Image>(
        &mut self,
        stage: Stage,
        budget: Budget,
        cache: &mut SectorCache<I, A>,
    ) -> Piece
        requires lies { IsWithin (I.disk cache.old).sector_count self.old.extent }
        ensures served { ServesTo stage (block_device (record {
          extent = self.old.extent;
          read_only = self.old.read_only;
          identity = self.old.identity;
        })) budget 0 (queue_at 0 self.old.block) result.progress self.old.memory self.new.memory
            self.old.block self.new.block (extent_disk self.old.extent (I.disk cache.old))
            (extent_disk self.old.extent (I.disk cache.new)) }
        ensures rest { self.new ≡ record self.old { memory = self.new.memory; block = self.new.block } }
        ensures failed { result.failed ≡ nat_lt (I.disk cache.old).failures (I.disk cache.new).failures }
        ensures stays { StaysInExtent self.old.extent (I.disk cache.old) (I.disk cache.new) }
        ensures touches { TouchesExtent I.moment I.may_leave I.left_since self.old.extent cache.old cache.new }
    {
        let (memory, window) = (&mut self.memory, &mut self.block);
        self.disk
            .of_image()
            .serve_piece(memory, window, cache, stage, budget, &mut self.chain)
    }

    // Puts pending input into the chains on offer (5.3.6).
    pub(super) fn serve_receive(&mut self, stage: Stage, budget: Budget) -> Progress
        ensures served { ServesTo stage receive budget 0 (queue_at 0 self.old.console) result
            self.old.memory self.new.memory self.old.console self.new.console self.old.pending self.new.pending }
        ensures rest { self.new ≡ record self.old {
          memory = self.new.memory;
          console = self.new.console;
          pending = self.new.pending;
        } }
        ensures range { SameRange self.old.memory self.new.memory }
    {
        let (memory, window) = (&mut self.memory, &mut self.console);
        self.console_device
            .serve_receive_piece(memory, window, stage, budget, &mut self.chain)
    }

    // Puts out the bytes of the chains on offer (5.3.6).
    pub(super) fn serve_transmit<O: Outlet>(
        &mut self,
        stage: Stage,
        budget: Budget,
        out: &mut O,
    ) -> Result<Progress, NoMemory>
        ensures ok { IfOk result (λ progress. ServesTo stage (transmit_fitting (O.limit out.old)) budget 1
            (queue_at 1 self.old.console) progress self.old.memory self.new.memory
            self.old.console self.new.console (O.bytes out.old) (O.bytes out.new)) }
        ensures no_memory { OnErr result (IsRefusedAt stage (transmit_within (O.limit out.old)) budget 1
            (queue_at 1 self.old.console) self.old.memory self.new.memory
            self.old.console self.new.console (O.bytes out.old) (O.bytes out.new)) }
        ensures rest { self.new ≡ record self.old { memory = self.new.memory; console = self.new.console } }
        ensures range { SameRange self.old.memory self.new.memory }
        ensures limit { O.limit out.new ≡ O.limit out.old }
    {
        let (memory, window) = (&mut self.memory, &mut self.console);
        self.console_device
            .serve_transmit_piece(memory, window, out, stage, budget, &mut self.chain)
    }
}
