//! Beside the image: what comes of a slot's events but for the services of disks over it, and, of a slot whose disk the host
//! serves, the block device's looks at its queue.

ghost use Rattle.std.specs.Prelude.{◌≡◌, ◌≢◌, ℕ, List, Some, None, false, is_err, is_some, IfErr, IfOk, OnErr, IsSome};
ghost use Rattle.std.specs.Bool.{OnTrue, OnFalse};
ghost use Rattle.std.specs.Option.{option_map, option_map_or};
ghost use Rattle.guest_memory.specs.Memory.{SameRange};
ghost use Rattle.mmio_window.specs.declared.stage.Stage.{Stage};
ghost use Rattle.hosted_disk.specs.Told.{has_effect};
ghost use Rattle.board.specs.declared.event.EventKind.{EventKind};
ghost use Rattle.board.specs.declared.pause.Pause.{Pause};
ghost use Rattle.board.specs.declared.pause.Service.{Service};
ghost use Rattle.board.specs.declared.pause.Turn.{Turn};
ghost use Rattle.board.specs.declared.reply.Reply.{Reply};
ghost use Rattle.board.specs.Backing.{is_held};
ghost use Rattle.board.specs.Flights.{KeepsFlights};
ghost use Rattle.board.specs.Hosting.{HoldsFlights, LooksAtQueue, device_at, notifies_block};
ghost use Rattle.board.specs.Image.{Health, sectors_of};
ghost use Rattle.board.specs.ImageDisks.{image_served_in};
ghost use Rattle.board.specs.Pausing.{BeginsOverImage, ComesTo, PausesByLimit, ServesTurn, asked_over_image, readied};
ghost use Rattle.board.specs.Slot.{KeepsPlace, state_of};
ghost use Rattle.board.specs.Units.{DoesAsSaid, Own};
ghost use Rattle.board.specs.Within.{BeginsWithinOverImage, PieceWithin};
ghost use Rattle.board.specs.World.{HasBytesToPutOut, MayLackMemory};

use crate::event::{EventKind, SlotWindow};
use crate::pause::{Pause, Service, Turn};
use crate::reply::Reply;
use crate::slot::Slot;
use crate::slot::window::reply_to;
use crate::task::Task;
use block_device::{BlockDevice, HostEvent};
use chain::Budget;
use console_device::{NoMemory, Outlet};
use hosted_disk::HostedDisk;
use mmio_window::Stage;
use std::alloc::Allocator;

impl<A: Allocator + Copy> Slot<A> {
    /// Handles an event, but for a service over the image: one that it asks for is to begin.
    #[inline(always)]
    pub(crate) fn answer_beside_image<O: Outlet>(
        &mut self,
        alloc: A,
        what: &EventKind<A>,
        budget: Budget,
        out: &mut O,
    ) -> Result<Turn<A>, Pause>
        ensures notified { IsSome self.old.host → (image : List ℕ) →
            is_err result ≡ notifies_block what.now (state_of image self.old) }
        ensures asks { IfErr result (λ pause. (image : List ℕ) →
            asked_over_image what.now (state_of image self.old) ≡ Some pause) }
        ensures readied { OnErr result ((image : List ℕ) → state_of image self.new ≡ readied what.now (state_of image self.old)) }
        ensures silent { OnErr result (O.bytes out.new ≡ O.bytes out.old) }
        ensures serves { IfOk result (λ turn. (image : List ℕ) (health : Health) →
            sectors_of (state_of image self.old).extent ≡ self.old.extent.count →
            ServesTurn (BeginsOverImage what.now budget) (state_of image self.old) health health (state_of image self.new) turn
            (O.bytes out.old) (O.bytes out.new)) }
        ensures within { IfOk result (λ turn. (image : List ℕ) (limit : ℕ) → O.limit out.old ≡ Some limit →
            BeginsWithinOverImage limit what.now budget (state_of image self.old) (state_of image self.new)
            (O.bytes out.old) (O.bytes out.new) turn) }
        ensures limited { IfOk result (PausesByLimit budget) }
        ensures limit { O.limit out.new ≡ O.limit out.old }
        ensures keeps { KeepsFlights what.now self.old self.new }
        ensures disturbed { self.new.disturbed ≡ self.old.disturbed }
        ensures there { IfOk result (λ turn. turn ≢ Turn.Answered Reply.BadSlot) }
        ensures bad_range { IfOk result (λ turn. turn ≡ Turn.Answered Reply.BadRange → self.new ≡ self.old) }
        ensures no_memory { IfOk result (λ turn. turn ≡ Turn.Answered Reply.NoMemory → (image : List ℕ) →
            MayLackMemory (state_of image self.old) what.now) }
    {
        let reply = match what {
            EventKind::Read {
                window,
                offset,
                width,
            } => Reply::Value(self.read_window(*window, *offset, *width)),
            EventKind::Write {
                window,
                offset,
                width,
                value,
            } => return self.write_beside_image(*window, *offset, *width, *value, budget, out),
            EventKind::MemRead { addr, len } => self.read_memory(alloc, *addr, *len),
            EventKind::MemWrite { addr, bytes } => self.write_memory(*addr, bytes.as_slice()),
            EventKind::Input { bytes } => return Ok(self.input(bytes.as_slice(), budget)),
            EventKind::Resize { cols, rows } => self.resize(*cols, *rows),
            EventKind::Restore { bytes } => self.answer_restore(bytes.as_slice()),
            EventKind::Host(_) => Reply::Idle,
            EventKind::Device { device, what } => {
                return self.device_event(alloc, *device, what, budget);
            }
        };
        Ok(Turn::Answered(reply))
    }

    // Writes a window's registers, and lets its device do its part, but for the block device: its service is to begin.
    #[inline(always)]
    fn write_beside_image<O: Outlet>(
        &mut self,
        window: SlotWindow,
        offset: u16,
        width: u8,
        value: u32,
        budget: Budget,
        out: &mut O,
    ) -> Result<Turn<A>, Pause>
        ensures notified { (image : List ℕ) →
            is_err result ≡ notifies_block {A = A} (EventKind.Write window offset width value) (state_of image self.old) }
        ensures asks { IfErr result (λ pause. (image : List ℕ) →
            asked_over_image {A = A} (EventKind.Write window offset width value) (state_of image self.old) ≡ Some pause) }
        ensures readied { OnErr result ((image : List ℕ) →
            state_of image self.new ≡ readied {A = A} (EventKind.Write window offset width value) (state_of image self.old)) }
        ensures silent { OnErr result (O.bytes out.new ≡ O.bytes out.old) }
        ensures serves { IfOk result (λ turn. (image : List ℕ) (health : Health) →
            ServesTurn (BeginsOverImage {A = A} (EventKind.Write window offset width value) budget)
            (state_of image self.old) health health (state_of image self.new) turn (O.bytes out.old) (O.bytes out.new)) }
        ensures within { IfOk result (λ turn. (image : List ℕ) (limit : ℕ) → O.limit out.old ≡ Some limit →
            BeginsWithinOverImage {A = A} limit (EventKind.Write window offset width value) budget
            (state_of image self.old) (state_of image self.new) (O.bytes out.old) (O.bytes out.new) turn) }
        ensures limited { IfOk result (PausesByLimit budget) }
        ensures limit { O.limit out.new ≡ O.limit out.old }
        ensures keeps { KeepsFlights {A = A} (EventKind.Write window offset width value) self.old self.new }
        ensures disturbed { self.new.disturbed ≡ self.old.disturbed }
        ensures there { IfOk result (λ turn. turn ≢ Turn.Answered Reply.BadSlot) }
        ensures bad_range { IfOk result (λ turn. turn ≡ Turn.Answered Reply.BadRange → self.new ≡ self.old) }
        ensures no_memory { IfOk result (λ turn. turn ≡ Turn.Answered Reply.NoMemory → (image : List ℕ) →
            MayLackMemory {A = A} (state_of image self.old) (EventKind.Write window offset width value)) }
    {
        match self.write_registers(window, offset, width, value) {
            Task::Serve(Service::Block) => Err(Pause::of(Service::Block)),
            Task::Serve(service) => {
                Ok(self.serve_beside_image(Pause::of(service), Stage::First, budget, out))
            }
            Task::PutOut(byte) => {
                let put_out = self.console_device.emergency(byte, out);
                Ok(Turn::Answered(reply_to(put_out)))
            }
            Task::Nothing => Ok(Turn::Answered(Reply::Done)),
        }
    }

    /// Serves a piece of a service of the console or of a further device, but for one over the image. What the console puts out is
    /// appended to `out`.
    #[inline(always)]
    pub(crate) fn serve_beside_image<O: Outlet>(
        &mut self,
        pause: Pause,
        stage: Stage,
        budget: Budget,
        out: &mut O,
    ) -> Turn<A>
        requires beside { pause.service ≢ Service.Block }
        requires no_image { image_served_in pause.service self.old ≡ None }
        ensures beside { pause.service ≢ Service.Block }
        ensures serves { (image : List ℕ) (health : Health) →
            ServesTurn (ComesTo pause stage budget) (state_of image self.old) health health
            (state_of image self.new) result (O.bytes out.old) (O.bytes out.new) }
        ensures within { (image : List ℕ) (limit : ℕ) → O.limit out.old ≡ Some limit →
            PieceWithin limit pause stage budget (state_of image self.old) (state_of image self.new)
            (O.bytes out.old) (O.bytes out.new) result }
        ensures limited { PausesByLimit budget result }
        ensures limit { O.limit out.new ≡ O.limit out.old }
        ensures host { self.new.host ≡ self.old.host }
        ensures block { self.new.block ≡ self.old.block }
        ensures range { SameRange self.old.memory self.new.memory }
        ensures place { KeepsPlace self.old self.new }
        ensures disturbed { self.new.disturbed ≡ self.old.disturbed }
        ensures there { result ≢ Turn.Answered Reply.BadSlot }
        ensures in_range { result ≢ Turn.Answered Reply.BadRange }
        ensures no_memory { result ≡ Turn.Answered Reply.NoMemory → stage ≡ Stage.First →
            (pause.service ≡ Service.Transmit) × HasBytesToPutOut self.old.memory self.old.console }
    {
        match pause.service {
            Service::Block => unreachable!(),
            Service::Receive => {
                let progress = self.serve_receive(stage, budget);
                pause.turn(progress)
            }
            Service::Transmit => match self.serve_transmit(stage, budget, out) {
                Ok(progress) => pause.turn(progress),
                Err(NoMemory) => Turn::Answered(Reply::NoMemory),
            },
            Service::Further { device, queue } => {
                let progress = self.serve_further(device, queue, stage, budget);
                pause.turn(progress)
            }
        }
    }
}

impl<A: Allocator> Slot<A> {
    /// Whether the host serves the slot's own disk.
    #[inline(always)]
    pub(crate) fn is_hosted(&self) -> bool
        ensures { result ≡ is_some self.now.host }
    {
        self.disk.host().is_some()
    }

    /// What is in flight, with the disk that it is of, where the host serves it.
    pub(crate) fn host(&self) -> Option<&HostedDisk<A>>
        ensures { option_map (λ disk. disk.now) result ≡ self.now.host }
    {
        self.disk.host()
    }

    /// The block device as its guest knows it.
    pub(crate) fn device(&self) -> &BlockDevice
        ensures { result.now ≡ device_at self.now }
    {
        self.disk.device()
    }

    /// Whether no further chain of the slot's own disk is taken.
    pub(crate) fn is_on_hold(&self) -> bool
        ensures { result ≡ is_held self.now.host }
    {
        match self.disk.host() {
            Some(disk) => disk.is_on_hold(),
            None => false,
        }
    }

    /// The block device looks at its queue, whatever is in flight, unless the slot is on hold. Nothing is done where the disk
    /// is of the image.
    pub(crate) fn look(&mut self)
        requires held { HoldsFlights self.old }
        ensures looks { IsSome self.old.host → (image : List ℕ) →
            LooksAtQueue (state_of image self.old) (state_of image self.new) }
        ensures held { HoldsFlights self.new }
        ensures rest { self.new ≡ record self.old {
          memory = self.new.memory;
          block = self.new.block;
          host = self.new.host;
        } }
    {
        let (memory, room) = (&mut self.memory, &mut self.chain);
        self.disk.look(memory, &mut self.block, room);
    }

    /// Does what the host says of the slot's own disk. False where there is nothing to do: nothing has changed then.
    pub(crate) fn tell(&mut self, said: HostEvent) -> bool
        requires held { HoldsFlights self.old }
        ensures found { result ≡ option_map_or (has_effect said) self.old.host false }
        ensures does { OnTrue result ((image : List ℕ) →
            DoesAsSaid Own said (state_of image self.old) (state_of image self.new)) }
        ensures kept { OnFalse result (self.new ≡ self.old) }
        ensures held { HoldsFlights self.new }
        ensures place { KeepsPlace self.old self.new }
        ensures disturbed { self.new.disturbed ≡ self.old.disturbed }
    {
        let (memory, room) = (&mut self.memory, &mut self.chain);
        let done = self.disk.tell(said, memory, &mut self.block, room);
        if done {
            self.counters.told(said);
        }
        done
    }
}
