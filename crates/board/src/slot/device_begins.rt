//! What is done to one of the slot's further devices begins: the first piece of the service that it asks for, or what is done at once.

ghost use Rattle.std.specs.Prelude.{◌≡◌, None, IfErr, IfOk, is_some};
ghost use Rattle.guest_memory.specs.Memory.{SameRange};
ghost use Rattle.mmio_window.specs.declared.stage.Stage.{Stage};
ghost use Rattle.device_list.specs.List.{DevicesServeTo};
ghost use Rattle.board.specs.declared.event.DeviceEvent.{DeviceEvent};
ghost use Rattle.board.specs.declared.event.EventKind.{EventKind};
ghost use Rattle.board.specs.declared.pause.Service.{Service};
ghost use Rattle.board.specs.Devices.{further_service};
ghost use Rattle.board.specs.ImageDisks.{image_served_in};
ghost use Rattle.board.specs.InPlace.{done_in};
ghost use Rattle.board.specs.Quiet.{AsksImageDisk, BeginsAsked, BeginsAtDevice, ServesFurther};

use crate::check::is_within;
use crate::event::DeviceEvent;
use crate::in_place::DeviceInPlace;
use crate::pause::{Pause, Service, Turn};
use crate::reply::Reply;
use crate::slot::Slot;
use block_device::REQUESTQ;
use chain::{Budget, Progress};
use mmio_window::Stage;
use std::alloc::Allocator;

/// A queue that a device is to serve, and how many bytes it took, if it was handed some.
#[derive(Clone, Copy)]
pub(super) struct Asked {
    pub(super) queue: u16,
    pub(super) taken: Option<usize>,
}

impl Asked {
    // The service of this device.
    #[inline(always)]
    fn of(self, device: u8) -> Pause
        ensures { result ≡ further_service device self.queue self.taken }
    {
        Pause {
            service: Service::Further {
                device,
                queue: self.queue,
            },
            taken: self.taken,
        }
    }
}

impl<A: Allocator + Copy> Slot<A> {
    /// Does this to the further device of this number. A service that it asks for may pause where the budget is spent; one over the
    /// image is to begin.
    #[inline(never)]
    pub(super) fn device_event(
        &mut self,
        alloc: A,
        device: u8,
        what: &DeviceEvent<A>,
        budget: Budget,
    ) -> Result<Turn<A>, Pause>
        ensures begins { IfOk result (BeginsAtDevice device what.now budget self.old self.new) }
        ensures asks { IfErr result (AsksImageDisk (EventKind.Device device what.now) self.old self.new) }
    {
        match what.in_place() {
            Some(what) => self.begin_at_device(device, what, budget),
            None => Ok(Turn::Answered(self.device_at_once(alloc, device, what))),
        }
    }

    /// Does this to the further device of this number, as `device_event` does.
    #[inline(always)]
    pub(crate) fn begin_at_device(
        &mut self,
        device: u8,
        what: DeviceInPlace<'_>,
        budget: Budget,
    ) -> Result<Turn<A>, Pause>
        ensures begins { IfOk result (BeginsAtDevice device (done_in what.entry) budget self.old self.new) }
        ensures asks { IfErr result (AsksImageDisk {A = A} (EventKind.Device device (done_in what.entry)) self.old self.new) }
    {
        match what {
            DeviceInPlace::Write {
                offset,
                width,
                value,
            } => {
                let asked = self.write_device(device, offset, width, value);
                self.begin_asked(device, asked, budget)
            }
            DeviceInPlace::Supply(bytes) => {
                let asked = self.supply_device(device, bytes);
                self.begin_asked(device, asked, budget)
            }
            DeviceInPlace::Receive(frame) => {
                let asked = self.receive_frame(device, frame);
                self.begin_asked(device, asked, budget)
            }
            DeviceInPlace::DropSent => {
                let asked = self.drop_sent(device);
                self.begin_asked(device, asked, budget)
            }
        }
    }

    // Begins the service that is asked for, or answers where none is. One over the image is to begin.
    #[inline(always)]
    fn begin_asked(
        &mut self,
        device: u8,
        asked: Result<Asked, Reply<A>>,
        budget: Budget,
    ) -> Result<Turn<A>, Pause>
        ensures { BeginsAsked device asked budget self.old self.new result }
    {
        let asked = match asked {
            Ok(asked) => asked,
            Err(reply) => return Ok(Turn::Answered(reply)),
        };
        let pause = asked.of(device);
        if self.is_of_image(pause.service) {
            return Err(pause);
        }
        Ok(self.begin_further(device, asked, budget))
    }

    // Serves the first piece of a device's queue. At the end the event is answered how many bytes its device took, if it was
    // handed some.
    #[inline(always)]
    fn begin_further(&mut self, device: u8, asked: Asked, budget: Budget) -> Turn<A>
        requires no_image { image_served_in (Service.Further device asked.queue) self.old ≡ None }
        ensures { ServesFurther (further_service device asked.queue asked.taken) Stage.First budget self.old self.new result }
    {
        let progress = self.serve_further(device, asked.queue, Stage::First, budget);
        asked.of(device).turn(progress)
    }

    /// Serves a piece of a further device's queue.
    #[inline(always)]
    pub(super) fn serve_further(
        &mut self,
        device: u8,
        queue: u16,
        stage: Stage,
        budget: Budget,
    ) -> Progress
        ensures served { DevicesServeTo stage budget result device queue self.old.memory self.new.memory
            self.old.devices self.new.devices }
        ensures rest { self.new ≡ record self.old { memory = self.new.memory; devices = self.new.devices } }
        ensures range { SameRange self.old.memory self.new.memory }
    {
        let (memory, room) = (&mut self.memory, &mut self.chain);
        self.devices
            .serve(device, queue, memory, stage, budget, room)
    }

    /// Whether a further disk over the image serves its queue by this service.
    #[inline(always)]
    pub(super) fn is_of_image(&self, service: Service) -> bool
        ensures { result ≡ is_some (image_served_in service self.now) }
    {
        let Service::Further {
            device,
            queue: REQUESTQ,
        } = service
        else {
            return false;
        };
        match self.devices.image_disk(device) {
            Some(disk) => !self.is_hosted() && is_within(disk.extent, self.spare),
            None => false,
        }
    }
}
