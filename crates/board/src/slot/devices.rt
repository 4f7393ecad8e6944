//! What is done to the slot's further devices.

ghost use Rattle.std.specs.Prelude.{◌≡◌, ◌++◌, ◌∷◌, [], All, None, IfErr, IfOk, IfSome, OnErr, OnOk, is_some, length};
ghost use Rattle.std.specs.Bool.{OnTrue, OnFalse};
ghost use Rattle.std.specs.List.{slice_get};
ghost use Rattle.std.specs.Option.{option_map};
ghost use Rattle.block_device.specs.Tags.{TagIsHeld};
ghost use Rattle.guest_memory.specs.Memory.{SameRange};
ghost use Rattle.mmio_window.specs.declared.stage.Stage.{Stage};
ghost use Rattle.device_list.specs.Device.{TakesSent, fresh_device};
ghost use Rattle.device_list.specs.List.{At, IsRefusedFor, are_at_work, disk_at, is_starved_at, refusal_of, sent_by};
ghost use Rattle.board.specs.declared.event.DeviceEvent.{DeviceEvent};
ghost use Rattle.board.specs.Devices.{IsAtOnce, further_service};
ghost use Rattle.board.specs.Quiet.{AnswersAtDevice, AsksAtDevice, DoesToDevice};

use crate::bytes::Bytes;
use crate::event::DeviceEvent;
use crate::reply::Reply;
use crate::slot::Slot;
use crate::slot::device_begins::Asked;
use block_device::HostEvent;
use chain::{Budget, Chain};
use device_list::{AddRefusal, DeviceSpec, HostedDisk, ReceiveRefusal, VirtioDevice, WriteRefusal};
use mmio_window::{Action, Stage};
use network_device::{FrameRefusal, RECEIVEQ, TRANSMITQ};
use std::alloc::{AllocError, Allocator};

// The queue that waits for what a device is supplied with: the request queue of an entropy device, and a console's receive
// queue.
const SUPPLIED_QUEUE: u16 = 0;

impl<A: Allocator + Copy> Slot<A> {
    /// Does what asks for no service that may pause.
    pub(super) fn device_at_once(&mut self, alloc: A, device: u8, what: &DeviceEvent<A>) -> Reply<A>
        requires { IsAtOnce what.now }
        ensures { DoesToDevice device what.now self.old self.new result }
    {
        match what {
            DeviceEvent::Plug(spec) => self.plug_device(alloc, device, *spec),
            DeviceEvent::Read { offset, width } => self.read_device(device, *offset, *width),
            DeviceEvent::TakeSent => self.take_sent(alloc, device),
            DeviceEvent::SetLink { up } => self.set_link(device, *up),
            DeviceEvent::Resize { cols, rows } => self.resize_device(device, *cols, *rows),
            DeviceEvent::Host(said) => self.tell_device(device, *said),
            DeviceEvent::Write { .. }
            | DeviceEvent::Supply { .. }
            | DeviceEvent::Receive { .. }
            | DeviceEvent::DropSent => unreachable!(),
        }
    }

    // Gives the slot a device that has this number.
    fn plug_device(&mut self, alloc: A, device: u8, spec: DeviceSpec) -> Reply<A>
        ensures { DoesToDevice device (DeviceEvent.Plug spec) self.old self.new result }
    {
        if usize::from(device) != self.devices.len() {
            return Reply::BadDevice;
        }
        match self.devices.add(alloc, spec, self.spare) {
            Ok(_) => Reply::Done,
            Err(AddRefusal::NoMemory) => Reply::NoMemory,
            Err(_) => Reply::BadDevice,
        }
    }

    // Reads a device's window (4.2.2).
    fn read_device(&self, device: u8, offset: u16, width: u8) -> Reply<A>
        ensures { DoesToDevice device (DeviceEvent.Read offset width) self.now self.now result }
    {
        match self.devices.read(device, offset, width) {
            Some(value) => Reply::Value(value),
            None => Reply::BadDevice,
        }
    }

    /// Writes a device's window (4.2.2). A queue that this notifies is to be served.
    #[inline(always)]
    pub(super) fn write_device(
        &mut self,
        device: u8,
        offset: u16,
        width: u8,
        value: u32,
    ) -> Result<Asked, Reply<A>>
        ensures asks { IfOk result (λ asked. AsksAtDevice {A = A} device (DeviceEvent.Write offset width value) self.old self.new
            (further_service device asked.queue asked.taken)) }
        ensures answers { IfErr result (AnswersAtDevice device (DeviceEvent.Write offset width value) self.old self.new) }
    {
        match self
            .devices
            .write(device, offset, width, value, &self.memory)
        {
            Ok(Some(queue)) => {
                self.counters.wrote(Action::Notify(queue));
                Ok(Asked { queue, taken: None })
            }
            Ok(None) => Err(Reply::Done),
            Err(WriteRefusal::Busy) => Err(Reply::Busy),
            Err(WriteRefusal::NoDevice) => Err(Reply::BadDevice),
        }
    }

    /// Does what the host says of a disk that it serves.
    pub(crate) fn tell_device(&mut self, device: u8, said: HostEvent) -> Reply<A>
        ensures { DoesToDevice device (DeviceEvent.Host said) self.old self.new result }
    {
        let (memory, room) = (&mut self.memory, &mut self.chain);
        match self.devices.tell(device, said, memory, room) {
            Some(true) => {
                self.counters.told(said);
                Reply::Done
            }
            Some(false) => Reply::Idle,
            None => Reply::BadDevice,
        }
    }

    /// Supplies a device with bytes. The queue that waits for them is to be served.
    #[inline(always)]
    pub(super) fn supply_device(&mut self, device: u8, bytes: &[u8]) -> Result<Asked, Reply<A>>
        ensures asks { IfOk result (λ asked. AsksAtDevice {A = A} device (DeviceEvent.Supply bytes.now) self.old self.new
            (further_service device asked.queue asked.taken)) }
        ensures answers { IfErr result (AnswersAtDevice device (DeviceEvent.Supply bytes.now) self.old self.new) }
    {
        let Some(taken) = self.devices.supply(device, bytes) else {
            return Err(Reply::BadDevice);
        };
        Ok(Asked {
            queue: SUPPLIED_QUEUE,
            taken: Some(taken),
        })
    }

    /// Hands a network card a frame. Its receive queue is to be served.
    #[inline(always)]
    pub(super) fn receive_frame(&mut self, device: u8, frame: &[u8]) -> Result<Asked, Reply<A>>
        ensures asks { IfOk result (λ asked. AsksAtDevice {A = A} device (DeviceEvent.Receive frame.now) self.old self.new
            (further_service device asked.queue asked.taken)) }
        ensures answers { IfErr result (AnswersAtDevice device (DeviceEvent.Receive frame.now) self.old self.new) }
    {
        match self.devices.receive(device, frame) {
            Ok(()) => (),
            Err(ReceiveRefusal::Frame(FrameRefusal::Full)) => return Err(Reply::Took(0)),
            Err(_) => return Err(Reply::BadDevice),
        }
        Ok(Asked {
            queue: RECEIVEQ,
            taken: Some(frame.len()),
        })
    }

    // Takes what a device's driver sent.
    fn take_sent(&mut self, alloc: A, device: u8) -> Reply<A>
        ensures { DoesToDevice device DeviceEvent.TakeSent self.old self.new result }
    {
        let Some((front, back)) = self.devices.sent(device) else {
            return self.nothing_sent(alloc, device);
        };
        let Ok(bytes) = joined(alloc, front, back) else {
            return Reply::NoMemory;
        };
        let _ = self.drop_waiting(device);
        Reply::Bytes(bytes)
    }

    /// Drops what a device's driver sent. Its transmit queue is to be served, where nothing more waits.
    #[inline(always)]
    pub(super) fn drop_sent(&mut self, device: u8) -> Result<Asked, Reply<A>>
        ensures asks { IfOk result (λ asked. AsksAtDevice {A = A} device DeviceEvent.DropSent self.old self.new
            (further_service device asked.queue asked.taken)) }
        ensures answers { IfErr result (AnswersAtDevice device DeviceEvent.DropSent self.old self.new) }
    {
        let Some(count) = self.devices.take_sent(device) else {
            return Err(self.nothing_dropped(device));
        };
        if self.devices.has_sent(device) {
            return Err(Reply::Took(count));
        }
        Ok(Asked {
            queue: TRANSMITQ,
            taken: Some(count),
        })
    }

    // What the host is answered that drops what was sent where nothing waits.
    fn nothing_dropped(&self, device: u8) -> Reply<A>
        requires { sent_by device self.now.devices ≡ None }
        ensures { DoesToDevice device DeviceEvent.DropSent self.now self.now result }
    {
        if self.devices.has_sender(device) {
            Reply::Took(0)
        } else {
            Reply::BadDevice
        }
    }

    // Takes away what waits of a device's driver, and has it serve its transmit queue to the end, where nothing more waits. False
    // where nothing waited.
    fn drop_waiting(&mut self, device: u8) -> bool
        ensures found { result ≡ is_some (sent_by device self.old.devices) }
        ensures takes { OnTrue result (At TakesSent device self.old.memory self.new.memory self.old.devices self.new.devices) }
        ensures kept { OnFalse result (self.new ≡ self.old) }
        ensures rest { self.new ≡ record self.old { memory = self.new.memory; devices = self.new.devices } }
        ensures range { SameRange self.old.memory self.new.memory }
    {
        let Some(_) = self.devices.take_sent(device) else {
            return false;
        };
        if self.devices.has_sent(device) {
            return true;
        }
        let _ = self.serve_further(device, TRANSMITQ, Stage::First, Budget::UNLIMITED);
        true
    }

    /// Plugs a further device in, and answers its number.
    pub(crate) fn plug(&mut self, alloc: A, spec: DeviceSpec) -> Result<u8, AddRefusal>
        ensures plugged { IfOk result (λ number. (number ≡ length self.old.devices) × (self.new ≡
            record self.old { devices = self.old.devices ++ fresh_device spec ∷ [] })) }
        ensures taken { OnOk result (refusal_of self.old.devices self.old.spare spec ≡ None) }
        ensures refused { IfErr result (IsRefusedFor self.old.devices self.old.spare spec) }
        ensures kept { OnErr result (self.new ≡ self.old) }
        ensures rest { self.new ≡ record self.old { devices = self.new.devices } }
    {
        self.devices.add(alloc, spec, self.spare)
    }

    // What the host is answered that takes what was sent where nothing waits.
    fn nothing_sent(&self, alloc: A, device: u8) -> Reply<A>
        requires { sent_by device self.now.devices ≡ None }
        ensures { DoesToDevice device DeviceEvent.TakeSent self.now self.now result }
    {
        if self.devices.has_sender(device) {
            Reply::Bytes(Bytes::new(alloc))
        } else {
            Reply::BadDevice
        }
    }

    // Sets whether a network card's link is up.
    fn set_link(&mut self, device: u8, up: bool) -> Reply<A>
        ensures { DoesToDevice device (DeviceEvent.SetLink up) self.old self.new result }
    {
        if self.devices.set_link(device, up) {
            Reply::Done
        } else {
            Reply::BadDevice
        }
    }

    // Changes a console's size.
    fn resize_device(&mut self, device: u8, cols: u16, rows: u16) -> Reply<A>
        ensures { DoesToDevice device (DeviceEvent.Resize cols rows) self.old self.new result }
    {
        if self.devices.resize(device, cols, rows) {
            Reply::Done
        } else {
            Reply::BadDevice
        }
    }
}

// Two parts, one behind the other.
fn joined<A: Allocator>(alloc: A, front: &[u8], back: &[u8]) -> Result<Bytes<A>, AllocError>
    ensures { IfOk result (λ bytes. bytes ≡ front.now ++ back.now) }
{
    let mut bytes = Vec::with_capacity(alloc, front.len() + back.len())?;
    bytes.extend_from_slice(front)?;
    bytes.extend_from_slice(back)?;
    Ok(Bytes::from(bytes))
}

impl<A: Allocator> Slot<A> {
    /// The further device of this number.
    pub(crate) fn device_at(&self, device: u8) -> Option<&VirtioDevice<A>>
        ensures { option_map (λ found. found.now) result ≡ slice_get self.now.devices device }
    {
        self.devices.get(device)
    }

    /// What a device's driver sent and its host takes now, in two parts.
    pub(crate) fn sent(&self, device: u8) -> Option<(&[u8], &[u8])>
        ensures { option_map (λ parts. parts.0.now ++ parts.1.now) result ≡ sent_by device self.now.devices }
    {
        self.devices.sent(device)
    }

    /// Whether a chain is on offer in a further device's queue that waits for what the host supplies.
    pub(crate) fn starved(&self, device: u8) -> Option<bool>
        ensures { result ≡ option_map (is_starved_at self.now.memory) (slice_get self.now.devices device) }
    {
        self.devices
            .starved(device, &self.memory, &mut Chain::new())
    }

    /// Whether anything is in flight of a further disk.
    pub(crate) fn are_at_work(&self) -> bool
        ensures { result ≡ are_at_work self.now.devices }
    {
        self.devices.are_at_work()
    }

    /// A further disk that the host serves.
    pub(crate) fn disk_at(&self, device: u8) -> Option<&HostedDisk<A>>
        ensures value { option_map (λ disk. disk.now) result ≡ disk_at device self.now.devices }
        ensures held { IfSome result (λ disk.
            All (TagIsHeld disk.now.device.extent.count self.now.memory) disk.now.tags) }
    {
        self.devices.disk(device)
    }
}
