//! A guest's further devices, and which of their queues are due.

ghost use Rattle.std.specs.Prelude.{◌≡◌, ◌++◌, ◌∷◌, [], None, Some, IfErr, IfOk, IsSome, OnErr, OnOk, is_some, length};
ghost use Rattle.std.specs.Bool.{OnTrue, OnFalse};
ghost use Rattle.std.specs.List.{slice_get};
ghost use Rattle.std.specs.Option.{option_and_then, option_map};
ghost use Rattle.guest_memory.specs.Memory.{Memory, SameRange};
ghost use Rattle.shared_memory.specs.Sightings.{memory};
ghost use Rattle.racing_memory.specs.Past.{sightings_of};
ghost use Rattle.device_list.specs.Card.{receive_refusal};
ghost use Rattle.device_list.specs.Device.{fresh_device, linked, received, resized, supplied, supply_taken, with_model};
ghost use Rattle.device_list.specs.List.{AreSoundDevices, IsWriteRefusal, card_at, changed_at, sent_by, terminal_at};
ghost use Rattle.device_list.specs.Model.{without_sent};
ghost use Rattle.racing_session.specs.Further.{IsNotAdded, ServesDevice, ServesDue, ServesFirst, ServesIfDue, ServesNotified, ServesQueue, WritesDevice, device_due_by, further_due_by, is_device_due, is_disk, is_further_due, no_devices, not_due};

use chain::{Chain, Progress};
use device_list::{AddRefusal, DeviceList, DeviceSpec, MOST_DEVICES, ReceiveRefusal, WriteRefusal};
use racing_memory::RacingMemory;
use racing_ring::Room;
use served_memory::{Limits, Raced};
use std::alloc::{AllocError, Allocator, Global};
use std::marker::Model;
use thiserror::Error;

/// Why a device isn't added.
#[derive(Clone, Copy, Debug, Error, PartialEq, Eq)]
pub enum DeviceRefusal {
    /// It is a disk: a guest that runs on has none beside its own.
    #[error("a guest that runs on has no further disk")]
    IsDisk,
    /// The devices that are there take no such one.
    #[error(transparent)]
    Refused(AddRefusal),
}

/// The queues of a further device that are to be served once more, though their driver may not notify again.
#[derive(Clone, Copy, Debug, PartialEq, Eq)]
pub struct DeviceDue {
    /// Its queue 0: that for requests, or for what its driver receives.
    pub queue_0: bool,
    /// Its queue 1: that for what its driver sends.
    pub queue_1: bool,
}

impl DeviceDue {
    /// Neither is.
    fn none() -> DeviceDue
        ensures { result ≡ not_due }
    {
        DeviceDue {
            queue_0: false,
            queue_1: false,
        }
    }

    /// Whether one of them is.
    fn is_any(self) -> bool
        ensures { result ≡ is_device_due self }
    {
        self.queue_0 | self.queue_1
    }

    /// Those behind a service of this queue that came so far.
    fn by(self, queue: u16, progress: Progress) -> DeviceDue
        ensures { result ≡ device_due_by queue progress self }
    {
        match (progress, queue) {
            (Progress::Done, _) => self,
            (Progress::More, 0) => DeviceDue {
                queue_0: true,
                ..self
            },
            (Progress::More, _) => DeviceDue {
                queue_1: true,
                ..self
            },
        }
    }
}

/// The further devices of a guest that runs on.
#[derive(Drop)]
pub(crate) struct Further<A: Allocator = Global> {
    devices: DeviceList<A>,
    // Of each device, by its number.
    due: [DeviceDue; MOST_DEVICES],
    // Where chains stand, one after another.
    chain: Box<Chain, A>,
    room: Box<Room, A>,
}

impl<A: Allocator> Model for Further<A> {
    ghost use Rattle.racing_session.specs.Further.{Further};

    ghost Value = { Further };

    ghost view = { λ f. record { devices = f.devices; due = f.due } };
}

impl<A: Allocator + Copy> Further<A> {
    /// No devices.
    pub(crate) fn new(alloc: A) -> Result<Further<A>, AllocError>
        ensures none { IfOk result (λ further. further ≡ no_devices) }
        ensures sound { IfOk result (λ further. (m : Memory) → AreSoundDevices m further.devices) }
    {
        Ok(Further {
            devices: DeviceList::new(alloc),
            due: [DeviceDue::none(); MOST_DEVICES],
            chain: Box::new(alloc, Chain::new())?,
            room: Box::new(alloc, Room::new())?,
        })
    }

    /// Adds a device behind those that are there, as after a reset, and answers its number. All the memory that it will ever need is
    /// taken here.
    pub(crate) fn add(&mut self, alloc: A, spec: DeviceSpec) -> Result<u8, DeviceRefusal>
        ensures added { IfOk result (λ number. (number ≡ length self.old.devices)
            × (self.new ≡ record self.old { devices = self.old.devices ++ fresh_device spec ∷ [] })) }
        ensures refused { IfErr result (IsNotAdded self.old.devices spec) }
        ensures kept { OnErr result (self.new ≡ self.old) }
        ensures sound { (m : Memory) → AreSoundDevices m self.old.devices → AreSoundDevices m self.new.devices }
    {
        if is_disk(spec) {
            return Err(DeviceRefusal::IsDisk);
        }
        self.devices
            .add(alloc, spec, 0)
            .map_err(DeviceRefusal::Refused)
    }
}

impl<A: Allocator> Further<A> {
    /// The devices, to be looked at.
    pub(crate) fn devices(&self) -> &DeviceList<A>
        ensures { result.now ≡ self.now.devices }
    {
        &self.devices
    }

    /// Whether any queue of theirs is due.
    pub(crate) fn is_due(&self) -> bool
        ensures { result ≡ is_further_due self.now }
    {
        self.due.iter().any(|due| due.is_any())
    }

    /// Writes a device's window, and serves the queue that this notifies. What is refused changes nothing.
    pub(crate) fn write(
        &mut self,
        device: u8,
        offset: u16,
        width: u8,
        value: u32,
        mem: &mut Raced<RacingMemory<'_, '_>>,
        limits: Limits,
    ) -> Result<(), WriteRefusal>
        requires sound { AreSoundDevices (memory (sightings_of mem.old.0)) self.old.devices }
        ensures writes { OnOk result (WritesDevice limits device offset width value (slice_get self.old.devices device)
            (sightings_of mem.old.0) (sightings_of mem.new.0) self.old self.new) }
        ensures refused { IfErr result (IsWriteRefusal offset (slice_get self.old.devices device)) }
        ensures kept { OnErr result (self.new ≡ self.old) }
        ensures unwritten { OnErr result (mem.new ≡ mem.old) }
        ensures range { SameRange (memory (sightings_of mem.old.0)) (memory (sightings_of mem.new.0)) }
        ensures sound { AreSoundDevices (memory (sightings_of mem.new.0)) self.new.devices }
    {
        let devices = &mut self.devices;
        let notified = devices.write_raced(device, offset, width, value, &mem.0)?;
        self.serve_notified(device, notified, mem, limits);
        Ok(())
    }

    /// Hands a device what its host supplies, and answers how many bytes it took. Its queue 0 is to be served next.
    pub(crate) fn supply(&mut self, device: u8, bytes: &[u8]) -> Option<usize>
        ensures taken { result ≡ option_and_then (supply_taken bytes.now) (slice_get self.old.devices device) }
        ensures supplied { IsSome result → self.new ≡
            record self.old { devices = changed_at (with_model (supplied bytes.now)) device self.old.devices } }
        ensures kept { result ≡ None → self.new ≡ self.old }
        ensures sound { (m : Memory) → AreSoundDevices m self.old.devices → AreSoundDevices m self.new.devices }
    {
        self.devices.supply(device, bytes)
    }

    /// Hands a network card a frame of its host. Its receive queue is to be served next.
    pub(crate) fn receive(&mut self, device: u8, frame: &[u8]) -> Result<(), ReceiveRefusal>
        ensures fits { OnOk result (receive_refusal frame.now (card_at device self.old.devices) ≡ None) }
        ensures received { OnOk result (self.new ≡
            record self.old { devices = changed_at (with_model (received frame.now)) device self.old.devices }) }
        ensures refused { IfErr result (λ why. receive_refusal frame.now (card_at device self.old.devices) ≡ Some why) }
        ensures kept { OnErr result (self.new ≡ self.old) }
        ensures sound { (m : Memory) → AreSoundDevices m self.old.devices → AreSoundDevices m self.new.devices }
    {
        self.devices.receive(device, frame)
    }

    /// Takes away what a device's driver sent, and answers how many bytes it has. Its transmit queue is to be served next, where
    /// nothing more waits.
    pub(crate) fn take_sent(&mut self, device: u8) -> Option<usize>
        ensures count { result ≡ option_map (λ sent. length sent) (sent_by device self.old.devices) }
        ensures taken { IsSome result → self.new ≡
            record self.old { devices = changed_at (with_model without_sent) device self.old.devices } }
        ensures kept { result ≡ None → self.new ≡ self.old }
        ensures sound { (m : Memory) → AreSoundDevices m self.old.devices → AreSoundDevices m self.new.devices }
    {
        self.devices.take_sent(device)
    }

    /// Sets whether the link of a network card is up. False where the device is none.
    pub(crate) fn set_link(&mut self, device: u8, up: bool) -> bool
        ensures found { result ≡ is_some (card_at device self.old.devices) }
        ensures linked { OnTrue result (self.new ≡
            record self.old { devices = changed_at (linked up) device self.old.devices }) }
        ensures kept { OnFalse result (self.new ≡ self.old) }
        ensures sound { (m : Memory) → AreSoundDevices m self.old.devices → AreSoundDevices m self.new.devices }
    {
        self.devices.set_link(device, up)
    }

    /// Changes the size of a console. False where the device is none.
    pub(crate) fn resize(&mut self, device: u8, cols: u16, rows: u16) -> bool
        ensures found { result ≡ is_some (terminal_at device self.old.devices) }
        ensures resized { OnTrue result (self.new ≡
            record self.old { devices = changed_at (resized cols rows) device self.old.devices }) }
        ensures kept { OnFalse result (self.new ≡ self.old) }
        ensures sound { (m : Memory) → AreSoundDevices m self.old.devices → AreSoundDevices m self.new.devices }
    {
        self.devices.resize(device, cols, rows)
    }

    /// Serves a device's queue while the guest runs on. What is left of it is due then.
    pub(crate) fn serve(
        &mut self,
        device: u8,
        queue: u16,
        mem: &mut Raced<RacingMemory<'_, '_>>,
        limits: Limits,
    )
        requires sound { AreSoundDevices (memory (sightings_of mem.old.0)) self.old.devices }
        ensures serves { ServesQueue limits device queue (sightings_of mem.old.0) (sightings_of mem.new.0) self.old self.new }
        ensures range { SameRange (memory (sightings_of mem.old.0)) (memory (sightings_of mem.new.0)) }
        ensures sound { AreSoundDevices (memory (sightings_of mem.new.0)) self.new.devices }
    {
        let (chain, room) = (&mut *self.chain, &mut *self.room);
        let devices = &mut self.devices;
        let progress = devices.serve_raced(device, queue, mem, limits, chain, room);
        owe(&mut self.due, device, queue, progress);
    }

    /// Serves the queue of a device that was notified, if one was.
    pub(crate) fn serve_notified(
        &mut self,
        device: u8,
        notified: Option<u16>,
        mem: &mut Raced<RacingMemory<'_, '_>>,
        limits: Limits,
    )
        requires sound { AreSoundDevices (memory (sightings_of mem.old.0)) self.old.devices }
        ensures serves { ServesNotified notified limits device (sightings_of mem.old.0) (sightings_of mem.new.0) self.old self.new }
        ensures range { SameRange (memory (sightings_of mem.old.0)) (memory (sightings_of mem.new.0)) }
        ensures sound { AreSoundDevices (memory (sightings_of mem.new.0)) self.new.devices }
    {
        if let Some(queue) = notified {
            self.serve(device, queue, mem, limits);
        }
    }

    /// Serves each queue that is due once, device by device. What is left then is due again.
    pub(crate) fn go_on(&mut self, mem: &mut Raced<RacingMemory<'_, '_>>, limits: Limits)
        requires sound { AreSoundDevices (memory (sightings_of mem.old.0)) self.old.devices }
        ensures serves { ServesDue limits (sightings_of mem.old.0) (sightings_of mem.new.0) self.old self.new }
        ensures range { SameRange (memory (sightings_of mem.old.0)) (memory (sightings_of mem.new.0)) }
        ensures sound { AreSoundDevices (memory (sightings_of mem.new.0)) self.new.devices }
    {
        let due = self.due;
        self.due = [DeviceDue::none(); MOST_DEVICES];
        self.serve_each(&due, mem, limits);
    }

    // Serves the queues that were due, device by device.
    fn serve_each(
        &mut self,
        due: &[DeviceDue; MOST_DEVICES],
        mem: &mut Raced<RacingMemory<'_, '_>>,
        limits: Limits,
    )
        requires sound { AreSoundDevices (memory (sightings_of mem.old.0)) self.old.devices }
        ensures serves { ServesFirst limits due.now 6
            (record { further = self.old; seen = sightings_of mem.old.0 })
            (record { further = self.new; seen = sightings_of mem.new.0 }) }
        ensures range { SameRange (memory (sightings_of mem.old.0)) (memory (sightings_of mem.new.0)) }
        ensures sound { AreSoundDevices (memory (sightings_of mem.new.0)) self.new.devices }
    {
        for device in 0..MOST_DEVICES as u8 {
            self.serve_due(device, due[usize::from(device)], mem, limits);
        }
    }

    // Serves the queues of a device that were due.
    fn serve_due(
        &mut self,
        device: u8,
        due: DeviceDue,
        mem: &mut Raced<RacingMemory<'_, '_>>,
        limits: Limits,
    )
        requires sound { AreSoundDevices (memory (sightings_of mem.old.0)) self.old.devices }
        ensures serves { ServesDevice limits device due
            (record { further = self.old; seen = sightings_of mem.old.0 })
            (record { further = self.new; seen = sightings_of mem.new.0 }) }
        ensures range { SameRange (memory (sightings_of mem.old.0)) (memory (sightings_of mem.new.0)) }
        ensures sound { AreSoundDevices (memory (sightings_of mem.new.0)) self.new.devices }
    {
        self.serve_if(due.queue_0, device, 0, mem, limits);
        self.serve_if(due.queue_1, device, 1, mem, limits);
    }

    // Serves a queue of a device once more, if it was due.
    fn serve_if(
        &mut self,
        was_due: bool,
        device: u8,
        queue: u16,
        mem: &mut Raced<RacingMemory<'_, '_>>,
        limits: Limits,
    )
        requires sound { AreSoundDevices (memory (sightings_of mem.old.0)) self.old.devices }
        ensures serves { ServesIfDue was_due limits device queue
            (record { further = self.old; seen = sightings_of mem.old.0 })
            (record { further = self.new; seen = sightings_of mem.new.0 }) }
        ensures range { SameRange (memory (sightings_of mem.old.0)) (memory (sightings_of mem.new.0)) }
        ensures sound { AreSoundDevices (memory (sightings_of mem.new.0)) self.new.devices }
    {
        if was_due {
            self.serve(device, queue, mem, limits);
        }
    }
}

// What is due behind a service of this queue of a device that came so far.
fn owe(due: &mut [DeviceDue; MOST_DEVICES], device: u8, queue: u16, progress: Progress)
    ensures { due.new ≡ further_due_by device queue progress due.old }
{
    let place = usize::from(device);
    if place >= MOST_DEVICES {
        return;
    }
    due[place] = due[place].by(queue, progress);
}

// Whether it is a disk, of the host or over an image.
fn is_disk(spec: DeviceSpec) -> bool
    ensures { result ≡ is_disk spec }
{
    match spec {
        DeviceSpec::Block { .. } | DeviceSpec::Image { .. } => true,
        DeviceSpec::Entropy | DeviceSpec::Network { .. } | DeviceSpec::Console { .. } => false,
    }
}
