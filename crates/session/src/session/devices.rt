//! What is done to a guest's further devices: its driver's registers, and what its host hands in and takes. Nothing here
//! takes memory.

ghost use Rattle.std.specs.Prelude.{◌≡◌, ◌≢◌, ◌↔◌, ◌++◌, length, Some, IfErr, IfOk, ◌⊎◌};
ghost use Rattle.std.specs.Option.{option_map};
ghost use Rattle.board.specs.declared.event.DeviceEvent.{DeviceEvent};
ghost use Rattle.board.specs.declared.event.EventKind.{EventKind};
ghost use Rattle.board.specs.InPlace.{done_in};
ghost use Rattle.session.specs.declared.progress.Progress.{Progress};
ghost use Rattle.session.specs.declared.refusal.Refusal.{Refusal};
ghost use Rattle.session.specs.declared.response.Response.{Response};
ghost use Rattle.session.specs.Answering.{IsReading, Means, SuitsCall, done_response, handed_response, served_response, value_response};
ghost use Rattle.session.specs.Devices.{RefusesAtDevice, device_waits_at, sent_at, sent_count};
ghost use Rattle.board.specs.declared.slot_disk.SlotDisk.{SlotDisk};
ghost use Rattle.session.specs.Operations.{HasAsked, HoldsUp};
ghost use Rattle.session.specs.Pausing.{IsEventCall, IsToldCall, taken_at};
ghost use Rattle.session.specs.Session.{AnswersInPlace, IsIdle};

use crate::handed::{Handed, handing};
use crate::progress::{Progress, has_asked, served};
use crate::refusal::Refusal;
use crate::response::{Response, Turned};
use crate::session::Session;
use crate::told::{DeviceWaits, done};
use crate::turn_kind::TurnKind;
use board::{DeviceEvent, DeviceInPlace, EventKind, InPlace, Reply, SlotDisk};
use std::alloc::Allocator;

impl<A: Allocator + Copy> Session<A> {
    /// A guest's read of `width` bytes, 1, 2 or 4, at an offset of a further device's window (4.2.2): what its register gets,
    /// extended by zeros. It is refused for a bad slot or device, and while a service of the slot is paused.
    pub fn read_device(
        &mut self,
        slot: u8,
        device: u8,
        offset: u16,
        width: u8,
    ) -> Result<u32, Refusal>
        ensures call { IsToldCall {A = A} self.old slot (EventKind.Device device (DeviceEvent.Read offset width))
            (Means value_response result) self.new }
        ensures refuses { RefusesAtDevice {A = A} slot device (DeviceEvent.Read offset width) (¬ IsIdle slot self.old) self.old result }
    {
        let read = DeviceEvent::Read { offset, width };
        gave(self.device_event(slot, device, read))
    }

    /// A guest's write of a further device's window (4.2.2). A queue that it notifies is served to its end, or until the budget
    /// is spent: then more is to come, and `go_on` goes on with it. With a write to a disk that the host serves operations may
    /// begin; where more is to come that isn't told, and `in_flight` says it at the end. It is refused for a bad slot or device,
    /// while a service of the slot is paused, and where it is one of such a disk's Status or QueueReady while something of it is
    /// in flight.
    pub fn write_device(
        &mut self,
        slot: u8,
        device: u8,
        offset: u16,
        width: u8,
        value: u32,
    ) -> Result<Progress, Refusal>
        ensures call { IsToldCall {A = A} self.old slot (EventKind.Device device (DeviceEvent.Write offset width value))
            (Means served_response result) self.new }
        ensures asks { IfOk result (λ progress.
            (progress ≡ Progress.Asks) ↔ (HasAsked slot (SlotDisk.Further device) self.old self.new × (progress ≢ Progress.More))) }
        ensures refuses { RefusesAtDevice {A = A} slot device (DeviceEvent.Write offset width value)
            ((¬ IsIdle slot self.old)
            ⊎ HoldsUp {A = A} slot (EventKind.Device device (DeviceEvent.Write offset width value)) self.old) self.old result }
    {
        let write = DeviceInPlace::Write {
            offset,
            width,
            value,
        };
        let before = self.in_flight(slot, SlotDisk::Further(device));
        let response = self.begin_at_device(slot, device, write);
        let after = self.in_flight(slot, SlotDisk::Further(device));
        let asks = has_asked(before, after);
        served(response, asks)
    }

    /// Sets whether a network card's link is up, and tells its driver (5.1.4). It is refused for a bad slot, for a device that is no
    /// network card, and while a service of the slot is paused.
    pub fn set_link(&mut self, slot: u8, device: u8, up: bool) -> Result<(), Refusal>
        ensures call { IsToldCall {A = A} self.old slot (EventKind.Device device (DeviceEvent.SetLink up))
            (Means done_response result) self.new }
        ensures refuses { RefusesAtDevice {A = A} slot device (DeviceEvent.SetLink up) (¬ IsIdle slot self.old) self.old result }
    {
        done(self.device_event(slot, device, DeviceEvent::SetLink { up }))
    }

    /// Changes the size of a further console, and tells its driver (5.3.4). It is refused for a bad slot, for a device that is no
    /// console, and while a service of the slot is paused.
    pub fn resize_device(
        &mut self,
        slot: u8,
        device: u8,
        cols: u16,
        rows: u16,
    ) -> Result<(), Refusal>
        ensures call { IsToldCall {A = A} self.old slot (EventKind.Device device (DeviceEvent.Resize cols rows))
            (Means done_response result) self.new }
        ensures refuses { RefusesAtDevice {A = A} slot device (DeviceEvent.Resize cols rows) (¬ IsIdle slot self.old) self.old result }
    {
        let resize = DeviceEvent::Resize { cols, rows };
        done(self.device_event(slot, device, resize))
    }

    // Does this to a further device, whose answer takes no memory.
    pub(crate) fn device_event(&mut self, slot: u8, device: u8, what: DeviceEvent<A>) -> Response<A>
        requires { AnswersInPlace (EventKind.Device device what) }
        ensures call { IsEventCall self.old slot (EventKind.Device device what) result self.new }
        ensures suits { SuitsCall (EventKind.Device device what) result }
        ensures as_many { length self.old.paused ≡ length self.old.slots }
    {
        let what = EventKind::Device { device, what };
        let Turned { response, waits: _ } = self.turn(slot, TurnKind::Begin(&what));
        response
    }

    // Begins what is done to a further device and may ask for a service that pauses.
    #[inline(always)]
    fn begin_at_device(&mut self, slot: u8, device: u8, what: DeviceInPlace<'_>) -> Response<A>
        ensures call { IsEventCall self.old slot (EventKind.Device device (done_in what.entry)) result self.new }
        ensures suits { SuitsCall {A = A} (EventKind.Device device (done_in what.entry)) result }
        ensures as_many { length self.old.paused ≡ length self.old.slots }
    {
        let Turned { response, waits: _ } = self.begin_in_place(
            slot,
            InPlace::Device { device, what },
        );
        response
    }

    /// Supplies an entropy device with random bytes (5.4), or types to a console (5.3), and answers how many were taken: the
    /// first ones. The chains on offer are filled then. Where more is to come, `go_on` goes on with that. It is refused for a bad
    /// slot, for a device that takes none, and while a service of the slot is paused.
    pub fn supply(&mut self, slot: u8, device: u8, bytes: &[u8]) -> Result<Handed, Refusal>
        ensures call { IsToldCall {A = A} self.old slot (EventKind.Device device (DeviceEvent.Supply bytes.now))
            (Means handed_response result) self.new }
        ensures taken { IfOk result (λ handed. handed.progress ≡ Progress.More →
            taken_at slot self.new ≡ Some handed.taken) }
        ensures never_asks { IfOk result (λ handed. handed.progress ≢ Progress.Asks) }
        ensures refuses { RefusesAtDevice {A = A} slot device (DeviceEvent.Supply bytes.now) (¬ IsIdle slot self.old) self.old result }
    {
        let response = self.begin_at_device(slot, device, DeviceInPlace::Supply(bytes));
        let taken = self.taken(slot);
        handing(response, taken)
    }

    /// Hands a network card a frame (5.1), and answers how many of its bytes were taken: all, or none where there is no room for
    /// it until its driver has taken others. The chains on offer are filled then. Where more is to come, `go_on` goes on with
    /// that. It is refused for a bad slot, for a frame of no bytes, for a device that is no network card or whose frames are
    /// shorter, and while a service of the slot is paused.
    pub fn receive(&mut self, slot: u8, device: u8, frame: &[u8]) -> Result<Handed, Refusal>
        ensures call { IsToldCall {A = A} self.old slot (EventKind.Device device (DeviceEvent.Receive frame.now))
            (Means handed_response result) self.new }
        ensures whole { IfOk result (λ handed. (handed.taken ≡ length frame.now) ⊎ (handed.taken ≡ 0)) }
        ensures taken { IfOk result (λ handed. handed.progress ≡ Progress.More →
            taken_at slot self.new ≡ Some handed.taken) }
        ensures never_asks { IfOk result (λ handed. handed.progress ≢ Progress.Asks) }
        ensures refuses { RefusesAtDevice {A = A} slot device (DeviceEvent.Receive frame.now) (¬ IsIdle slot self.old) self.old result }
    {
        let response = self.begin_at_device(slot, device, DeviceInPlace::Receive(frame));
        let taken = self.taken(slot);
        handing(response, taken)
    }

    /// Drops what `sent` tells, since it was copied, and answers how many bytes that was: none where nothing waits. Once nothing more
    /// waits, the chains on offer are served for which there is room then. Where more is to come, `go_on` goes on with that. It is refused for a bad
    /// slot, for a device that is no network card and no console, and while a service of the slot is paused.
    pub fn drop_sent(&mut self, slot: u8, device: u8) -> Result<Handed, Refusal>
        ensures call { IsToldCall {A = A} self.old slot (EventKind.Device device DeviceEvent.DropSent)
            (Means handed_response result) self.new }
        ensures count { IfOk result (λ handed. handed.taken ≡ sent_count (sent_at slot device self.old.slots)) }
        ensures refused { IfErr result (λ why.
            (why ≡ Refusal.BadSlot) ⊎ (why ≡ Refusal.Busy) ⊎ (why ≡ Refusal.BadDevice)) }
        ensures taken { IfOk result (λ handed. handed.progress ≡ Progress.More →
            taken_at slot self.new ≡ Some handed.taken) }
        ensures never_asks { IfOk result (λ handed. handed.progress ≢ Progress.Asks) }
        ensures refuses { RefusesAtDevice {A = A} slot device DeviceEvent.DropSent (¬ IsIdle slot self.old) self.old result }
    {
        let response = self.begin_at_device(slot, device, DeviceInPlace::DropSent);
        let taken = self.taken(slot);
        handing(response, taken)
    }
}

impl<A: Allocator> Session<A> {
    /// What the driver of a network card or of a console sent and the host takes now, in two parts: the oldest frame, or all
    /// output. There is none where nothing waits, of another device, and where there is no such slot or device.
    pub fn sent(&self, slot: u8, device: u8) -> Option<(&[u8], &[u8])>
        ensures { option_map (λ parts. parts.0.now ++ parts.1.now) result ≡ sent_at slot device self.now.slots }
    {
        self.board.sent(slot, device)
    }

    /// What waits for a further device's driver and for its host. There is no answer where there is no such slot or device.
    pub fn device_waits(&self, slot: u8, device: u8) -> Option<DeviceWaits>
        ensures { result ≡ device_waits_at slot device self.now.slots }
    {
        let found = self.board.device(slot, device)?;
        let starved = self.board.starved(slot, device)?;
        Some(DeviceWaits {
            irq: found.interrupts(),
            starved,
            sent: len_of(self.board.sent(slot, device)),
            tags: self.in_flight(slot, SlotDisk::Further(device)).unwrap_or(0),
        })
    }
}

// How many bytes two parts have.
fn len_of(parts: Option<(&[u8], &[u8])>) -> Option<usize>
    ensures { result ≡ option_map (λ bytes. length bytes)
        (option_map (λ parts. parts.0.now ++ parts.1.now) parts.entry) }
{
    let (front, back) = parts?;
    Some(front.len() + back.len())
}

// What a register gave.
fn gave<A: Allocator>(response: Response<A>) -> Result<u32, Refusal>
    requires { IsReading response }
    ensures { Means value_response result response }
{
    match response {
        Response::Answered(Reply::Value(value)) => Ok(value),
        response => Err(Refusal::of(&response)),
    }
}
