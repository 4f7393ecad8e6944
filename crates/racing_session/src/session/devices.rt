//! What is done to a guest's further devices: its driver's registers, and what its host hands in and takes.

ghost use Rattle.std.specs.Prelude.{◌≡◌, ◌++◌, ◌∷◌, [], ℕ, List, None, Some, IfErr, IfNone, IfOk, IfSome, OnErr, OnOk, false, is_some, length};
ghost use Rattle.std.specs.Bool.{OnTrue, OnFalse};
ghost use Rattle.std.specs.List.{slice_get};
ghost use Rattle.std.specs.Option.{option_and_then, option_map};
ghost use Rattle.device_list.specs.Card.{receive_refusal};
ghost use Rattle.device_list.specs.Device.{fresh_device, linked, received, register_of, resized, supplied, supply_taken, with_model};
ghost use Rattle.device_list.specs.List.{IsWriteRefusal, card_at, changed_at, outgoing_at, sent_by, terminal_at};
ghost use Rattle.racing_session.specs.Devices.{DropsSent, IsWrittenTo, ServesBehind, device_waits_at, with_devices};
ghost use Rattle.racing_session.specs.Further.{IsNotAdded};
ghost use Rattle.racing_session.specs.Session.{came_to};

use crate::further::DeviceRefusal;
use crate::memory::lent;
use crate::progress::{Progress, progress_by};
use crate::session::RacingSession;
use crate::session::registers::service_limits;
use crate::told::{DeviceWaits, Handed};
use device_list::{DeviceSpec, ReceiveRefusal, WriteRefusal};
use mmio_window::FaultNote;
use network_device::{RECEIVEQ, TRANSMITQ};
use served_memory::Raced;
use std::alloc::Allocator;

impl<A: Allocator + Copy> RacingSession<A> {
    /// Adds a further device behind those that are there, as after a reset, and answers its number. All the memory that it will ever
    /// need is taken here.
    pub fn add_device(&mut self, alloc: A, spec: DeviceSpec) -> Result<u8, DeviceRefusal>
        ensures added { IfOk result (λ number. (number ≡ length self.old.further.devices)
            × (self.new ≡ with_devices (self.old.further.devices ++ fresh_device spec ∷ []) self.old)) }
        ensures refused { IfErr result (IsNotAdded self.old.further.devices spec) }
        ensures kept { OnErr result (self.new ≡ self.old) }
    {
        self.further.add(alloc, spec)
    }
}

impl<A: Allocator> RacingSession<A> {
    /// A guest's read of `width` bytes, 1, 2 or 4, at an offset of a device's window: what its register gets, extended by zeros
    /// (4.2.2). There is no answer of a device that isn't there.
    pub fn read_device(&self, device: u8, offset: u16, width: u8) -> Option<u32>
        ensures { result ≡ option_map (register_of offset width) (slice_get self.now.further.devices device) }
    {
        self.further.devices().read(device, offset, width)
    }

    /// A guest's write of a device's window. The queue that it notifies is served as far as the limits go: what is left then is due.
    pub fn write_device(
        &mut self,
        device: u8,
        offset: u16,
        width: u8,
        value: u32,
    ) -> Result<Progress, WriteRefusal>
        ghost stood: { List ℕ }
        ensures writes { IfOk result (IsWrittenTo stood device offset width value self.old self.new) }
        ensures refused { IfErr result (IsWriteRefusal offset (slice_get self.old.further.devices device)) }
        ensures kept { OnErr result (self.new ≡ self.old) }
    {
        let pages = lent(&mut self.pages);
        let regions = self.memory.regions();
        let mut mem = Raced(self.memory.over(&regions, pages));
        let limits = service_limits(self.limits);
        let further = &mut self.further;
        let written = further.write(device, offset, width, value, &mut mem, limits);
        self.pages = mem.0.into_pages();
        written?;
        Ok(self.progress())
    }

    /// Supplies an entropy device with random bytes (5.4), or types to a console (5.3), and answers how many were taken: the first
    /// ones. The chains on offer are filled then. There is no answer of a device that isn't there, or that takes none.
    pub fn supply(&mut self, device: u8, bytes: &[u8]) -> Option<Handed>
        ghost stood: { List ℕ }
        ensures taken { option_map (λ handed. handed.taken) result
            ≡ option_and_then (supply_taken bytes.now) (slice_get self.old.further.devices device) }
        ensures supplied { IfSome result (λ handed. ServesBehind stood device
            (changed_at (with_model (supplied bytes.now)) device self.old.further.devices) (Some 0) self.old self.new handed.progress) }
        ensures kept { IfNone result (self.new ≡ self.old) }
    {
        let taken = self.further.supply(device, bytes)?;
        let progress = self.serve_behind(device, Some(RECEIVEQ));
        Some(Handed { taken, progress })
    }

    /// Hands a network card a frame (5.1). The chains on offer are filled then. Where the frame is refused, nothing has changed.
    pub fn receive(&mut self, device: u8, frame: &[u8]) -> Result<Progress, ReceiveRefusal>
        ghost stood: { List ℕ }
        ensures received { IfOk result (ServesBehind stood device
            (changed_at (with_model (received frame.now)) device self.old.further.devices) (Some 0) self.old self.new) }
        ensures fits { OnOk result (receive_refusal frame.now (card_at device self.old.further.devices) ≡ None) }
        ensures refused { IfErr result (λ why. receive_refusal frame.now (card_at device self.old.further.devices) ≡ Some why) }
        ensures kept { OnErr result (self.new ≡ self.old) }
    {
        self.further.receive(device, frame)?;
        Ok(self.serve_behind(device, Some(RECEIVEQ)))
    }

    /// Whether the device of this number is there and its driver sends anything that the host takes: a network card, or a console.
    pub fn has_sender(&self, device: u8) -> bool
        ensures { result ≡ is_some (outgoing_at device self.now.further.devices) }
    {
        self.further.devices().has_sender(device)
    }

    /// What the driver of a network card or of a console sent and its host takes now, in two parts: the oldest frame, or all output.
    /// There is none where nothing waits, and of another device or one that isn't there.
    pub fn sent(&self, device: u8) -> Option<(&[u8], &[u8])>
        ensures { option_map (λ parts. parts.0.now ++ parts.1.now) result ≡ sent_by device self.now.further.devices }
    {
        self.further.devices().sent(device)
    }

    /// Drops what `sent` tells, since it was copied, and answers how many bytes that was. Once nothing more waits, the chains on offer are
    /// served for which there is room then. There is no answer where nothing waits: nothing has changed then.
    pub fn drop_sent(&mut self, device: u8) -> Option<Handed>
        ghost stood: { List ℕ }
        ensures count { option_map (λ handed. handed.taken) result
            ≡ option_map (λ sent. length sent) (sent_by device self.old.further.devices) }
        ensures dropped { IfSome result (λ handed. DropsSent stood device self.old self.new handed.progress) }
        ensures kept { IfNone result (self.new ≡ self.old) }
    {
        let taken = self.further.take_sent(device)?;
        let freed = if self.further.devices().has_sent(device) {
            None
        } else {
            Some(TRANSMITQ)
        };
        let progress = self.serve_behind(device, freed);
        Some(Handed { taken, progress })
    }

    /// Sets whether a network card's link is up, and tells its driver (5.1.4). False where the device isn't there or is no network
    /// card: nothing has changed then.
    pub fn set_link(&mut self, device: u8, up: bool) -> bool
        ensures found { result ≡ is_some (card_at device self.old.further.devices) }
        ensures linked { OnTrue result (self.new ≡ with_devices (changed_at (linked up) device self.old.further.devices) self.old) }
        ensures kept { OnFalse result (self.new ≡ self.old) }
    {
        self.further.set_link(device, up)
    }

    /// Changes the size of a further console, and tells its driver (5.3.4). False where the device isn't there or is no console:
    /// nothing has changed then.
    pub fn resize_device(&mut self, device: u8, cols: u16, rows: u16) -> bool
        ensures found { result ≡ is_some (terminal_at device self.old.further.devices) }
        ensures resized { OnTrue result (self.new ≡
            with_devices (changed_at (resized cols rows) device self.old.further.devices) self.old) }
        ensures kept { OnFalse result (self.new ≡ self.old) }
    {
        self.further.resize(device, cols, rows)
    }

    /// What waits for a further device's driver and for its host. There is no answer of a device that isn't there.
    pub fn device_waits(&self, device: u8) -> Option<DeviceWaits>
        ensures { result ≡ device_waits_at device self.now }
    {
        let devices = self.further.devices();
        let found = devices.get(device)?;
        Some(DeviceWaits {
            irq: found.interrupts(),
            sent: len_of(devices.sent(device)),
        })
    }

    /// Why a device's window asks for a reset: the last fault that was met in it, if one was. There is no answer of a device that isn't
    /// there. No clause speaks of which it is.
    pub fn device_fault(&self, device: u8) -> Option<Option<FaultNote>>
        ensures { is_some result ≡ is_some (slice_get self.now.further.devices device) }
    {
        let found = self.further.devices().get(device)?;
        Some(found.window().last_fault())
    }

    // Serves a queue of a device whose host did something to it, if one is to be served.
    fn serve_behind(&mut self, device: u8, queue: Option<u16>) -> Progress
        ghost stood: { List ℕ }
        ensures { ServesBehind stood device self.old.further.devices queue self.old self.new result }
    {
        let pages = lent(&mut self.pages);
        let regions = self.memory.regions();
        let mut mem = Raced(self.memory.over(&regions, pages));
        let limits = service_limits(self.limits);
        self.further.serve_notified(device, queue, &mut mem, limits);
        self.pages = mem.0.into_pages();
        self.progress()
    }

    // What a call came to with which no operation of the disk began.
    fn progress(&self) -> Progress
        ensures { result ≡ came_to false self.now }
    {
        progress_by(self.is_any_due(), false)
    }
}

// How many bytes two parts have.
fn len_of(parts: Option<(&[u8], &[u8])>) -> Option<usize>
    ensures { result ≡ option_map (λ bytes. length bytes)
        (option_map (λ parts. parts.0.now ++ parts.1.now) parts.entry) }
{
    let (front, back) = parts?;
    Some(front.len() + back.len())
}
