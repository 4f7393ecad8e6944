//! What the host of a list's devices hands in and takes.

ghost use Rattle.std.specs.Prelude.{◌≡◌, ◌≢◌, ◌++◌, true, Some, None, IsSome, IfErr, OnOk, OnErr, is_some, length};
ghost use Rattle.std.specs.Bool.{OnTrue, OnFalse};
ghost use Rattle.std.specs.List.{slice_get};
ghost use Rattle.std.specs.Option.{option_and_then, option_map};
ghost use Rattle.guest_memory.specs.Memory.{Memory, SameRange};
ghost use Rattle.device_list.specs.Card.{receive_refusal};
ghost use Rattle.device_list.specs.Device.{Told, linked, received, resized, supplied, supply_taken, with_model};
ghost use Rattle.device_list.specs.Model.{without_sent};
ghost use Rattle.device_list.specs.List.{AreSoundDevices, At, are_at_work, card_at, changed_at, disk_at, is_starved_at, outgoing_at, sent_by, terminal_at};
ghost use Rattle.hosted_disk.specs.Told.{has_effect};

use crate::list::DeviceList;
use crate::refusal::ReceiveRefusal;
use block_device::HostEvent;
use chain::Chain;
use guest_memory::GuestMemory;
use hosted_disk::HostedDisk;
use std::alloc::Allocator;

impl<A: Allocator> DeviceList<A> {
    /// Hands a device what its host supplies: random bytes, or what is typed to a console. Answers how many bytes it took. Its
    /// queue 0 is to be served next. There is no answer of a device that isn't there, or that takes none: nothing has changed then.
    pub fn supply(&mut self, device: u8, bytes: &[u8]) -> Option<usize>
        ensures taken { result ≡ option_and_then (supply_taken bytes.now) (slice_get self.old device) }
        ensures supplied { IsSome result → self.new ≡ changed_at (with_model (supplied bytes.now)) device self.old }
        ensures kept { result ≡ None → self.new ≡ self.old }
        ensures sound { (m : Memory) → AreSoundDevices m self.old → AreSoundDevices m self.new }
    {
        let found = self.devices.get_mut(usize::from(device))?;
        found.supply(bytes)
    }

    /// Hands a network card a frame of its host. It waits until the driver offers a chain that it fits: the receive queue is to be
    /// served next. Where the frame is refused, nothing has changed.
    #[inline(never)]
    pub fn receive(&mut self, device: u8, frame: &[u8]) -> Result<(), ReceiveRefusal>
        ensures fits { OnOk result (receive_refusal frame.now (card_at device self.old) ≡ None) }
        ensures received { OnOk result (self.new ≡ changed_at (with_model (received frame.now)) device self.old) }
        ensures refused { IfErr result (λ why. receive_refusal frame.now (card_at device self.old) ≡ Some why) }
        ensures kept { OnErr result (self.new ≡ self.old) }
        ensures sound { (m : Memory) → AreSoundDevices m self.old → AreSoundDevices m self.new }
    {
        let Some(found) = self.devices.get_mut(usize::from(device)) else {
            return Err(ReceiveRefusal::NoDevice);
        };
        found.receive(frame)
    }

    /// Whether the device of this number is there and its driver sends anything that the host takes: a network card, or a
    /// console.
    pub fn has_sender(&self, device: u8) -> bool
        ensures { result ≡ is_some (outgoing_at device self.now) }
    {
        match self.get(device) {
            Some(found) => found.is_sender(),
            None => false,
        }
    }

    /// What the driver of a network card or of a console sent and its host takes now, in two parts: the oldest frame, or all
    /// output. There is none where nothing waits, and of another device or one that isn't there.
    pub fn sent(&self, device: u8) -> Option<(&[u8], &[u8])>
        ensures { option_map (λ parts. parts.0.now ++ parts.1.now) result ≡ sent_by device self.now }
    {
        let found = self.get(device)?;
        found.sent()
    }

    /// Whether `sent` tells anything.
    pub fn has_sent(&self, device: u8) -> bool
        ensures { result ≡ is_some (sent_by device self.now) }
    {
        self.sent(device).is_some()
    }

    /// Takes that away, and answers how many bytes it has. The transmit queue is to be served next, where nothing more waits. There
    /// is no answer where nothing waits: nothing has changed then.
    pub fn take_sent(&mut self, device: u8) -> Option<usize>
        ensures count { result ≡ option_map (λ sent. length sent) (sent_by device self.old) }
        ensures taken { IsSome result → self.new ≡ changed_at (with_model without_sent) device self.old }
        ensures kept { result ≡ None → self.new ≡ self.old }
        ensures sound { (m : Memory) → AreSoundDevices m self.old → AreSoundDevices m self.new }
    {
        let found = self.devices.get_mut(usize::from(device))?;
        found.take_sent()
    }

    /// Sets whether the link of a network card is up, and tells its driver (5.1.4). False where the device isn't there or is no
    /// network card: nothing has changed then.
    pub fn set_link(&mut self, device: u8, up: bool) -> bool
        ensures found { result ≡ is_some (card_at device self.old) }
        ensures linked { OnTrue result (self.new ≡ changed_at (linked up) device self.old) }
        ensures kept { OnFalse result (self.new ≡ self.old) }
        ensures sound { (m : Memory) → AreSoundDevices m self.old → AreSoundDevices m self.new }
    {
        let Some(found) = self.devices.get_mut(usize::from(device)) else {
            return false;
        };
        found.set_link(up)
    }

    /// Changes the size of a console, and tells its driver (5.3.4). False where the device isn't there or is no console:
    /// nothing has changed then.
    pub fn resize(&mut self, device: u8, cols: u16, rows: u16) -> bool
        ensures found { result ≡ is_some (terminal_at device self.old) }
        ensures resized { OnTrue result (self.new ≡ changed_at (resized cols rows) device self.old) }
        ensures kept { OnFalse result (self.new ≡ self.old) }
        ensures sound { (m : Memory) → AreSoundDevices m self.old → AreSoundDevices m self.new }
    {
        let Some(found) = self.devices.get_mut(usize::from(device)) else {
            return false;
        };
        found.resize(cols, rows)
    }

    /// Whether a chain is on offer in a device's queue that waits for what the host supplies or sends. There is no answer of a device
    /// that isn't there.
    pub fn starved<M: Allocator>(
        &self,
        device: u8,
        mem: &GuestMemory<M>,
        room: &mut Chain,
    ) -> Option<bool>
        requires sound { AreSoundDevices mem.now self.now }
        ensures { result ≡ option_map (is_starved_at mem.now) (slice_get self.now device) }
    {
        let found = self.get(device)?;
        Some(found.starved(mem, room))
    }

    /// The disk of this number that its host serves. There is none where the device isn't there or is none.
    pub fn disk(&self, device: u8) -> Option<&HostedDisk<A>>
        ensures { option_map (λ disk. disk.now) result ≡ disk_at device self.now }
    {
        let found = self.get(device)?;
        found.disk()
    }

    /// Whether anything is in flight of any disk.
    pub fn are_at_work(&self) -> bool
        ensures { result ≡ are_at_work self.now }
    {
        self.devices.iter().any(|device| device.is_at_work())
    }

    /// Has a disk do what the host says of it, and answers whether there was something to do. There is no answer of a device
    /// that isn't there or is no disk. But where there was something to do, nothing has changed.
    pub fn tell<M: Allocator>(
        &mut self,
        device: u8,
        said: HostEvent,
        mem: &mut GuestMemory<M>,
        room: &mut Chain,
    ) -> Option<bool>
        requires sound { AreSoundDevices mem.old self.old }
        ensures found { result ≡ option_map (has_effect said) (disk_at device self.old) }
        ensures does { result ≡ Some true → At (Told said) device mem.old mem.new self.old self.new }
        ensures kept { result ≢ Some true → self.new ≡ self.old }
        ensures unwritten { result ≢ Some true → mem.new ≡ mem.old }
        ensures range { SameRange mem.old mem.new }
        ensures sound { AreSoundDevices mem.new self.new }
    {
        let found = self.devices.get_mut(usize::from(device))?;
        found.tell(said, mem, room)
    }
}
