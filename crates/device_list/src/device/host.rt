//! What the host of a device hands in and takes.

ghost use Rattle.std.specs.Prelude.{◌≡◌, ◌≢◌, ◌++◌, true, Some, None, IfErr, OnOk, OnErr, IsSome, is_some, length};
ghost use Rattle.std.specs.Bool.{OnTrue, OnFalse};
ghost use Rattle.std.specs.Option.{option_map};
ghost use Rattle.guest_memory.specs.Memory.{Memory, SameRange};
ghost use Rattle.mmio_window.specs.Window.{with_config_changed};
ghost use Rattle.device_list.specs.Card.{receive_refusal};
ghost use Rattle.device_list.specs.Device.{IsSoundDevice, Told, linked, received, resized, supplied, supply_taken, with_model};
ghost use Rattle.device_list.specs.Model.{card_of, disk_of, is_at_work, is_starving, outgoing_of, sent_of, terminal_of, without_sent};
ghost use Rattle.hosted_disk.specs.Told.{has_effect};

use crate::device::VirtioDevice;
use crate::model::DeviceModel;
use crate::refusal::ReceiveRefusal;
use block_device::HostEvent;
use chain::Chain;
use guest_memory::GuestMemory;
use hosted_disk::HostedDisk;
use std::alloc::Allocator;

impl<A: Allocator> VirtioDevice<A> {
    /// Whether its driver sends anything that the host takes: frames of a card, or output of a console.
    pub(crate) fn is_sender(&self) -> bool
        ensures { result ≡ is_some (outgoing_of self.now.model) }
    {
        matches!(
            self.model,
            DeviceModel::Network(_) | DeviceModel::Console(_)
        )
    }

    /// Takes what the host supplies, and answers how many bytes it took: there is no answer of a device that takes none. Its
    /// queue 0 is to be served next.
    pub(crate) fn supply(&mut self, bytes: &[u8]) -> Option<usize>
        ensures taken { result ≡ supply_taken bytes.now self.old }
        ensures supplied { self.new ≡ with_model (supplied bytes.now) self.old }
        ensures kept { result ≡ None → self.new ≡ self.old }
        ensures sound { (m : Memory) → IsSoundDevice m self.old → IsSoundDevice m self.new }
    {
        match &mut self.model {
            DeviceModel::Entropy(entropy) => Some(entropy.supply(bytes)),
            DeviceModel::Console(terminal) => Some(terminal.supply(bytes)),
            _ => None,
        }
    }

    /// Takes a frame of the host, or refuses it. The receive queue is to be served next.
    pub(crate) fn receive(&mut self, frame: &[u8]) -> Result<(), ReceiveRefusal>
        ensures fits { OnOk result (receive_refusal frame.now (card_of self.old.model) ≡ None) }
        ensures received { OnOk result (self.new ≡ with_model (received frame.now) self.old) }
        ensures refused { IfErr result (λ why. receive_refusal frame.now (card_of self.old.model) ≡ Some why) }
        ensures kept { OnErr result (self.new ≡ self.old) }
        ensures sound { (m : Memory) → IsSoundDevice m self.old → IsSoundDevice m self.new }
    {
        match &mut self.model {
            DeviceModel::Network(card) => card.receive(frame).map_err(ReceiveRefusal::Frame),
            _ => Err(ReceiveRefusal::NoDevice),
        }
    }

    /// What the driver sent and the host takes now, in two parts: a card's oldest frame, or all output of a console.
    pub(crate) fn sent(&self) -> Option<(&[u8], &[u8])>
        ensures { option_map (λ parts. parts.0.now ++ parts.1.now) result ≡ sent_of self.now.model }
    {
        match &self.model {
            DeviceModel::Network(card) => card.sent(),
            DeviceModel::Console(terminal) => terminal.sent(),
            _ => None,
        }
    }

    /// Takes that away, and answers how many bytes it has. The transmit queue is to be served next, where nothing more waits. There is
    /// no answer where nothing waits: nothing has changed then.
    pub(crate) fn take_sent(&mut self) -> Option<usize>
        ensures count { result ≡ option_map (λ sent. length sent) (sent_of self.old.model) }
        ensures taken { IsSome result → self.new ≡ with_model without_sent self.old }
        ensures kept { result ≡ None → self.new ≡ self.old }
        ensures sound { (m : Memory) → IsSoundDevice m self.old → IsSoundDevice m self.new }
    {
        match &mut self.model {
            DeviceModel::Network(card) => card.take_sent(),
            DeviceModel::Console(terminal) => terminal.take_sent(),
            _ => None,
        }
    }

    /// Sets whether the link is up, and tells the driver (5.1.4). False where it is no network card: nothing has changed then.
    pub(crate) fn set_link(&mut self, up: bool) -> bool
        ensures found { result ≡ is_some (card_of self.old.model) }
        ensures linked { OnTrue result (self.new ≡ linked up self.old) }
        ensures kept { OnFalse result (self.new ≡ self.old) }
        ensures sound { (m : Memory) → IsSoundDevice m self.old → IsSoundDevice m self.new }
    {
        let DeviceModel::Network(card) = &mut self.model else {
            return false;
        };
        card.set_link(up);
        self.config_changed();
        true
    }

    /// Changes the size, and tells the driver (5.3.4). False where it is no console: nothing has changed then.
    pub(crate) fn resize(&mut self, cols: u16, rows: u16) -> bool
        ensures found { result ≡ is_some (terminal_of self.old.model) }
        ensures resized { OnTrue result (self.new ≡ resized cols rows self.old) }
        ensures kept { OnFalse result (self.new ≡ self.old) }
        ensures sound { (m : Memory) → IsSoundDevice m self.old → IsSoundDevice m self.new }
    {
        let DeviceModel::Console(terminal) = &mut self.model else {
            return false;
        };
        terminal.resize(cols, rows);
        self.config_changed();
        true
    }

    // Its configuration changed: the driver is told (2.5.1).
    fn config_changed(&mut self)
        ensures changed { self.new ≡ record self.old { window = with_config_changed self.old.window } }
        ensures sound { (m : Memory) → IsSoundDevice m self.old → IsSoundDevice m self.new }
    {
        self.window.config_changed();
    }

    /// Whether a chain is on offer that waits for what the host supplies or sends.
    pub(crate) fn starved<M: Allocator>(&self, mem: &GuestMemory<M>, room: &mut Chain) -> bool
        requires sound { IsSoundDevice mem.now self.now }
        ensures { result ≡ is_starving self.now.model mem.now self.now.window }
    {
        match &self.model {
            DeviceModel::Entropy(entropy) => entropy.starved(mem, &self.window, room),
            DeviceModel::Network(card) => card.starved(mem, &self.window, room),
            DeviceModel::Console(terminal) => terminal.starved(mem, &self.window, room),
            _ => false,
        }
    }

    /// The disk that its host serves, if it is one.
    pub(crate) fn disk(&self) -> Option<&HostedDisk<A>>
        ensures { option_map (λ disk. disk.now) result ≡ disk_of self.now.model }
    {
        self.model.disk()
    }

    /// Whether anything is in flight of it.
    pub(crate) fn is_at_work(&self) -> bool
        ensures { result ≡ is_at_work self.now.model }
    {
        match &self.model {
            DeviceModel::Block(disk) => disk.is_busy(),
            _ => false,
        }
    }

    /// Does what the host says of the disk that it is, and answers whether there was something to do. There is no answer of
    /// another device. But where there was, nothing has changed.
    pub(crate) fn tell<M: Allocator>(
        &mut self,
        said: HostEvent,
        mem: &mut GuestMemory<M>,
        room: &mut Chain,
    ) -> Option<bool>
        requires sound { IsSoundDevice mem.old self.old }
        ensures found { result ≡ option_map (has_effect said) (disk_of self.old.model) }
        ensures does { result ≡ Some true → Told said mem.old mem.new self.old self.new }
        ensures kept { result ≢ Some true → self.new ≡ self.old }
        ensures unwritten { result ≢ Some true → mem.new ≡ mem.old }
        ensures range { SameRange mem.old mem.new }
        ensures sound { IsSoundDevice mem.new self.new }
    {
        match &mut self.model {
            DeviceModel::Block(disk) => Some(disk.tell(said, mem, &mut self.window, room)),
            _ => None,
        }
    }
}
