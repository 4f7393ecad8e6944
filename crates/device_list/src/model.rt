//! What stands behind a device's window.

ghost use Rattle.std.specs.Prelude.{◌≡◌, false, IfOk};
ghost use Rattle.std.specs.Option.{option_map};
ghost use Rattle.guest_memory.specs.Memory.{SameRange};
ghost use Rattle.mmio_window.specs.Soundness.{IsSound};
ghost use Rattle.negotiation.specs.Features.{feature_bits};
ghost use Rattle.device_list.specs.Model.{IsHeld, KeepsModel, ModelServesIn, ModelServesTo, config_of, configured, disk_of, features_of, fresh_model, has_bad_disk, has_bad_mtu, image_of, kind_of, must_wait, state_of};

mod saved;
mod waiting;

use crate::card::NetworkCard;
use crate::spec::DeviceSpec;
use crate::terminal::Terminal;
use block_device::BlockDevice;
use chain::{Budget, Chain, Progress};
use entropy_device::{EntropyDevice, REQUESTQ};
use guest_memory::GuestMemory;
use hosted_disk::HostedDisk;
use mmio_window::{CONFIGURATION_LEN, DeviceKind, Stage, Window};
use negotiation::{Features, Flags};
use network_device::{NoMemory, offered_features};
use served_memory::{Limits, Served};
use std::alloc::{Allocator, Global};

/// What stands behind a device's window, by the type of device.
#[derive(Drop)]
pub enum DeviceModel<A: Allocator = Global> {
    /// An entropy device, with the bytes that wait in its pool (5.4).
    Entropy(EntropyDevice),
    /// A network card, with the frames that wait each way (5.1).
    Network(NetworkCard<A>),
    /// A disk that the host serves, with what is in flight of it (5.2).
    Block(HostedDisk<A>),
    /// A console, with pending input and the output that waits (5.3).
    Console(Terminal<A>),
    /// A disk over some of the slot's spare sectors of the image, which its extent numbers (5.2).
    Image(BlockDevice),
}

impl<A: Allocator + Copy> DeviceModel<A> {
    /// One for which nothing waits.
    pub(crate) fn new(alloc: A, spec: DeviceSpec) -> Result<DeviceModel<A>, NoMemory>
        requires mtu { has_bad_mtu spec ≡ false }
        requires disk { has_bad_disk spec ≡ false }
        ensures { IfOk result (λ model. state_of model ≡ fresh_model spec) }
    {
        match spec {
            DeviceSpec::Entropy => Ok(DeviceModel::Entropy(EntropyDevice::new())),
            DeviceSpec::Network { mac, mtu } => {
                let card = NetworkCard::new(alloc, mac, mtu)?;
                Ok(DeviceModel::Network(card))
            }
            DeviceSpec::Block {
                sectors,
                read_only,
                identity,
                depth,
            } => match HostedDisk::new(alloc, sectors, read_only, identity, depth) {
                Ok(disk) => Ok(DeviceModel::Block(disk)),
                Err(_) => Err(NoMemory),
            },
            DeviceSpec::Console { cols, rows } => {
                let terminal = Terminal::new(alloc, cols, rows)?;
                Ok(DeviceModel::Console(terminal))
            }
            DeviceSpec::Image {
                extent,
                read_only,
                identity,
            } => Ok(DeviceModel::Image(BlockDevice {
                extent,
                read_only,
                identity,
            })),
        }
    }
}

impl<A: Allocator> DeviceModel<A> {
    /// The type of device.
    pub fn kind(&self) -> DeviceKind
        ensures { result ≡ kind_of (state_of self.now) }
    {
        match self {
            DeviceModel::Entropy(_) => DeviceKind::Entropy,
            DeviceModel::Network(_) => DeviceKind::Network,
            DeviceModel::Block(_) | DeviceModel::Image(_) => DeviceKind::Block,
            DeviceModel::Console(_) => DeviceKind::Console,
        }
    }

    /// The features that it offers (2.2).
    pub(crate) fn features(&self) -> Features
        ensures { feature_bits result ≡ features_of (state_of self.now) }
    {
        match self {
            DeviceModel::Entropy(_) => Features::of_every_device(),
            DeviceModel::Network(_) => offered_features().union(Features::of_every_device()),
            DeviceModel::Block(disk) => disk.features(),
            DeviceModel::Console(terminal) => terminal.features(),
            DeviceModel::Image(disk) => disk.features(),
        }
    }

    /// Its configuration space (2.5).
    pub(crate) fn config(&self) -> [u8; CONFIGURATION_LEN]
        ensures { result ≡ config_of (state_of self.now) }
    {
        match self {
            DeviceModel::Entropy(_) => [0; CONFIGURATION_LEN],
            DeviceModel::Network(card) => card.config(),
            DeviceModel::Block(disk) => disk.config(),
            DeviceModel::Console(terminal) => terminal.config(),
            DeviceModel::Image(disk) => disk.config(),
        }
    }

    /// The disk that its host serves, if it is one.
    pub fn disk(&self) -> Option<&HostedDisk<A>>
        ensures { option_map (λ disk. disk.now) result ≡ disk_of (state_of self.now) }
    {
        match self {
            DeviceModel::Block(disk) => Some(disk),
            _ => None,
        }
    }

    /// The disk over the image that it is, if it is one.
    pub fn image_disk(&self) -> Option<BlockDevice>
        ensures { result ≡ image_of (state_of self.now) }
    {
        match self {
            DeviceModel::Image(disk) => Some(*disk),
            _ => None,
        }
    }

    /// Whether a write at this offset of its window waits for what is in flight.
    pub(crate) fn must_wait(&self, offset: u16) -> bool
        ensures { result ≡ must_wait offset (state_of self.now) }
    {
        match self {
            DeviceModel::Block(disk) => disk.must_wait(offset),
            _ => false,
        }
    }

    /// Takes what its driver wrote to its configuration, at this offset of its window.
    pub(crate) fn configure(&mut self, offset: u16, value: u32)
        ensures configured { state_of self.new ≡ configured offset value (state_of self.old) }
        ensures keeps { KeepsModel (state_of self.old) (state_of self.new) }
    {
        if let DeviceModel::Console(terminal) = self {
            terminal.configure(offset, value);
        }
    }

    /// Serves a piece of the queue of this number in its window, within the budget. Of a disk over the image nothing is served.
    /// `room` is where the chains stand, one after another.
    #[inline(never)]
    pub(crate) fn serve<M: Allocator>(
        &mut self,
        q: u16,
        mem: &mut GuestMemory<M>,
        window: &mut Window,
        stage: Stage,
        budget: Budget,
        room: &mut Chain,
    ) -> Progress
        requires sound { IsSound mem.old window.old }
        requires held { IsHeld mem.old window.old (state_of self.old) }
        ensures serves { ModelServesTo stage budget result (state_of self.old) q mem.old mem.new window.old window.new (state_of self.new) }
        ensures same_kind { kind_of (state_of self.new) ≡ kind_of (state_of self.old) }
        ensures same_features { features_of (state_of self.new) ≡ features_of (state_of self.old) }
        ensures range { SameRange mem.old mem.new }
        ensures sound { IsSound mem.new window.new }
        ensures held { IsHeld mem.new window.new (state_of self.new) }
    {
        if let DeviceModel::Block(disk) = self {
            return disk.serve_piece(q, mem, window, stage, budget, room);
        }
        let limits = Limits { budget, rounds: 1 };
        self.serve_in(q, mem, window, stage, limits, room, &mut ())
    }

    /// Serves a piece of the queue of this number in its window, over any memory, within limits. Of a disk nothing is served.
    /// `chain` and `room` are as [`Served::serve`] takes them.
    #[inline(always)]
    pub(crate) fn serve_in<G: Served>(
        &mut self,
        q: u16,
        mem: &mut G,
        window: &mut Window,
        stage: Stage,
        limits: Limits,
        chain: &mut Chain,
        room: &mut G::Room,
    ) -> Progress
        requires sound { IsSound (G.world.last (G.seen mem.old)) window.old }
        requires held { IsHeld (G.world.last (G.seen mem.old)) window.old (state_of self.old) }
        ensures serves { ModelServesIn G.world stage limits result (state_of self.old) q (G.seen mem.old) (G.seen mem.new)
            window.old window.new (state_of self.new) }
        ensures same_kind { kind_of (state_of self.new) ≡ kind_of (state_of self.old) }
        ensures same_features { features_of (state_of self.new) ≡ features_of (state_of self.old) }
        ensures range { SameRange (G.world.last (G.seen mem.old)) (G.world.last (G.seen mem.new)) }
        ensures sound { IsSound (G.world.last (G.seen mem.new)) window.new }
        ensures held { IsHeld (G.world.last (G.seen mem.new)) window.new (state_of self.new) }
    {
        match (self, q) {
            (DeviceModel::Entropy(entropy), REQUESTQ) => {
                entropy.serve_in(mem, window, stage, limits, chain, room)
            }
            (DeviceModel::Entropy(_), _) => Progress::Done,
            (DeviceModel::Network(card), _) => {
                card.serve_in(q, mem, window, stage, limits, chain, room)
            }
            (DeviceModel::Console(terminal), _) => {
                terminal.serve_in(q, mem, window, stage, limits, chain, room)
            }
            (DeviceModel::Block(_), _) => Progress::Done,
            (DeviceModel::Image(_), _) => Progress::Done,
        }
    }
}
