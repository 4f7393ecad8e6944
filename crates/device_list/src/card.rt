//! A network card: a network device, and the frames that its driver transmitted and its host hasn't taken.

ghost use Rattle.std.specs.Prelude.{◌≡◌, ◌≤◌, ◌++◌, Some, None, IfOk, IfErr, OnOk, OnErr, length};
ghost use Rattle.std.specs.Option.{option_map};
ghost use Rattle.guest_memory.specs.Memory.{SameRange};
ghost use Rattle.mmio_window.specs.Soundness.{IsSound};
ghost use Rattle.network_device.specs.Config.{config_of};
ghost use Rattle.network_device.specs.Network.{refusal};
ghost use Rattle.device_list.specs.Card.{CardServesIn, fresh_card, is_card_starving, oldest_of, with_frame, with_link, without_oldest};

mod saved;

use chain::{Chain, Progress};
use guest_memory::GuestMemory;
use mmio_window::{CONFIGURATION_LEN, Stage, Window};
use network_device::{
    FrameRefusal, FrameStore, Limits, NetworkConfiguration, NetworkDevice, NoMemory, NoRoom,
    RECEIVEQ, TRANSMITQ,
};
pub(crate) use saved::SavedCard;
use served_memory::{Limits as ServiceLimits, Served};
use std::alloc::{Allocator, Global};
use std::marker::Model;

/// How much may wait in a network card each way: this project's choice.
pub const CARD_LIMITS: Limits = Limits {
    bytes: 65536,
    frames: 64,
};

/// A network card. All its memory is taken once.
#[derive(Drop)]
pub struct NetworkCard<A: Allocator = Global> {
    network: NetworkDevice<A>,
    // the frames that wait for the host
    sent: FrameStore<A>,
}

impl<A: Allocator> Model for NetworkCard<A> {
    ghost use Rattle.std.specs.Prelude.{◌≡◌, []};
    ghost use Rattle.device_list.specs.Card.{Card, card_limits};

    ghost Value = { Card };

    ghost view = { λ c. record { network = c.network; sent = c.sent.frames } };

    ghost invariant = { λ c. ((c.sent.begun ≡ []) × (c.network.limits ≡ card_limits))
        × (c.sent.limits ≡ card_limits) };
}

impl<A: Allocator + Copy> NetworkCard<A> {
    /// One for which nothing waits, with its link up.
    pub(crate) fn new(alloc: A, mac: [u8; 6], mtu: u16) -> Result<NetworkCard<A>, NoMemory>
        requires mtu { 68 ≤ mtu }
        ensures { IfOk result (λ card. card ≡ fresh_card mac mtu) }
    {
        let configuration = NetworkConfiguration {
            mac,
            link_up: true,
            mtu,
        };
        let network = NetworkDevice::new(alloc, configuration, CARD_LIMITS)?;
        let sent = FrameStore::new(alloc, CARD_LIMITS)?;
        Ok(NetworkCard { network, sent })
    }
}

impl<A: Allocator> NetworkCard<A> {
    /// What its configuration space shows.
    pub(crate) fn configuration(&self) -> NetworkConfiguration
        ensures { result ≡ self.now.network.configuration }
    {
        self.network.configuration()
    }

    /// Its configuration space (5.1.4).
    pub(crate) fn config(&self) -> [u8; CONFIGURATION_LEN]
        ensures { result ≡ config_of self.now.network.configuration }
    {
        self.network.config()
    }

    /// Takes a frame of the host, whole, or refuses it.
    pub(crate) fn receive(&mut self, frame: &[u8]) -> Result<(), FrameRefusal>
        ensures fits { OnOk result (refusal self.old.network frame.now ≡ None) }
        ensures taken { OnOk result (self.new ≡ with_frame frame.now self.old) }
        ensures refused { IfErr result (λ why. refusal self.old.network frame.now ≡ Some why) }
        ensures kept { OnErr result (self.new ≡ self.old) }
    {
        self.network.receive(frame)
    }

    /// The oldest frame that waits for the host, in two parts.
    pub(crate) fn sent(&self) -> Option<(&[u8], &[u8])>
        ensures { option_map (λ parts. parts.0.now ++ parts.1.now) result ≡ oldest_of self.now }
    {
        self.sent.front()
    }

    /// Takes that frame away, and answers how many bytes it has. There is no answer where none waits.
    pub(crate) fn take_sent(&mut self) -> Option<usize>
        ensures count { result ≡ option_map (λ sent. length sent) (oldest_of self.old) }
        ensures taken { self.new ≡ without_oldest self.old }
    {
        let count = self.sent.frame_len(0);
        self.sent.pop();
        count
    }

    /// Sets whether the link is up. Its window is told by the caller.
    pub(crate) fn set_link(&mut self, up: bool)
        ensures { self.new ≡ with_link up self.old }
    {
        self.network.set_link(up);
    }

    /// Serves a piece of the queue of this number in its window: the frames that wait go to the driver, and those that
    /// the driver sent are taken while there is room.
    #[inline(always)]
    pub(crate) fn serve_in<G: Served>(
        &mut self,
        q: u16,
        mem: &mut G,
        window: &mut Window,
        stage: Stage,
        limits: ServiceLimits,
        chain: &mut Chain,
        room: &mut G::Room,
    ) -> Progress
        requires sound { IsSound (G.world.last (G.seen mem.old)) window.old }
        ensures serves { CardServesIn G.world stage limits result self.old q (G.seen mem.old) (G.seen mem.new) window.old
            window.new self.new }
        ensures range { SameRange (G.world.last (G.seen mem.old)) (G.world.last (G.seen mem.new)) }
        ensures sound { IsSound (G.world.last (G.seen mem.new)) window.new }
    {
        match q {
            RECEIVEQ => self
                .network
                .serve_receive_in(mem, window, stage, limits, chain, room),
            TRANSMITQ => {
                let out = &mut self.sent;
                match self
                    .network
                    .serve_transmit_in(mem, window, out, stage, limits, chain, room)
                {
                    Ok(progress) => progress,
                    Err(NoRoom) => Progress::Done,
                }
            }
            _ => Progress::Done,
        }
    }

    /// Whether a chain is on offer in its receive queue and no frame waits for that.
    pub(crate) fn starved<M: Allocator>(
        &self,
        mem: &GuestMemory<M>,
        window: &Window,
        room: &mut Chain,
    ) -> bool
        requires sound { IsSound mem.now window.now }
        ensures { result ≡ is_card_starving self.now mem.now window.now }
    {
        self.network.waiting() == 0 && window.has_offer(RECEIVEQ, mem, room)
    }
}
