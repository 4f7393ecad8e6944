//! The device: its configuration, the frames that wait, and what was dropped.

ghost use Rattle.std.specs.Prelude.{◌≡◌, ◌++◌, ◌∷◌, ◌≤◌, [], None, Some, IfOk, IfErr, OnOk, OnErr, length};
ghost use Rattle.network_device.specs.Config.{config_of};
ghost use Rattle.network_device.specs.Device.{passing};
ghost use Rattle.network_device.specs.Frames.{IsWithin};
ghost use Rattle.network_device.specs.Network.{Network, refusal};

use crate::configuration::NetworkConfiguration;
use crate::limits::Limits;
use crate::no_memory::NoMemory;
use crate::outlet::FrameOutlet;
use crate::refusal::FrameRefusal;
use crate::saved::SavedFrames;
use crate::store::FrameStore;
use std::alloc::{Allocator, Global};
use std::marker::Model;

/// The queue for frames to the driver (5.1.2).
pub const RECEIVEQ: u16 = 0;

/// The queue for frames from the driver (5.1.2).
pub const TRANSMITQ: u16 = 1;

/// The header of Ethernet, which the MTU doesn't count.
const ETHERNET_HEADER_LEN: usize = 14;

/// A network device of one pair of queues.
#[derive(Drop)]
pub struct NetworkDevice<A: Allocator = Global> {
    pub(crate) configuration: NetworkConfiguration,
    pub(crate) waiting: FrameStore<A>,
    // how many of the host's frames were dropped, and how many of the driver's
    pub(crate) dropped_in: u64,
    pub(crate) dropped_out: u64,
}

impl<A: Allocator> Model for NetworkDevice<A> {
    ghost use Rattle.std.specs.Prelude.{◌≡◌, []};
    ghost use Rattle.network_device.specs.Device.{passing};
    ghost use Rattle.network_device.specs.Network.{Network};

    ghost Value = { Network };

    ghost view = { λ d. record {
      configuration = d.configuration;
      waiting = passing d.waiting.frames d.dropped_in;
      limits = d.waiting.limits;
      dropped = d.dropped_out;
    } };

    ghost invariant = { λ d. d.waiting.begun ≡ [] };
}

impl<A: Allocator + Copy> NetworkDevice<A> {
    /// A device for which no frame waits. All the room that its frames may need is made here.
    pub fn new(
        alloc: A,
        configuration: NetworkConfiguration,
        limits: Limits,
    ) -> Result<NetworkDevice<A>, NoMemory>
        requires mtu { 68 ≤ configuration.mtu }
        ensures { IfOk result (λ device. device ≡
            record { configuration = configuration; waiting = passing [] 0; limits = limits; dropped = 0 }) }
    {
        let waiting = FrameStore::new(alloc, limits)?;
        Ok(NetworkDevice {
            configuration,
            waiting,
            dropped_in: 0,
            dropped_out: 0,
        })
    }
}

impl<A: Allocator> NetworkDevice<A> {
    /// Takes a frame of the host, whole, or refuses it. It waits until the driver offers a chain that it fits.
    pub fn receive(&mut self, frame: &[u8]) -> Result<(), FrameRefusal>
        ensures ok { OnOk result (refusal self.old frame.now ≡ None) }
        ensures taken { OnOk result (self.new ≡ record self.old {
          waiting = passing (self.old.waiting.frames ++ frame.now ∷ []) self.old.waiting.dropped;
        }) }
        ensures err { IfErr result (λ why. refusal self.old frame.now ≡ Some why) }
        ensures same { OnErr result (self.new ≡ self.old) }
    {
        let len = frame.len();
        if len == 0 {
            return Err(FrameRefusal::Empty);
        }
        if len > usize::from(self.configuration.mtu) + ETHERNET_HEADER_LEN {
            return Err(FrameRefusal::TooLong);
        }
        if !self.waiting.has_room(len as u64) {
            return Err(FrameRefusal::Full);
        }
        self.waiting.append(frame);
        self.waiting.end();
        Ok(())
    }

    /// The frames of the host that wait.
    pub fn frames(&self) -> &FrameStore<A>
        ensures frames { result.now.frames ≡ self.now.waiting.frames }
        ensures limits { result.now.limits ≡ self.now.limits }
    {
        &self.waiting
    }

    /// Puts these frames of the host in the place of those that wait, and these counts of what was dropped, as `dropped` tells them.
    pub fn restore(&mut self, frames: &SavedFrames<'_>, dropped: (u64, u64))
        requires { IsWithin self.old.limits frames.now }
        ensures { self.new ≡ record self.old { waiting = passing frames.now dropped.0; dropped = dropped.1 } }
    {
        self.waiting.restore(frames);
        (self.dropped_in, self.dropped_out) = dropped;
    }

    /// Sets whether the link is up. Its window is told by the caller.
    pub fn set_link(&mut self, up: bool)
        ensures { self.new ≡ record self.old { configuration = record self.old.configuration { link_up = up } } }
    {
        self.configuration.link_up = up;
    }

    /// The configuration space (5.1.4).
    pub fn config(&self) -> [u8; 64]
        ensures { result ≡ config_of self.now.configuration }
    {
        self.configuration.space()
    }

    /// What its configuration space shows.
    pub fn configuration(&self) -> NetworkConfiguration
        ensures { result ≡ self.now.configuration }
    {
        self.configuration
    }

    /// How many frames of the host wait.
    pub fn waiting(&self) -> usize
        ensures { result ≡ length self.now.waiting.frames }
    {
        self.waiting.count()
    }

    /// How many frames of the host were dropped, and how many chains of the driver: each stays at 2^64 - 1.
    pub fn dropped(&self) -> (u64, u64)
        ensures received { result.0 ≡ self.now.waiting.dropped }
        ensures transmitted { result.1 ≡ self.now.dropped }
    {
        (self.dropped_in, self.dropped_out)
    }
}
