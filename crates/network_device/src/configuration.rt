//! What a driver learns of the device: its own features (5.1.3), and its configuration (5.1.4).

ghost use Rattle.std.specs.Prelude.{◌≡◌, ◌++◌, replicate};
ghost use Rattle.negotiation.specs.Features.{feature_bits};
ghost use Rattle.network_device.specs.Config.{config_of, configuration_of, offered};

use byteorder::{ByteOrder, LittleEndian};
use negotiation::{Features, Flags};

/// The bit of `status` that says that the link is up (5.1.4).
const VIRTIO_NET_S_LINK_UP: u16 = 1;

/// The features of its own that a network device offers: no offload, no merged buffers, no control queue, one pair of
/// queues.
pub fn offered_features() -> Features
    ensures { feature_bits result ≡ offered }
{
    Features::NETWORK_MTU
        .union(Features::NETWORK_MAC)
        .union(Features::NETWORK_STATUS)
}

/// What the configuration of a network device shows.
#[derive(Clone, Copy, Debug, PartialEq, Eq)]
pub struct NetworkConfiguration {
    /// Its address.
    pub mac: [u8; 6],
    /// Whether its link is up.
    pub link_up: bool,
    /// The longest payload of a frame: the header of 14 bytes doesn't count.
    pub mtu: u16,
}

impl NetworkConfiguration {
    /// The fields (5.1.4), little-endian: mac at 0, status at 6, max_virtqueue_pairs at 8, mtu at 10. The third reads 0,
    /// since VIRTIO_NET_F_MQ isn't offered.
    pub fn bytes(&self) -> [u8; 12]
        ensures { result ≡ configuration_of self.now }
    {
        let status = if self.link_up {
            VIRTIO_NET_S_LINK_UP
        } else {
            0
        };
        let mut bytes = [0; 12];
        LittleEndian::write_u16(&mut bytes[6..8], status);
        LittleEndian::write_u16(&mut bytes[10..12], self.mtu);
        bytes[..6].copy_from_slice(&self.mac);
        bytes
    }

    /// The configuration space: the fields, and zeros behind them.
    pub fn space(&self) -> [u8; 64]
        ensures { result ≡ config_of self.now }
    {
        let mut space = [0; 64];
        space[..12].copy_from_slice(&self.bytes());
        space
    }
}
