//! What a device is to be, and why one isn't added.

ghost use Rattle.std.specs.Prelude.{◌≡◌};
ghost use Rattle.device_list.specs.Model.{has_bad_disk, has_bad_mtu};

use block_device::{Extent, MOST_IN_FLIGHT};
use thiserror::Error;

/// The most devices that a list may have.
pub const MOST_DEVICES: usize = 6;

/// The least MTU of a network card (5.1.4.1).
const LEAST_MTU: u16 = 68;

/// As many sectors a disk doesn't have: its bytes wouldn't be counted in 64 bits.
const TOO_MANY_SECTORS: u64 = 1 << 55;

/// What a device is to be.
#[derive(Clone, Copy, Debug, PartialEq, Eq)]
pub enum DeviceSpec {
    /// An entropy device (5.4).
    Entropy,
    /// A network card (5.1), whose link is up.
    Network {
        /// Its address.
        mac: [u8; 6],
        /// The longest payload of a frame, 68 or more. The header of Ethernet doesn't count.
        mtu: u16,
    },
    /// A disk that the host serves (5.2).
    Block {
        /// How many sectors it has: fewer than 2^55.
        sectors: u64,
        /// Whether it refuses to write (VIRTIO_BLK_F_RO, 5.2.3).
        read_only: bool,
        /// What GET_ID gives (5.2.6). A text that is shorter has NULs behind it.
        identity: [u8; 20],
        /// How many operations may be in flight at most: 1 to 64.
        depth: u8,
    },
    /// A console (5.3) of this size in characters.
    Console {
        /// Its columns.
        cols: u16,
        /// Its rows.
        rows: u16,
    },
    /// A disk over some of the slot's spare sectors of the image (5.2).
    Image {
        /// Which of them it has: the first one's place among the spare sectors, and how many.
        extent: Extent,
        /// Whether it refuses to write (VIRTIO_BLK_F_RO, 5.2.3).
        read_only: bool,
        /// What GET_ID gives (5.2.6). A text that is shorter has NULs behind it.
        identity: [u8; 20],
    },
}

impl DeviceSpec {
    /// Whether it has an MTU that is below the least.
    pub fn has_bad_mtu(&self) -> bool
        ensures { result ≡ has_bad_mtu self.now }
    {
        match self {
            DeviceSpec::Network { mtu, .. } => *mtu < LEAST_MTU,
            _ => false,
        }
    }

    /// Whether it is a disk that the host serves and has more sectors than one may have, or another depth than 1 to 64.
    pub fn has_bad_disk(&self) -> bool
        ensures { result ≡ has_bad_disk self.now }
    {
        match self {
            DeviceSpec::Block { sectors, depth, .. } => {
                *sectors >= TOO_MANY_SECTORS || *depth == 0 || usize::from(*depth) > MOST_IN_FLIGHT
            }
            _ => false,
        }
    }
}

/// A device isn't added.
#[derive(Clone, Copy, Debug, Error, PartialEq, Eq)]
pub enum AddRefusal {
    /// There are as many devices as there may be.
    #[error("a slot has six devices at most beside its disk and its console")]
    TooMany,
    /// The MTU of a network card is below 68.
    #[error("a network card has an MTU of 68 or more")]
    BadMtu,
    /// A disk that the host serves has 2^55 sectors or more, or another depth than 1 to 64.
    #[error("a disk has fewer than 2^55 sectors, and 1 to 64 operations in flight")]
    BadDisk,
    /// A disk over the image has no sectors, one that isn't a spare one, or one that another disk has.
    #[error("a disk over the image has one or more spare sectors of its slot, which no other disk has")]
    BadExtent,
    /// There was no memory for it.
    #[error("no memory for the device")]
    NoMemory,
}
