//! What a board is made of.

use block_device::Extent;
use guest_memory::Regions;

/// Who has the bytes of a slot's disk.
#[derive(Clone, Copy, Debug, PartialEq, Eq)]
pub enum Backing {
    /// The board's image, in the slot's extent.
    Image,
    /// The host, which serves a disk of its own for the slot.
    Host {
        /// How many operations of it may be in flight, from 1 to 64.
        depth: u8,
    },
}

/// What a slot is to be.
#[derive(Clone, Copy, Debug, PartialEq, Eq)]
pub struct SlotSpec {
    /// The regions of the guest's memory.
    pub regions: Regions,
    /// The sectors that the guest's block device shows: those of the image, or as many of a disk that the host serves.
    pub extent: Extent,
    /// How many sectors of the image behind them the slot has beside, for its further disks. Of a slot whose disk the host
    /// serves it isn't read.
    pub spare: u64,
    /// Who has their bytes.
    pub backing: Backing,
    /// Whether the block device refuses writes (VIRTIO_BLK_F_RO, 5.2.3).
    pub read_only: bool,
    /// The columns of the console (5.3.4).
    pub cols: u16,
    /// The rows of the console.
    pub rows: u16,
    /// What the block device answers to GET_ID (5.2.6). A text that is shorter has NULs behind it.
    pub identity: [u8; 20],
}
