//! The device: which sectors it shows, whether they may be written, its identity, its features (5.2.3) and its configuration
//! space (5.2.4).

ghost use Rattle.std.specs.Prelude.{◌≡◌};
ghost use Rattle.negotiation.specs.Features.{feature_bits};
ghost use Rattle.block_device.specs.Config.{block_features, config_of};

use crate::extent::Extent;
use crate::request::SECTOR_LEN;
use crate::segments::{MAX_WRITE_ZEROES_SECTORS, MAX_WRITE_ZEROES_SEG};
use byteorder::{ByteOrder, LittleEndian};
use negotiation::{Features, Flags};

/// How many segments a request may have, next to its header and its status.
const SEG_MAX: u32 = 126;

/// The size of a block, in bytes: a sector is one.
const BLK_SIZE: u32 = SECTOR_LEN as u32;

/// Its queue (5.2.2).
pub const REQUESTQ: u16 = 0;

/// A block device over an extent of an image.
#[derive(Clone, Copy, Debug, PartialEq, Eq)]
pub struct BlockDevice {
    /// The sectors that it shows.
    pub extent: Extent,
    /// Whether it refuses to write (VIRTIO_BLK_F_RO, 5.2.3).
    pub read_only: bool,
    /// What GET_ID gives (5.2.6). A text that is shorter has NULs behind it.
    pub identity: [u8; 20],
}

impl BlockDevice {
    /// A device that shows these sectors.
    pub fn new(extent: Extent, read_only: bool, identity: [u8; 20]) -> BlockDevice
        ensures extent { result.extent ≡ extent }
        ensures read_only { result.read_only ≡ read_only }
        ensures identity { result.identity ≡ identity }
    {
        BlockDevice {
            extent,
            read_only,
            identity,
        }
    }

    /// The features that it offers (5.2.3). One that refuses writes says so.
    pub fn features(&self) -> Features
        ensures { feature_bits result ≡ block_features self.now.read_only }
    {
        let features = Features::of_every_device()
            .union(Features::BLOCK_SEG_MAX)
            .union(Features::BLOCK_BLK_SIZE)
            .union(Features::BLOCK_FLUSH)
            .union(Features::BLOCK_WRITE_ZEROES);
        if self.read_only {
            features.union(Features::BLOCK_RO)
        } else {
            features
        }
    }

    /// The configuration space (5.2.4), little-endian: capacity at 0, seg_max at 12, blk_size at 20,
    /// max_write_zeroes_sectors at 48, max_write_zeroes_seg at 52.
    pub fn config(&self) -> [u8; 64]
        ensures { result ≡ config_of self.now.extent.count }
    {
        let mut config = [0; 64];
        LittleEndian::write_u64(&mut config[..8], self.extent.count);
        LittleEndian::write_u32(&mut config[12..16], SEG_MAX);
        LittleEndian::write_u32(&mut config[20..24], BLK_SIZE);
        LittleEndian::write_u32(&mut config[48..52], MAX_WRITE_ZEROES_SECTORS);
        LittleEndian::write_u32(&mut config[52..56], MAX_WRITE_ZEROES_SEG);
        config
    }
}
