//! The device.

use block_device::BlockDevice;

/// A block device whose guest may write its memory during each call.
#[derive(Clone, Copy)]
pub struct RacingDisk {
    /// The device as it is for a guest that stands still.
    pub device: BlockDevice,
}
