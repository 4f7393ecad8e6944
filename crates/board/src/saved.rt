//! Why a slot isn't saved, or doesn't take up a snapshot.

use snapshot::SnapshotFault;
use thiserror::Error;

/// Why a slot isn't restored. It is then as it was.
#[derive(Clone, Copy, Debug, Error, PartialEq, Eq)]
pub enum RestoreFault {
    /// The bytes are no snapshot.
    #[error("{0}")]
    Snapshot(SnapshotFault),
    /// The slot has another memory range or another disk, or its block device or its console offers other features.
    #[error("the slot has another memory, another disk or other features")]
    OtherSlot,
    /// The slot has more or fewer further devices than the snapshot, or one of another type, address, MTU or of other
    /// features.
    #[error("the snapshot has other devices")]
    BadDevice,
    /// The block device's window can't be so: its status or its features can't stand so, its queue can't be ready, or
    /// ConfigGeneration isn't 0.
    #[error("the block device's window can't be so")]
    BadBlock,
    /// The console's window can't be so.
    #[error("the console's window can't be so")]
    BadConsole,
    /// A further device's window can't be so.
    #[error("a further device's window can't be so")]
    BadDeviceWindow,
    /// What waits in a further device can't be so: it is spelled otherwise, or is more than the device holds.
    #[error("what waits in a further device can't be so")]
    BadWaiting,
}

/// Why a slot takes up no snapshot. Nothing has changed.
#[derive(Clone, Copy, Debug, Error, PartialEq, Eq)]
pub enum RestoreRefusal {
    /// The board has no such slot.
    #[error("the board has no such slot")]
    BadSlot,
    /// A service of the slot is paused, or an operation of one of its disks is in flight.
    #[error("a service of the slot is paused, or one of its disks is at work")]
    Busy,
    /// The slot doesn't take up these bytes.
    #[error("{0}")]
    Fault(RestoreFault),
}

/// Why a slot isn't saved. Nothing is written.
#[derive(Clone, Copy, Debug, Error, PartialEq, Eq)]
pub enum SaveRefusal {
    /// The board has no such slot.
    #[error("the board has no such slot")]
    BadSlot,
    /// A service of the slot is paused, or an operation of one of its disks is in flight.
    #[error("a service of the slot is paused, or one of its disks is at work")]
    Busy,
    /// The snapshot doesn't fit into the buffer.
    #[error("the buffer is shorter than the snapshot")]
    ShortBuffer,
}
