//! What a device doesn't take, and why.

use network_device::FrameRefusal;
use thiserror::Error;

/// A write to a device's window isn't done.
#[derive(Clone, Copy, Debug, Error, PartialEq, Eq)]
pub enum WriteRefusal {
    /// There is no such device.
    #[error("no device there")]
    NoDevice,
    /// It may stop the queue of a disk, and waits for what is in flight.
    #[error("the disk is at work")]
    Busy,
}

/// A frame that the host handed in doesn't wait.
#[derive(Clone, Copy, Debug, Error, PartialEq, Eq)]
pub enum ReceiveRefusal {
    /// There is no such device, or it is no network card.
    #[error("no network card there")]
    NoDevice,
    /// The network card refuses it.
    #[error(transparent)]
    Frame(FrameRefusal),
}
