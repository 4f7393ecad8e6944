//! What a call tells: what it is answered, and what then waits.

use crate::progress::{Progress, Refusal};

/// What waits for the guest and for its host once a call is answered.
#[derive(Clone, Copy, Debug, PartialEq, Eq)]
pub struct Waits {
    /// InterruptStatus of the block window (4.2.2).
    pub block_irq: u8,
    /// InterruptStatus of the console window.
    pub console_irq: u8,
    /// How many bytes of the console's output wait to be taken.
    pub output: usize,
}

/// What a call is answered, and what then waits.
#[derive(Clone, Copy, Debug, PartialEq, Eq)]
pub struct Told {
    pub answer: Result<Progress, Refusal>,
    pub waits: Waits,
}

/// What typing is answered, which is never refused.
#[derive(Clone, Copy, Debug, PartialEq, Eq)]
pub struct Typed {
    /// How many bytes were taken: the first ones.
    pub taken: usize,
    pub progress: Progress,
    pub waits: Waits,
}

/// What waits for a further device's driver and for its host.
#[derive(Clone, Copy, Debug, PartialEq, Eq)]
pub struct DeviceWaits {
    /// InterruptStatus of its window (4.2.2).
    pub irq: u8,
    /// How many bytes the host takes now of what the driver sent, where something waits: the oldest frame, or all output.
    pub sent: Option<usize>,
}

/// What became of bytes that were handed to a further device, or over to its host.
#[derive(Clone, Copy, Debug, PartialEq, Eq)]
pub struct Handed {
    /// How many were taken: the first ones. A frame is taken whole, or none of it is, and what a driver sent is.
    pub taken: usize,
    pub progress: Progress,
}
