//! What a window keeps, as plain numbers: as it is saved from one window, and restored to another.

use crate::interrupts::Interrupts;

/// How far a ready queue is served.
#[derive(Clone, Copy, Debug, PartialEq, Eq)]
pub struct Reached {
    /// The place of its next used entry.
    pub place: u16,
    /// How much its service may still take, where one is paused.
    pub pending: u16,
    /// How much its service has used, where one is paused.
    pub used_count: u16,
    /// How many places are in flight.
    pub ahead: u16,
}

/// The registers of one queue, and how far it is served while it is ready.
#[derive(Clone, Copy, Debug, PartialEq, Eq)]
pub struct SavedQueue {
    /// QueueNum.
    pub number: u32,
    /// QueueDesc, both words.
    pub descriptor_area: u64,
    /// QueueDriver, both words.
    pub driver_area: u64,
    /// QueueDevice, both words.
    pub device_area: u64,
    /// None where the queue isn't ready.
    pub reached: Option<Reached>,
}

/// What device and driver have settled.
#[derive(Clone, Copy, Debug, PartialEq, Eq)]
pub struct SavedNegotiation {
    /// The bits of the features that the device offers.
    pub offered: u64,
    /// Status.
    pub status: u8,
    /// The bits of the features that the driver accepts.
    pub accepted: u64,
}

/// The registers by which a driver selects what others show.
#[derive(Clone, Copy, Debug, PartialEq, Eq)]
pub struct SavedSelectors {
    /// DeviceFeaturesSel.
    pub device_features: u32,
    /// DriverFeaturesSel.
    pub driver_features: u32,
    /// QueueSel.
    pub queue: u32,
    /// SHMSel.
    pub shm: u32,
}

/// All that a window keeps beside the kind of its device.
#[derive(Clone, Copy, Debug, PartialEq, Eq)]
pub struct SavedWindow {
    /// Status and features.
    pub negotiation: SavedNegotiation,
    /// The selectors.
    pub selectors: SavedSelectors,
    /// The registers of queue 0.
    pub queue_0: SavedQueue,
    /// The registers of queue 1.
    pub queue_1: SavedQueue,
    /// InterruptStatus.
    pub interrupts: Interrupts,
    /// ConfigGeneration.
    pub config_generation: u32,
}
