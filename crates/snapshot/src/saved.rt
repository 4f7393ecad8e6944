//! What a slot keeps, as plain numbers.

use arrayvec::ArrayVec;
use mmio_window::{Interrupts, SavedNegotiation, SavedQueue, SavedSelectors, SavedWindow};

/// The most further devices that a snapshot has.
pub const MOST_DEVICES: usize = 6;

/// What a slot keeps of a further device: its window, and by which device it is restored.
#[derive(Clone, Copy, Debug, PartialEq, Eq)]
pub struct SavedDevice {
    /// The type of device, as DeviceID shows it (4.2.2).
    pub device_id: u32,
    /// The address of a network card (5.1.4), and zeros of another device.
    pub mac: [u8; 6],
    /// The longest payload of a network card's frame (5.1.4), and 0 of another device.
    pub mtu: u16,
    /// How many sectors a disk has, and 0 of another device.
    pub sectors: u64,
    /// What a disk answers to GET_ID (5.2.6), and zeros of another device.
    pub identity: [u8; 20],
    /// The device's window.
    pub window: SavedWindow,
}

impl Default for SavedDevice {
    fn default() -> Self {
        let queue = SavedQueue {
            number: 0,
            descriptor_area: 0,
            driver_area: 0,
            device_area: 0,
            reached: None,
        };
        SavedDevice {
            device_id: 0,
            mac: [0; 6],
            mtu: 0,
            sectors: 0,
            identity: [0; 20],
            window: SavedWindow {
                negotiation: SavedNegotiation {
                    offered: 0,
                    status: 0,
                    accepted: 0,
                },
                selectors: SavedSelectors {
                    device_features: 0,
                    driver_features: 0,
                    queue: 0,
                    shm: 0,
                },
                queue_0: queue,
                queue_1: queue,
                interrupts: Interrupts {
                    used_buffer: false,
                    configuration_change: false,
                },
                config_generation: 0,
            },
        }
    }
}

/// All that a slot keeps of its devices beside the pending input, and the description of the slot that it belongs to.
#[derive(Clone, Debug, Drop, PartialEq, Eq)]
pub struct SavedSlot {
    /// The first address of the guest's memory.
    pub base: u64,
    /// How many bytes the memory has.
    pub len: u64,
    /// How many sectors the disk has.
    pub sectors: u64,
    /// Whether the disk refuses writes.
    pub read_only: bool,
    /// What the block device answers to GET_ID.
    pub identity: [u8; 20],
    /// The block device's window.
    pub block: SavedWindow,
    /// The console's window.
    pub console: SavedWindow,
    /// The console's columns.
    pub cols: u16,
    /// The console's rows.
    pub rows: u16,
    /// Whether no further chain of the block queue is taken until the host says so.
    pub on_hold: bool,
    /// The further devices, in the order of their numbers.
    pub devices: ArrayVec<SavedDevice, MOST_DEVICES>,
}
