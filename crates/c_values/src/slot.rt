//! A guest, as C describes it.

ghost use Rattle.std.specs.Prelude.{◌≡◌};
ghost use Rattle.c_values.specs.Slot.{depth_of};

use guest_memory::{MOST_REGIONS, RegionSpec};

/// How many further devices a slot has at most.
pub const MOST_DEVICES: usize = 6;

/// The type of no device (VIRTIO 1.2, 5).
pub const NO_DEVICE: u32 = 0;

/// How many bytes a slot of this version has.
pub const SLOT_SIZE: usize = size_of::<Slot>();

/// A further device, as C describes it.
#[derive(Clone, Copy)]
#[repr(C)]
pub struct Device {
    /// Its type: the standard's number, or 0 where there is none.
    pub kind: u32,
    /// The longest payload of a network card's frame.
    pub mtu: u16,
    /// The address of a network card.
    pub mac: [u8; 6],
    /// How many operations of a disk may be in flight at once; 0 is 1.
    pub depth: u32,
    /// How many sectors a disk has.
    pub sectors: u64,
    /// Where the sectors of a disk over the image begin, among the slot's spare ones.
    pub start: u64,
    /// What it answers to GET_ID.
    pub identity: [u8; 20],
    /// Whether it refuses writes.
    pub read_only: bool,
    /// The columns of a console.
    pub cols: u16,
    /// And its rows.
    pub rows: u16,
}

/// A slot, as C describes it.
#[derive(Clone, Copy)]
#[repr(C)]
pub struct Slot {
    /// How many bytes the host's slot has: later versions have more.
    pub size: usize,
    /// The regions of its memory: the first that has no bytes, and those behind it, are none.
    pub regions: [RegionSpec; MOST_REGIONS],
    /// Where its extent begins. Nothing is read of it where the host serves the disk.
    pub start: u64,
    /// How many sectors its disk has.
    pub count: u64,
    /// How many sectors of the image behind them it has beside, for its further disks. Nothing is read of it where the host serves the
    /// disk.
    pub spare: u64,
    pub cols: u16,
    pub rows: u16,
    /// How many bytes of its console's output may wait to be taken.
    pub outlet: u32,
    pub read_only: bool,
    /// Whether the host serves its disk; else it is of the image.
    pub hosted: bool,
    /// Whether the guest's CPUs run on while it is served: it has a handle of its own, and is on no board.
    pub runs: bool,
    pub identity: [u8; 20],
    /// How many operations of its disk may be in flight at once, where the host serves it; 0 is 1.
    pub depth: u32,
    /// Its further devices: the first of no type, and those behind it, are none.
    pub devices: [Device; MOST_DEVICES],
}

/// How many operations of a disk may be in flight. A depth that is too large stays so.
pub fn depth(depth: u32) -> u8
    ensures { result ≡ depth_of depth }
{
    depth.clamp(1, 255) as u8
}
