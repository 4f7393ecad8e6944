//! How a virtqueue is set up, and which memories its areas lie in.

ghost use Rattle.std.specs.Prelude.{◌≡◌, ◌<◌, ◌↔◌, IsTrue};

use guest_memory::Ranged;

/// How a virtqueue is set up: by its driver, and by what was negotiated.
#[derive(Clone, Copy, Debug, PartialEq, Eq)]
pub struct Setup {
    /// How many descriptors it has.
    pub size: u32,
    /// The address of the descriptor area (2.6).
    pub desc: u64,
    /// The address of the driver area.
    pub driver: u64,
    /// The address of the device area.
    pub device: u64,
    /// Whether VIRTIO_F_INDIRECT_DESC was negotiated.
    pub indirect: bool,
    /// Whether VIRTIO_F_EVENT_IDX was negotiated.
    pub event_idx: bool,
}

/// What a layout asks of the areas of a virtqueue: how many bytes each has, and the alignment of the driver area. The
/// descriptor area is always aligned to 16 bytes, and the device area to 4.
#[derive(Clone, Copy, Debug, PartialEq, Eq)]
pub struct Areas {
    /// The bytes of the descriptor area.
    pub desc: u64,
    /// The bytes of the driver area.
    pub driver: u64,
    /// The bytes of the device area.
    pub device: u64,
    /// What the driver area's address is a multiple of.
    pub driver_alignment: u64,
}

impl Setup {
    ghost use Rattle.chain.specs.Setup.{FitsIn, IsAligned, LiesIn, fits_in, is_aligned, lies_in};

    /// Whether the areas are aligned and lie in this memory.
    pub fn fits_in<M: Ranged>(&self, mem: &M, areas: Areas) -> bool
        requires { 0 < areas.driver_alignment }
        ensures test { result ≡ fits_in (M.ranged mem.now) self.now areas }
        ensures fits { IsTrue result ↔ FitsIn (M.ranged mem.now) self.now areas }
    {
        self.is_aligned(areas) && self.lies_in(mem, areas)
    }

    // Whether each area begins at a multiple of its alignment.
    fn is_aligned(&self, areas: Areas) -> bool
        requires { 0 < areas.driver_alignment }
        ensures test { result ≡ is_aligned self.now areas }
        ensures aligned { IsTrue result ↔ IsAligned self.now areas }
    {
        self.desc % 16 == 0 && self.driver % areas.driver_alignment == 0 && self.device % 4 == 0
    }

    /// Whether the areas lie in this memory.
    pub fn lies_in<M: Ranged>(&self, mem: &M, areas: Areas) -> bool
        ensures test { result ≡ lies_in (M.ranged mem.now) self.now areas }
        ensures lies { IsTrue result ↔ LiesIn (M.ranged mem.now) self.now areas }
    {
        mem.holds(self.desc, areas.desc)
            && mem.holds(self.driver, areas.driver)
            && mem.holds(self.device, areas.device)
    }
}
