//! The closing write, and whether the driver is to be notified.

ghost use Rattle.std.specs.Prelude.{◌≡◌, ◌↔◌, ◌*◌, ◌<◌, IsTrue};
ghost use Rattle.suppression.specs.Packed.{PackedWants};
ghost use Rattle.packed_ring.specs.Ring.{LiesIn};
ghost use Rattle.packed_ring.specs.Kind.{first_passed};
ghost use Rattle.shared_memory.specs.Sightings.{Loads, Stores, memory};

use crate::packed::RacingPackedRing;
use packed_ring::reduced;
use shared_memory::Shared;
use suppression::packed_wants_by;

impl RacingPackedRing {
    #[tactic(auto, using(crate::proofs::Lying::packed_lies_stores))]
    /// Stores a device event suppression structure of 0: the driver is to notify of every list (2.8.10).
    pub(crate) fn put_closing<M: Shared>(&self, mem: &mut M)
        requires { LiesIn (memory (M.sightings mem.old)) self.now.setup }
        ensures closing { Stores M.races (M.sightings mem.old) (M.sightings mem.new) self.now.setup.device 4 0 }
        ensures lies { LiesIn (memory (M.sightings mem.new)) self.now.setup }
    {
        mem.store_u32(self.state.setup.device, 0);
    }

    /// Whether the driver wants a notification, by one copy of its event suppression structure (2.8.10).
    pub(crate) fn wants<M: Shared>(&self, mem: &mut M) -> bool
        requires { LiesIn (memory (M.sightings mem.old)) self.now.setup }
        ensures wants { IsTrue result ↔ PackedWants (memory (M.sightings mem.new)) self.now.setup.driver self.now.setup.size self.now.setup.event_idx (first_passed self.now) self.now.used_count }
        ensures loads { Loads M.races (M.sightings mem.old) (M.sightings mem.new) }
    {
        let mut structure = [0; 4];
        mem.load(self.state.setup.driver, &mut structure);
        packed_wants_by(
            &structure,
            self.size(),
            self.state.setup.event_idx,
            self.first_passed(),
            self.state.used_count,
        )
    }

    /// The first of the places passed since the last `open`.
    fn first_passed(&self) -> u16
        ensures value { result ≡ first_passed self.now }
        ensures below { result < 2 * self.now.setup.size }
    {
        let places = 2 * self.size();
        reduced(self.state.place + (places - self.state.used_count), places)
    }
}
