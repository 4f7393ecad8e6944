//! A ring as it is made, and the memories that it lies in.

ghost use Rattle.std.specs.Prelude.{◌≡◌, ◌↔◌, IsTrue, IsSome, IfSome};
ghost use Rattle.chain.specs.Setup.{IsUsable, new_ring};
ghost use Rattle.packed_ring.specs.Ring.{IsQueueSize, LiesIn, areas_of};
ghost use Rattle.shared_memory.specs.Sightings.{memory};

use crate::packed::RacingPackedRing;
use chain::Setup;
use packed_ring::PackedRing;
use shared_memory::{RangesOf, Shared};

impl RacingPackedRing {
    /// A ring before its first service. There is none where its size is no queue size, or an area isn't aligned or isn't
    /// inside the memory (2.8).
    pub fn new<M: Shared>(mem: &M, setup: Setup) -> Option<RacingPackedRing>
        ensures usable { IsSome result ↔ IsUsable IsQueueSize areas_of (memory (M.sightings mem.now)) setup }
        ensures made { IfSome result (λ ring. ring ≡ new_ring setup) }
    {
        let ring = PackedRing::new(&RangesOf(mem), setup)?;
        Some(RacingPackedRing::of(ring.state()))
    }

    /// Whether the areas lie in this memory, as each call of a service wants.
    pub fn lies_in<M: Shared>(&self, mem: &M) -> bool
        ensures { IsTrue result ↔ LiesIn (memory (M.sightings mem.now)) self.now.setup }
    {
        PackedRing::of(self.state).lies_in(&RangesOf(mem))
    }
}
