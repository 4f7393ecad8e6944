//! A ring as it is made, and the memories that it lies in.

ghost use Rattle.std.specs.Prelude.{◌≡◌, ◌↔◌, IsTrue, IsSome, IfSome};
ghost use Rattle.chain.specs.Setup.{IsUsable, new_ring};
ghost use Rattle.split_ring.specs.Ring.{IsQueueSize, LiesIn, areas_of};
ghost use Rattle.shared_memory.specs.Sightings.{memory};

use crate::split::RacingSplitRing;
use chain::Setup;
use shared_memory::{RangesOf, Shared};
use split_ring::SplitRing;

impl RacingSplitRing {
    /// A ring before its first service. There is none where its size is no queue size, or an area isn't aligned or isn't
    /// inside the memory (2.7).
    pub fn new<M: Shared>(mem: &M, setup: Setup) -> Option<RacingSplitRing>
        ensures usable { IsSome result ↔ IsUsable IsQueueSize areas_of (memory (M.sightings mem.now)) setup }
        ensures made { IfSome result (λ ring. ring ≡ new_ring setup) }
    {
        let ring = SplitRing::new(&RangesOf(mem), setup)?;
        Some(RacingSplitRing::of(ring.state()))
    }

    /// Whether the areas lie in this memory, as each call of a service wants.
    pub fn lies_in<M: Shared>(&self, mem: &M) -> bool
        ensures { IsTrue result ↔ LiesIn (memory (M.sightings mem.now)) self.now.setup }
    {
        SplitRing::of(self.state).lies_in(&RangesOf(mem))
    }
}
