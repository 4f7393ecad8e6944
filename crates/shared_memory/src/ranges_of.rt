//! The ranges of a shared memory.

ghost use Rattle.std.specs.Prelude.{◌≡◌};

use crate::memory::Shared;
use guest_memory::Ranged;

/// A shared memory as whoever asks of its ranges alone sees it, as a window or a ring that is made. The guest's writes leave
/// them.
#[derive(Drop)]
pub struct RangesOf<'m, M>(pub &'m M);

impl<'m, M: Shared> Ranged for RangesOf<'m, M> {
    ghost use Rattle.shared_memory.specs.Sightings.{memory};

    ghost ranged = { λ ranges. memory (M.sightings ranges.0.now) };

    fn holds(&self, addr: u64, n: u64) -> bool {
        self.0.holds(addr, n)
    }
}
