//! A ring that takes up where another of its setup stood.

ghost use Rattle.std.specs.Prelude.{◌≡◌};
ghost use Rattle.packed_ring.specs.Reached.{served_to};

use crate::ring::PackedRing;

impl PackedRing {
    /// The ring, served so far: at this place, with so many places left until its service ends, and so many that it
    /// has passed. There is none where no service comes so far.
    pub fn served_to(
        self,
        place: u16,
        pending: u16,
        used_count: u16,
        ahead: u16,
    ) -> Option<PackedRing>
        ensures { result ≡ served_to place pending used_count ahead self }
    {
        let size = self.state.setup.size;
        let passed = u32::from(used_count) + u32::from(ahead);
        if u32::from(place) >= 2 * size || passed >= 2 * size {
            return None;
        }
        if pending > 0 && passed + u32::from(pending) > size {
            return None;
        }
        Some(PackedRing {
            state: self.state.served_so_far(place, pending, used_count, ahead),
        })
    }
}
