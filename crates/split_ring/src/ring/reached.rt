//! A ring that takes up where another of its setup stood.

ghost use Rattle.std.specs.Prelude.{◌≡◌};
ghost use Rattle.split_ring.specs.Reached.{served_to};

use crate::ring::SplitRing;

impl SplitRing {
    /// The ring, served so far: at this place, with so many chains that its service may still take, so many that it has
    /// used, and so many in flight. There is none where those are more than the queue has descriptors.
    pub fn served_to(
        self,
        place: u16,
        pending: u16,
        used_count: u16,
        ahead: u16,
    ) -> Option<SplitRing>
        ensures { result ≡ served_to place pending used_count ahead self }
    {
        let passed = u32::from(used_count) + u32::from(pending);
        if passed + u32::from(ahead) > self.state.setup.size {
            return None;
        }
        Some(SplitRing {
            state: self.state.served_so_far(place, pending, used_count, ahead),
        })
    }
}
