//! How far a queue is served: told, and taken up again by a queue that was made anew.

ghost use Rattle.std.specs.Prelude.{◌≡◌, Some};
ghost use Rattle.mmio_window.specs.Queue.{made_as};
ghost use Rattle.mmio_window.specs.Saved.{reached_of, served_to};

use crate::queue::Queue;
use crate::saved::Reached;
use chain::RingState;

impl Queue {
    /// How far it is served.
    pub(crate) fn reached(&self) -> Reached
        ensures value { result ≡ reached_of self.now }
        ensures back { served_to result (made_as self.now) ≡ Some self.now }
    {
        match self {
            Queue::Split(ring) => reached_of(ring.state()),
            Queue::Packed(ring) => reached_of(ring.state()),
        }
    }

    /// The queue, served so far. There is none where no service comes so far.
    pub(crate) fn served_to(self, reached: Reached) -> Option<Queue>
        ensures { result ≡ served_to reached self }
    {
        let Reached {
            place,
            pending,
            used_count,
            ahead,
        } = reached;
        match self {
            Queue::Split(ring) => ring
                .served_to(place, pending, used_count, ahead)
                .map(Queue::Split),
            Queue::Packed(ring) => ring
                .served_to(place, pending, used_count, ahead)
                .map(Queue::Packed),
        }
    }
}

/// How far a ring is served in this state.
fn reached_of(state: RingState) -> Reached
    ensures { result ≡ record { place = state.place; pending = state.pending; used_count = state.used_count; ahead = state.ahead } }
{
    Reached {
        place: state.place,
        pending: state.pending,
        used_count: state.used_count,
        ahead: state.ahead,
    }
}
