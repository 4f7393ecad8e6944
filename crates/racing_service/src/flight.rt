//! A queue whose chains may stay in flight, and come back in any order.

ghost use Rattle.std.specs.Prelude.{ℕ};
ghost use Rattle.racing_service.specs.Flights.{FlightLaws};

use racing_ring::{RacingPackedRing, RacingQueue, RacingSplitRing};

/// A virtqueue of one guest that is served further while chains are in flight.
pub trait KeepsFlights: RacingQueue {
    // the queue may have the chain that the token names
    ghost Fits: { Self → Self.Token → Type 0 };

    // how many places further the next chain is: those of the chains in flight
    ghost ahead_of: { Self → ℕ };

    // what moves the chains in flight, and what leaves them
    ghost lasts: { FlightLaws Self.kind Self.entry_of Self.IsAhead Fits ahead_of };
}

impl KeepsFlights for RacingSplitRing {
    ghost use Rattle.racing_service.specs.Lasting.{SplitFits, places_ahead, split_lasts};

    ghost Fits = { SplitFits };

    ghost ahead_of = { places_ahead };

    ghost lasts = { split_lasts };
}

impl KeepsFlights for RacingPackedRing {
    ghost use Rattle.racing_service.specs.Lasting.{PackedFits, packed_lasts, places_ahead};

    ghost Fits = { PackedFits };

    ghost ahead_of = { places_ahead };

    ghost lasts = { packed_lasts };
}
