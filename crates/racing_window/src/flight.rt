//! Chains of a queue that stay in flight while it is served further.

use crate::ring::RacingRing;
use racing_service::KeepsFlights;

impl KeepsFlights for RacingRing {
    ghost use Rattle.mmio_window.specs.Queue.{Fits, ahead_of};
    ghost use Rattle.racing_window.specs.Lasting.{queue_lasts};

    ghost Fits = { Fits };

    ghost ahead_of = { ahead_of };

    ghost lasts = { queue_lasts };
}
