//! What a session is made of.

ghost use Rattle.std.specs.Prelude.{◌↔◌, IsTrue};
ghost use Rattle.racing_session.specs.Judging.{HasDepth, HasOutlet, HasSectors, HasLimits};

use guest_memory::Regions;
use racing_guest::GuestSpec;
use racing_hosted_disk::LookLimits;

/// How many bytes of the console's output may wait at most.
const MOST_WAITING: u32 = 0x100_0000;

/// How many operations of a disk may be in flight at most.
const MOST_DEPTH: u8 = 64;

/// A disk has fewer sectors than so many.
const SECTORS: u64 = 1 << 55;

/// What a guest is to have, and how much one call serves.
#[derive(Clone, Copy)]
pub struct RacingSpec {
    /// The regions of its memory.
    pub regions: Regions,
    /// Its devices.
    pub guest: GuestSpec,
    /// How many bytes of its console's output may wait to be taken, 2^24 at most. A longer chain is never put out.
    pub outlet: u32,
    /// How much one service of a queue may do. What is left then is due, and `go_on` serves it.
    pub limits: LookLimits,
}

impl RacingSpec {
    /// Whether the output has no more room than it may have.
    pub(crate) fn has_outlet(&self) -> bool
        ensures { IsTrue result ↔ HasOutlet self.now }
    {
        self.outlet <= MOST_WAITING
    }

    /// Whether each service comes to an end within so many calls.
    pub(crate) fn has_limits(&self) -> bool
        ensures { IsTrue result ↔ HasLimits self.now.limits }
    {
        !self.limits.budget.is_spent() && self.limits.rounds >= 2 && self.limits.looks >= 1
    }

    /// Whether there is an operation that may be in flight, and a tag for each.
    pub(crate) fn has_depth(&self) -> bool
        ensures { IsTrue result ↔ HasDepth self.now.guest }
    {
        self.guest.depth >= 1 && self.guest.depth <= MOST_DEPTH
    }

    /// Whether the disk's bytes are counted in 64 bits.
    pub(crate) fn has_sectors(&self) -> bool
        ensures { IsTrue result ↔ HasSectors self.now.guest }
    {
        self.guest.sectors < SECTORS
    }
}
