//! What a guest is made of, as C describes it.

ghost use Rattle.std.specs.Prelude.{◌≡◌};
ghost use Rattle.racing_session.specs.Judging.{HasLimits};
ghost use Rattle.racing_ffi.specs.Config.{judged, limits_of, spec_of};

use crate::codes::BAD_SIZE;
use crate::slot::{judged, spec};
use c_values::{Slot, budget};
use guest_bytes::WordLoan;
use racing_session::{LookLimits, RacingSpec};

/// How many bytes a config of this version has.
const CONFIG_SIZE: usize = size_of::<GuestConfig>();

/// How many rounds a service has at most: each but the first one is of chains that its driver put on offer meanwhile.
const ROUNDS: u32 = 16;

/// How often a call looks at the disk's queue: as often as all 64 operations begin, and then once more.
const LOOKS: u32 = 65;

/// A guest that runs on, as C describes it.
#[derive(Drop)]
#[repr(C)]
pub struct GuestConfig<'a> {
    /// How many bytes the host's config has: later versions have more.
    pub size: usize,
    /// The guest.
    pub slot: &'a Slot,
    /// The words of each of its regions, which the host lends.
    pub words: &'a mut [WordLoan],
    /// How many chains a service of a queue serves; 0 is no limit.
    pub chains: u32,
    /// After how many bytes of its chains a service begins no further one; 0 is no limit.
    pub bytes: u64,
}

impl GuestConfig<'_> {
    /// The number that says what is wrong with it, before its guest is judged; 0 where nothing is.
    pub(crate) fn judged(&self) -> u32
        ensures { result ≡ judged self.now }
    {
        if self.size != CONFIG_SIZE {
            return BAD_SIZE;
        }
        judged(self.slot)
    }

    /// The guest.
    pub(crate) fn spec(&self) -> RacingSpec
        ensures spec { result ≡ spec_of self.now }
        ensures lasts { HasLimits result.limits }
    {
        spec(self.slot, self.limits())
    }

    // How much one service may do.
    fn limits(&self) -> LookLimits
        ensures limits { result ≡ limits_of self.now }
        ensures lasts { HasLimits result }
    {
        LookLimits {
            budget: budget(self.chains, self.bytes),
            rounds: ROUNDS,
            looks: LOOKS,
        }
    }
}
