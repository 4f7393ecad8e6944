//! A board, as C describes it.

ghost use Rattle.std.specs.Prelude.{◌≡◌, ◌≢◌, ◌↔◌, [], IsTrue};
ghost use Rattle.chain.specs.Budget.{IsSpent};
ghost use Rattle.board_ffi.specs.Config.{AreSized, budget_of, config_size};

use crate::slot::are_sized;
use c_values::{Slot, budget};
use guest_bytes::Loan;
use session::Budget;

/// How many bytes a config of this version has.
const CONFIG_SIZE: usize = size_of::<Config>();

/// A board, as C describes it.
#[derive(Drop)]
#[repr(C)]
pub struct Config<'a> {
    /// How many bytes the host's config has: later versions have more.
    pub size: usize,
    /// Its guests.
    pub slots: &'a [Slot],
    /// The bytes of each region that the host lends, slot by slot; of none the library makes the memory.
    pub loans: &'a mut [Loan],
    /// The image's bytes.
    pub image: &'a [u8],
    /// How many sectors the cache keeps at most.
    pub cache: u32,
    /// How many chains one call serves; 0 is no limit.
    pub chains: u32,
    /// After how many bytes of its chains a call begins no further one; 0 is no limit.
    pub bytes: u64,
}

/// A config as it is judged: the same fields, of which the loans are told, and not owned.
#[derive(Clone, Copy)]
#[repr(C)]
pub struct ToldConfig<'a> {
    /// How many bytes the host's config has.
    pub size: usize,
    /// Its guests.
    pub slots: &'a [Slot],
    /// Its loans.
    pub loans: &'a [ToldLoan],
    /// The image's bytes.
    pub image: &'a [u8],
    /// How many sectors the cache keeps at most.
    pub cache: u32,
    /// How many chains one call serves.
    pub chains: u32,
    /// After how many bytes of its chains a call begins no further one.
    pub bytes: u64,
}

/// A loan as it is told: nothing says whose its bytes are.
#[derive(Clone, Copy)]
#[repr(C)]
pub struct ToldLoan {
    /// Where its first byte lies.
    pub bytes: *const u8,
    /// How many bytes it has.
    pub len: usize,
}

impl Config<'_> {
    /// Whether the host lends the guests' memories.
    pub(crate) fn is_lent(&self) -> bool
        ensures { IsTrue result ↔ (self.now.loans.now ≢ []) }
    {
        !self.loans.is_empty()
    }

    /// How much one call may serve.
    pub(crate) fn budget(&self) -> Budget
        ensures value { result ≡ budget_of self.now }
        ensures lasts { ¬ IsSpent result }
    {
        budget(self.chains, self.bytes)
    }
}

/// Whether a config says that it has the size of this version.
pub(crate) fn has_own_size(size: usize) -> bool
    ensures { IsTrue result ↔ (size ≡ config_size) }
{
    size == CONFIG_SIZE
}

/// Whether a config and each slot have the size of this version. Nothing behind the first that hasn't is read.
pub(crate) fn is_sized(size: usize, slots: &[Slot]) -> bool
    ensures { IsTrue result ↔ ((size ≡ config_size) × AreSized slots.now) }
{
    has_own_size(size) && are_sized(slots)
}
