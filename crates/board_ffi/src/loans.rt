//! Whether the host lends a run of bytes for each region.

ghost use Rattle.std.specs.Prelude.{◌≡◌, ◌↔◌, length, map, take, IsTrue};
ghost use Rattle.board_ffi.specs.Config.{AreLent, guests_of, region_lens, told_lens};

use crate::config::ToldLoan;
use c_values::{Slot, regions};
use guest_memory::RegionSpec;

/// Whether there are no loans, or one for each region of the slots, in their order and as long as it is.
pub(crate) fn are_lent(slots: &[Slot], loans: &[ToldLoan]) -> bool
    ensures { IsTrue result ↔ AreLent (guests_of slots.now) (told_lens loans.now) }
{
    loans.is_empty() || are_loans_of(slots, loans)
}

// Whether there is a loan for each region.
fn are_loans_of(slots: &[Slot], loans: &[ToldLoan]) -> bool
    ensures { IsTrue result ↔ (told_lens loans.now ≡ region_lens (guests_of slots.now)) }
{
    let mut next = 0;
    for slot in slots {
        let regions = regions(&slot.regions);
        let regions = regions.as_slice();
        if !begin_as_long(regions, &loans[next..]) {
            return false;
        }
        next += regions.len();
    }
    next == loans.len()
}

// Whether the first loans are as long as these regions.
fn begin_as_long(regions: &[RegionSpec], loans: &[ToldLoan]) -> bool
    ensures { IsTrue result ↔
        (told_lens (take (length regions.now) loans.now) ≡ map (λ region. region.len) regions.now) }
{
    if loans.len() < regions.len() {
        return false;
    }
    for place in 0..regions.len() {
        if loans[place].len as u64 != regions[place].len {
            return false;
        }
    }
    true
}
