//! Other memory for a guest, while its devices go on.

ghost use Rattle.std.specs.Prelude.{◌≡◌, ◌≢◌, false};
ghost use Rattle.racing_session.specs.Memory.{is_busy};
ghost use Rattle.racing_ffi.specs.Calls.{Calls};
ghost use Rattle.racing_ffi.specs.Memory.{MovesMemory, TakesLent};

use crate::codes::{BAD_LOAN, BUSY, DONE, NO_MEMORY, of_kept};
use crate::handle::{GuestHandle, session_of};
use c_values::taken;
use guest_bytes::WordLoan;
use racing_session::{RacingSession, RegionSpec, Regions};
use std::alloc::Global;

/// Gives a guest these regions over the words that its host lends, in the place of its memory. Each loan of words is taken, and an
/// empty one left.
#[unsafe(no_mangle)]
pub extern "C" fn kalyubos_guest_set_memory(
    alloc: Global,
    guest: &mut GuestHandle,
    regions: &[RegionSpec],
    words: &mut [WordLoan],
) -> u32
    ensures moves { Calls guest.old.session guest.new.session result (MovesMemory regions.now words.old result) }
    ensures words { TakesLent words.old words.new result }
{
    let session = session_of!(guest);
    if session.is_busy() {
        return BUSY;
    }
    let Some(regions) = Regions::new(regions) else {
        return BAD_LOAN;
    };
    set_memory(alloc, session, regions, words)
}

// Gives a guest that isn't busy this memory, and answers the number of what that came to.
fn set_memory(
    alloc: Global,
    session: &mut RacingSession,
    regions: Regions,
    words: &mut [WordLoan],
) -> u32
    requires rests { is_busy session.old ≡ false }
    ensures moves { MovesMemory regions words.old result session.old session.new }
    ensures words { TakesLent words.old words.new result }
{
    let Ok(words) = taken(alloc, words) else {
        return NO_MEMORY;
    };
    match session.set_memory(regions, words) {
        Ok(()) => DONE,
        Err(why) => of_kept(why),
    }
}
