//! What a guest's devices did since its board was made, for C.

ghost use Rattle.std.specs.Prelude.{◌≡◌, ◌≢◌};
ghost use Rattle.board_ffi.specs.Calls.{Calls, IsMissing, IsThere};

use crate::codes::{BAD_SLOT, DONE};
use crate::handle::{Handle, session_of};
use session::Counters;

/// Tells what a guest's devices did.
#[unsafe(no_mangle)]
pub extern "C" fn kalyubos_counters(board: &mut Handle, slot: u8, counters: &mut Counters) -> u32
    ensures told { result ≡ 0 → Calls board.old.session board.new.session result
        (IsThere slot) }
    ensures missing { result ≢ 0 → Calls board.old.session board.new.session result
        (IsMissing slot result) }
    ensures kept { result ≢ 0 → counters.new ≡ counters.old }
{
    let session = session_of!(board);
    let Some(counted) = session.counters(slot) else {
        return BAD_SLOT;
    };
    *counters = counted;
    DONE
}
