//! A guest's console from the outside: what is typed, its size, and what it puts out.

ghost use Rattle.std.specs.Prelude.{◌≡◌, ◌≢◌, ◌⊎◌};
ghost use Rattle.board_ffi.specs.Calls.{Calls, EventKind, IsMissing, MovesOutput, PausesBehind, Reply, Takes, Tells};

use crate::codes::{BAD_SLOT, DONE, handed, of_done};
use crate::handle::{Handle, session_of};
use crate::pending::tell_waits;
use c_values::Pending;
use session::Told;

/// Types bytes to a guest's console, and tells how many were taken, the first ones, and what then waits.
#[tactic(auto, using(crate::proofs::Telling::tells))]
#[unsafe(no_mangle)]
pub extern "C" fn kalyubos_input(
    board: &mut Handle,
    slot: u8,
    bytes: &[u8],
    took: &mut usize,
    pending: &mut Pending,
) -> u32
    ensures step { Calls board.old.session board.new.session result
        (Takes slot (EventKind.Input bytes.now) result (Reply.Took took.new)) }
    ensures taken { result ≡ 18 → Calls board.old.session board.new.session result
        (PausesBehind slot took.new) }
    ensures refused { (result ≡ 0) ⊎ (result ≡ 1) ⊎ (result ≡ 3) ⊎ (result ≡ 18) ⊎ (result ≡ 19) }
    ensures kept { result ≢ 0 → result ≢ 18 → took.new ≡ took.old }
    ensures pending { Tells slot board.new.session pending.old pending.new }
{
    let session = session_of!(board);
    let Told { answer, waits } = session.input(slot, bytes);
    tell_waits(waits, pending);
    handed(answer, took)
}

/// Gives a guest's console another size, of which its driver is told, and tells what then waits.
#[tactic(auto, using(crate::proofs::Telling::tells))]
#[unsafe(no_mangle)]
pub extern "C" fn kalyubos_resize(
    board: &mut Handle,
    slot: u8,
    cols: u16,
    rows: u16,
    pending: &mut Pending,
) -> u32
    ensures step { Calls board.old.session board.new.session result
        (Takes slot (EventKind.Resize cols rows) result Reply.Done) }
    ensures pending { Tells slot board.new.session pending.old pending.new }
{
    let session = session_of!(board);
    let Told { answer, waits } = session.resize(slot, cols, rows);
    tell_waits(waits, pending);
    of_done(answer)
}

/// Moves out the first bytes of what a guest's console put out, as many as find room, and tells how many
/// they are.
#[unsafe(no_mangle)]
pub extern "C" fn kalyubos_take_output(
    board: &mut Handle,
    slot: u8,
    into: &mut [u8],
    taken: &mut usize,
) -> u32
    ensures moved { result ≡ 0 → Calls board.old.session board.new.session result
        (MovesOutput slot into.old into.new taken.new) }
    ensures missing { result ≢ 0 → Calls board.old.session board.new.session result
        (IsMissing slot result) }
    ensures kept { result ≢ 0 → taken.new ≡ taken.old }
    ensures kept_into { result ≢ 0 → into.new ≡ into.old }
{
    let session = session_of!(board);
    let Some(count) = session.take_output(slot, into) else {
        return BAD_SLOT;
    };
    *taken = count;
    DONE
}
