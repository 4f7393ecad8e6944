//! A guest's devices, saved to a snapshot and brought back from one. Nothing here takes memory.

ghost use Rattle.std.specs.Prelude.{◌≡◌, ◌≢◌};
ghost use Rattle.board_ffi.specs.Calls.{Calls, HasSavedLen, Restores, Saves, Tells};

use crate::codes::{of_restored, of_saved};
use crate::handle::{Handle, session_of};
use crate::pending::tell;
use c_values::Pending;
use session::Session;

/// Tells how many bytes the snapshot of a guest has.
#[unsafe(no_mangle)]
pub extern "C" fn kalyubos_saved_len(board: &mut Handle, slot: u8, len: &mut usize) -> u32
    ensures told { Calls board.old.session board.new.session result (HasSavedLen slot result len.new) }
    ensures kept { result ≢ 0 → len.new ≡ len.old }
{
    let session = session_of!(board);
    of_saved(session.saved_len(slot), len)
}

/// Writes the snapshot of a guest to the front of a buffer, and tells how many bytes it has.
#[unsafe(no_mangle)]
pub extern "C" fn kalyubos_save(
    board: &mut Handle,
    slot: u8,
    into: &mut [u8],
    written: &mut usize,
) -> u32
    ensures saves { Calls board.old.session board.new.session result
        (Saves slot result into.old into.new written.new) }
    ensures kept { result ≢ 0 → (into.new ≡ into.old) × (written.new ≡ written.old) }
{
    let session = session_of!(board);
    of_saved(session.save(slot, into), written)
}

/// Puts the devices of a guest into the state of a snapshot, and tells what then waits.
#[unsafe(no_mangle)]
pub extern "C" fn kalyubos_restore(
    board: &mut Handle,
    slot: u8,
    from: &[u8],
    pending: &mut Pending,
) -> u32
    ensures restores { Calls board.old.session board.new.session result (Restores slot from.now result) }
    ensures kept { result ≢ 0 → board.new.session ≡ board.old.session }
    ensures pending { Tells slot board.new.session pending.old pending.new }
{
    let session = session_of!(board);
    let answer = restore(session, slot, from);
    tell(session, slot, pending);
    answer
}

// Puts the devices of a slot into the state of a snapshot.
fn restore(session: &mut Session, slot: u8, from: &[u8]) -> u32
    ensures restores { Restores slot from.now result session.old session.new }
    ensures kept { result ≢ 0 → session.new ≡ session.old }
{
    of_restored(session.restore(slot, from))
}
