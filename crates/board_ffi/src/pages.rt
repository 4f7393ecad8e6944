//! Which pages of a guest's memory its devices write to, for a host that moves the guest.

ghost use Rattle.std.specs.Prelude.{◌≡◌, ◌≢◌};
ghost use Rattle.board_ffi.specs.Calls.{Calls, IsMissing, KeepsPages, LacksBits};

use crate::codes::{BAD_LOAN, BAD_SLOT, DONE};
use crate::handle::{Handle, session_of};
use c_values::have_bits;
use guest_bytes::Loan;

/// Has the bits of a guest's pages kept in bytes that the host lends, from now on until the next such call. Of no bytes
/// none are kept; else there is one for each page. The loan is given up, also where it is refused.
#[unsafe(no_mangle)]
pub extern "C" fn kalyubos_keep_pages(board: &mut Handle, slot: u8, bits: Loan) -> u32
    ensures kept { result ≡ 0 → Calls board.old.session board.new.session result (KeepsPages slot bits.items) }
    ensures short { result ≡ 29 → Calls board.old.session board.new.session result (LacksBits slot bits.items) }
    ensures missing { result ≢ 0 → result ≢ 29 → Calls board.old.session board.new.session result
        (IsMissing slot result) }
{
    let bits = bits.into_bytes();
    let session = session_of!(board);
    let Some(len) = session.memory_len(slot) else {
        return BAD_SLOT;
    };
    if !bits.is_empty() && !have_bits(bits.len(), len) {
        return BAD_LOAN;
    }
    session.keep_pages(slot, bits);
    DONE
}
