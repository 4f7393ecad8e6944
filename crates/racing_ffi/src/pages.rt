//! Which pages of a guest's memory its devices write to, for a host that moves the guest while its CPUs run on.

ghost use Rattle.std.specs.Prelude.{◌≡◌, ◌≢◌};
ghost use Rattle.racing_ffi.specs.Calls.{Calls};
ghost use Rattle.racing_ffi.specs.Pages.{KeepsPages, LacksBits};

use crate::codes::{BAD_LOAN, DONE};
use crate::handle::{GuestHandle, session_of};
use c_values::have_bits;
use guest_bytes::Loan;

/// Has the bits of the guest's pages kept in bytes that the host lends, from now on until the next such call. Of no bytes
/// none are kept; else there is one for each page. The loan is given up, also where it is refused.
#[unsafe(no_mangle)]
pub extern "C" fn kalyubos_guest_keep_pages(guest: &mut GuestHandle, bits: Loan) -> u32
    ensures kept { result ≡ 0 → Calls guest.old.session guest.new.session result (KeepsPages bits.items) }
    ensures short { result ≡ 29 → Calls guest.old.session guest.new.session result (LacksBits bits.items) }
    ensures none { result ≢ 0 → result ≢ 29 → result ≡ 1 }
    ensures missing { result ≡ 1 → guest.new.session ≡ guest.old.session }
{
    let bits = bits.into_bytes();
    let session = session_of!(guest);
    if !bits.is_empty() && !have_bits(bits.len(), session.memory_len()) {
        return BAD_LOAN;
    }
    session.keep_pages(bits);
    DONE
}
