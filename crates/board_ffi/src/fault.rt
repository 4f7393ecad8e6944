//! Why a guest's window asks for a reset, for C.

ghost use Rattle.std.specs.Prelude.{◌≡◌, ◌≢◌};
ghost use Rattle.board_ffi.specs.Calls.{AtWindow, IsMissing, IsThere};
ghost use Rattle.c_values.specs.Faults.{IsTold};

use crate::codes::{BAD_SLOT, BAD_WINDOW, DONE};
use crate::handle::{Handle, session_of};
use crate::window::window_numbered;
use c_values::Fault;

/// Tells the last fault of a guest's window, by which it asked for a reset.
#[unsafe(no_mangle)]
pub extern "C" fn kalyubos_last_fault(
    board: &mut Handle,
    slot: u8,
    window: u8,
    fault: &mut Fault,
) -> u32
    ensures there { result ≡ 0 → AtWindow window board.old board.new result (λ kind. IsThere slot) }
    ensures told { result ≡ 0 → IsTold fault.new }
    ensures missing { result ≢ 0 → AtWindow window board.old board.new result
        (λ kind. IsMissing slot result) }
    ensures kept { result ≢ 0 → fault.new ≡ fault.old }
{
    let Some(window) = window_numbered(window) else {
        return BAD_WINDOW;
    };
    let session = session_of!(board);
    if usize::from(slot) >= session.slots() {
        return BAD_SLOT;
    }
    *fault = Fault::of(session.last_fault(slot, window));
    DONE
}
