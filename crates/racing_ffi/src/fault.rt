//! Why a guest's window asks for a reset, for C.

ghost use Rattle.std.specs.Prelude.{◌≡◌, ◌≢◌};
ghost use Rattle.racing_ffi.specs.Calls.{AtAnyWindow, Calls};
ghost use Rattle.racing_ffi.specs.Faults.{TellsDeviceFault, TellsFault};

use crate::codes::{BAD_WINDOW, DONE};
use crate::handle::{GuestHandle, session_of};
use crate::window::{device_behind, window_numbered};
use c_values::Fault;
use racing_session::RacingSession;

/// Tells the last fault of a guest's window, by which it asked for a reset.
#[unsafe(no_mangle)]
pub extern "C" fn kalyubos_guest_last_fault(
    guest: &mut GuestHandle,
    window: u8,
    fault: &mut Fault,
) -> u32
    ensures tells { Calls guest.old.session guest.new.session result
        (AtAnyWindow window (TellsFault fault.new result) (TellsDeviceFault fault.new result)) }
    ensures kept { result ≢ 0 → fault.new ≡ fault.old }
{
    let session = session_of!(guest);
    match window_numbered(window) {
        Some(window) => {
            *fault = Fault::of(session.last_fault(window));
            DONE
        }
        None => tell_device(session, device_behind(window), fault),
    }
}

// Tells the last fault of a further device's window.
fn tell_device(session: &RacingSession, device: u8, fault: &mut Fault) -> u32
    ensures tells { TellsDeviceFault fault.new result device session.now session.now }
    ensures kept { result ≢ 0 → fault.new ≡ fault.old }
{
    let Some(note) = session.device_fault(device) else {
        return BAD_WINDOW;
    };
    *fault = Fault::of(note);
    DONE
}
