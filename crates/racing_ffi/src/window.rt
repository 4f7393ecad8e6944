//! Whose window a number names: 0 is the disk's, 1 the console's, and from 2 on they are the further devices'.

ghost use Rattle.std.specs.Prelude.{◌≡◌, ◌-◌, None};
ghost use Rattle.racing_ffi.specs.Calls.{device_at, window_of};

use racing_session::GuestWindow;

/// The number of the first further device's window.
const FIRST: u8 = 2;

/// The window of this number, if it is one.
pub(crate) fn window_numbered(number: u8) -> Option<GuestWindow>
    ensures { result ≡ window_of number }
{
    match number {
        0 => Some(GuestWindow::Block),
        1 => Some(GuestWindow::Console),
        _ => None,
    }
}

/// The number of the further device whose window it is, if it is one's.
pub(crate) fn device_numbered(number: u8) -> Option<u8>
    ensures { result ≡ device_at number }
{
    if number < FIRST {
        return None;
    }
    Some(number - FIRST)
}

/// The number of the further device whose window it is, where it isn't the disk's or the console's.
pub(crate) fn device_behind(number: u8) -> u8
    requires { window_of number ≡ None }
    ensures { result ≡ number - 2 }
{
    number.saturating_sub(FIRST)
}
