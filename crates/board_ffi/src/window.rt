//! Whose window a number names: 0 is the disk's, 1 the console's, and from 2 on they are the further devices'.

ghost use Rattle.std.specs.Prelude.{◌≡◌, ◌-◌, None, Some};
ghost use Rattle.board_ffi.specs.Calls.{device_at, disk_window, window_of};

use session::{SlotDisk, SlotWindow};

/// The number of the first further device's window.
const FIRST: u8 = 2;

/// Whose disk a window is for, where it isn't the console's.
pub(crate) fn disk_numbered(number: u8) -> Option<SlotDisk>
    ensures { result ≡ disk_window number }
{
    if number == 0 {
        return Some(SlotDisk::Own);
    }
    let device = device_numbered(number)?;
    Some(SlotDisk::Further(device))
}

/// The disk's window or the console's, if it is one of these.
pub(crate) fn window_numbered(number: u8) -> Option<SlotWindow>
    ensures { result ≡ window_of number }
{
    match number {
        0 => Some(SlotWindow::Block),
        1 => Some(SlotWindow::Console),
        _ => None,
    }
}

/// The number of the further device whose window it is, if it is one's.
pub(crate) fn device_numbered(number: u8) -> Option<u8>
    ensures { result ≡ device_at number }
{
    if number < FIRST {
        return None;
    }
    Some(number - FIRST)
}

/// The number of the further device whose window it is, where it isn't the disk's or the console's.
#[tactic(auto, using(crate::proofs::Windows::behind))]
pub(crate) fn device_behind(number: u8) -> u8
    requires { window_of number ≡ None }
    ensures value { result ≡ number - 2 }
    ensures at { device_at number ≡ Some result }
{
    number.saturating_sub(FIRST)
}
