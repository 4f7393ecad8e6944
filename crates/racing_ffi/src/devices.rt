//! A guest's further devices from the outside: what its host supplies, sends and takes, and what waits.

ghost use Rattle.std.specs.Prelude.{◌≡◌, ◌≢◌, ℕ, List, length};
ghost use Rattle.racing_ffi.specs.Calls.{AtDevice, Calls};
ghost use Rattle.racing_ffi.specs.Devices.{IsTooShort, Links, Receives, ResizesDevice, Supplies, TakesFrame, TellsDevice, pending_of_device};

use crate::codes::{BAD_WINDOW, DONE, of_progress};
use crate::frame::take_frame;
use crate::handle::{GuestHandle, session_of};
use crate::window::device_numbered;
use c_values::DevicePending;
use network_device::FrameRefusal;
use racing_session::{DeviceWaits, ReceiveRefusal};

/// Supplies an entropy device with bytes, or types to a console, and tells how many bytes it took, the first ones.
#[unsafe(no_mangle)]
pub extern "C" fn kalyubos_guest_supply(
    guest: &mut GuestHandle,
    window: u8,
    bytes: &[u8],
    taken: &mut usize,
) -> u32
    ghost stood: { List ℕ }
    ensures supplies { Calls guest.old.session guest.new.session result
        (AtDevice window result (Supplies stood bytes.now taken.new result)) }
    ensures kept { result ≢ 0 → result ≢ 18 → taken.new ≡ taken.old }
{
    let session = session_of!(guest);
    let Some(device) = device_numbered(window) else {
        return BAD_WINDOW;
    };
    match session.supply(device, bytes) {
        Some(handed) => {
            *taken = handed.taken;
            of_progress(handed.progress)
        }
        None => BAD_WINDOW,
    }
}

/// Hands a network card a frame, and tells whether it was taken: whole, or not at all.
#[unsafe(no_mangle)]
pub extern "C" fn kalyubos_guest_receive(
    guest: &mut GuestHandle,
    window: u8,
    frame: &[u8],
    taken: &mut bool,
) -> u32
    ghost stood: { List ℕ }
    ensures receives { Calls guest.old.session guest.new.session result
        (AtDevice window result (Receives stood frame.now taken.new result)) }
    ensures kept { result ≡ 1 → taken.new ≡ taken.old }
    ensures kept_refused { result ≡ 6 → taken.new ≡ taken.old }
{
    let session = session_of!(guest);
    let Some(device) = device_numbered(window) else {
        return BAD_WINDOW;
    };
    let answer = session.receive(device, frame);
    match answer {
        Ok(progress) => {
            *taken = true;
            of_progress(progress)
        }
        Err(ReceiveRefusal::Frame(FrameRefusal::Full)) => {
            *taken = false;
            DONE
        }
        Err(_) => BAD_WINDOW,
    }
}

/// Moves out what a device's driver sent, whole: the oldest frame of a network card, or all output of a console. Tells how many bytes
/// it has: none where nothing waits. Where it finds no room it stays, and its length is told. Once nothing more waits, the chains on
/// offer are served.
#[unsafe(no_mangle)]
pub extern "C" fn kalyubos_guest_take_frame(
    guest: &mut GuestHandle,
    window: u8,
    into: &mut [u8],
    len: &mut usize,
) -> u32
    ghost stood: { List ℕ }
    ensures taken { result ≢ 26 → Calls guest.old.session guest.new.session result
        (AtDevice window result (TakesFrame stood into.old into.new len.new result)) }
    ensures short { result ≡ 26 → Calls guest.old.session guest.new.session result
        (AtDevice window result (IsTooShort (length into.old) len.new)) }
    ensures kept { result ≢ 0 → result ≢ 18 → into.new ≡ into.old }
    ensures kept_len { result ≢ 0 → result ≢ 18 → result ≢ 26 → len.new ≡ len.old }
{
    let session = session_of!(guest);
    let Some(device) = device_numbered(window) else {
        return BAD_WINDOW;
    };
    take_frame(session, device, into, len)
}

/// Sets whether a network card's link is up, of which its driver is told.
#[unsafe(no_mangle)]
pub extern "C" fn kalyubos_guest_set_link(guest: &mut GuestHandle, window: u8, up: bool) -> u32
    ensures links { Calls guest.old.session guest.new.session result (AtDevice window result (Links up result)) }
{
    let session = session_of!(guest);
    let Some(device) = device_numbered(window) else {
        return BAD_WINDOW;
    };
    if session.set_link(device, up) {
        DONE
    } else {
        BAD_WINDOW
    }
}

/// Changes the size of a further console, of which its driver is told.
#[unsafe(no_mangle)]
pub extern "C" fn kalyubos_guest_resize_device(
    guest: &mut GuestHandle,
    window: u8,
    cols: u16,
    rows: u16,
) -> u32
    ensures resizes { Calls guest.old.session guest.new.session result
        (AtDevice window result (ResizesDevice cols rows result)) }
{
    let session = session_of!(guest);
    let Some(device) = device_numbered(window) else {
        return BAD_WINDOW;
    };
    if session.resize_device(device, cols, rows) {
        DONE
    } else {
        BAD_WINDOW
    }
}

/// Tells what waits for a further device's driver and for its host.
#[unsafe(no_mangle)]
pub extern "C" fn kalyubos_guest_device_pending(
    guest: &mut GuestHandle,
    window: u8,
    pending: &mut DevicePending,
) -> u32
    ensures told { Calls guest.old.session guest.new.session result
        (AtDevice window result (TellsDevice pending.new result)) }
    ensures kept { result ≢ 0 → pending.new ≡ pending.old }
{
    let session = session_of!(guest);
    let Some(device) = device_numbered(window) else {
        return BAD_WINDOW;
    };
    let Some(waits) = session.device_waits(device) else {
        return BAD_WINDOW;
    };
    *pending = pending_of_device(waits);
    DONE
}

// What waits, as C has it.
fn pending_of_device(waits: DeviceWaits) -> DevicePending
    ensures { result ≡ pending_of_device waits }
{
    DevicePending {
        interrupt: u32::from(waits.irq),
        starved: false,
        padding: [0; 3],
        frame: waits.sent.unwrap_or(0) as u64,
        tags: 0,
    }
}
