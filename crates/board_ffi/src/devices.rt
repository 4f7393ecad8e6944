//! A guest's further devices from the outside: what its host supplies, sends and takes, and what waits.

ghost use Rattle.std.specs.Prelude.{◌≡◌, ◌≢◌, length};
ghost use Rattle.board.specs.declared.event.DeviceEvent.{DeviceEvent};
ghost use Rattle.board_ffi.specs.Calls.{AtDevice, EventKind, HasDevicePending, IsNoDevice, IsTooShort, PausesBehind, Reply, Takes, TakesFrame};
ghost use Rattle.board_ffi.specs.Devices.{count_of, pending_of_device};

use crate::codes::{BAD_WINDOW, DONE, handed, no_window, of_done, of_progress, of_refusal};
use crate::frame::take_frame;
use crate::handle::{Handle, session_of};
use crate::window::device_numbered;
use c_values::DevicePending;
use session::DeviceWaits;

/// Supplies an entropy device with bytes, or types to a console, and tells how many bytes it took, the first ones.
#[unsafe(no_mangle)]
pub extern "C" fn kalyubos_supply(
    board: &mut Handle,
    slot: u8,
    window: u8,
    bytes: &[u8],
    taken: &mut usize,
) -> u32
    ensures step { AtDevice window board.old board.new result (λ device.
        Takes slot (EventKind.Device device (DeviceEvent.Supply bytes.now)) result (Reply.Took taken.new)) }
    ensures taken { result ≡ 18 → AtDevice window board.old board.new result (λ device.
        PausesBehind slot taken.new) }
    ensures kept { result ≢ 0 → result ≢ 18 → taken.new ≡ taken.old }
{
    let Some(device) = device_numbered(window) else {
        return BAD_WINDOW;
    };
    let session = session_of!(board);
    handed(session.supply(slot, device, bytes), taken)
}

/// Hands a network card a frame, and tells whether it was taken: whole, or not at all.
#[unsafe(no_mangle)]
pub extern "C" fn kalyubos_receive(
    board: &mut Handle,
    slot: u8,
    window: u8,
    frame: &[u8],
    taken: &mut bool,
) -> u32
    ensures step { AtDevice window board.old board.new result (λ device.
        Takes slot (EventKind.Device device (DeviceEvent.Receive frame.now)) result
        (Reply.Took (count_of frame.now taken.new))) }
    ensures taken { result ≡ 18 → AtDevice window board.old board.new result (λ device.
        PausesBehind slot (count_of frame.now taken.new)) }
    ensures kept { result ≢ 0 → result ≢ 18 → taken.new ≡ taken.old }
{
    let Some(device) = device_numbered(window) else {
        return BAD_WINDOW;
    };
    let session = session_of!(board);
    match session.receive(slot, device, frame) {
        Ok(handed) => {
            *taken = handed.taken == frame.len();
            of_progress(handed.progress)
        }
        Err(why) => of_refusal(why),
    }
}

/// Moves out what a device's driver sent, whole: the oldest frame of a network card, or all output of a console. Tells how many bytes
/// it has: none where nothing waits. Where it finds no room it stays, and its length is told. Once nothing more waits, the chains on
/// offer are served: where that pauses the bytes are moved out all the same.
#[unsafe(no_mangle)]
pub extern "C" fn kalyubos_take_frame(
    board: &mut Handle,
    slot: u8,
    window: u8,
    into: &mut [u8],
    len: &mut usize,
) -> u32
    ensures taken { result ≢ 26 → AtDevice window board.old board.new result (λ device.
        TakesFrame slot device into.old into.new len.new result) }
    ensures short { result ≡ 26 → AtDevice window board.old board.new result (λ device.
        IsTooShort slot device (length into.old) len.new) }
    ensures kept { result ≢ 0 → result ≢ 18 → into.new ≡ into.old }
    ensures kept_len { result ≢ 0 → result ≢ 18 → result ≢ 26 → len.new ≡ len.old }
{
    let Some(device) = device_numbered(window) else {
        return BAD_WINDOW;
    };
    take_frame(session_of!(board), slot, device, into, len)
}

/// Sets whether a network card's link is up, of which its driver is told.
#[unsafe(no_mangle)]
pub extern "C" fn kalyubos_set_link(board: &mut Handle, slot: u8, window: u8, up: bool) -> u32
    ensures step { AtDevice window board.old board.new result (λ device.
        Takes slot (EventKind.Device device (DeviceEvent.SetLink up)) result Reply.Done) }
{
    let Some(device) = device_numbered(window) else {
        return BAD_WINDOW;
    };
    let session = session_of!(board);
    of_done(session.set_link(slot, device, up))
}

/// Changes the size of a further console, of which its driver is told.
#[unsafe(no_mangle)]
pub extern "C" fn kalyubos_resize_device(
    board: &mut Handle,
    slot: u8,
    window: u8,
    cols: u16,
    rows: u16,
) -> u32
    ensures step { AtDevice window board.old board.new result (λ device.
        Takes slot (EventKind.Device device (DeviceEvent.Resize cols rows)) result Reply.Done) }
{
    let Some(device) = device_numbered(window) else {
        return BAD_WINDOW;
    };
    let session = session_of!(board);
    of_done(session.resize_device(slot, device, cols, rows))
}

/// Tells what waits for a further device's driver and for its host.
#[unsafe(no_mangle)]
pub extern "C" fn kalyubos_device_pending(
    board: &mut Handle,
    slot: u8,
    window: u8,
    pending: &mut DevicePending,
) -> u32
    ensures told { result ≡ 0 → AtDevice window board.old board.new result (λ device.
        HasDevicePending slot device pending.new) }
    ensures missing { result ≢ 0 → AtDevice window board.old board.new result (λ device.
        IsNoDevice slot device result) }
    ensures kept { result ≢ 0 → pending.new ≡ pending.old }
{
    let Some(device) = device_numbered(window) else {
        return BAD_WINDOW;
    };
    let session = session_of!(board);
    let Some(waits) = session.device_waits(slot, device) else {
        return no_window(slot, session.slots());
    };
    *pending = pending_of_device(waits);
    DONE
}

// What waits, as C has it.
fn pending_of_device(waits: DeviceWaits) -> DevicePending
    ensures { result ≡ pending_of_device waits }
{
    DevicePending {
        interrupt: u32::from(waits.irq),
        starved: waits.starved,
        padding: [0; 3],
        frame: waits.sent.unwrap_or(0) as u64,
        tags: waits.tags,
    }
}
