//! A guest's reads and writes of its devices' registers, and the words that stand for its interrupt lines.

ghost use Rattle.std.specs.Prelude.{◌≡◌, ◌≢◌, ℕ, List};
ghost use Rattle.racing_ffi.specs.Calls.{AtAnyWindow, Calls, HasWords, Reads, Serves, Tells, Writes};
ghost use Rattle.racing_ffi.specs.Devices.{ReadsDevice, WritesDevice};

use crate::codes::{BAD_WINDOW, BUSY, DONE, of_answer, of_progress};
use crate::handle::{GuestHandle, session_of};
use crate::pending::pending_of;
use crate::window::{device_behind, window_numbered};
use c_values::Pending;
use racing_session::{RacingSession, Told, WriteRefusal};

/// A guest's read of a register of one of its windows: what it gets.
#[unsafe(no_mangle)]
pub extern "C" fn kalyubos_guest_read(
    guest: &mut GuestHandle,
    window: u8,
    offset: u16,
    width: u8,
    value: &mut u32,
) -> u32
    ensures reads { Calls guest.old.session guest.new.session result
        (AtAnyWindow window (Reads offset width value.new result) (ReadsDevice offset width value.new result)) }
    ensures kept { result ≢ 0 → value.new ≡ value.old }
{
    let session = session_of!(guest);
    match window_numbered(window) {
        Some(window) => {
            *value = session.read(window, offset, width);
            DONE
        }
        None => read_device(session, device_behind(window), offset, width, value),
    }
}

// A read of a register of a further device.
fn read_device(session: &RacingSession, device: u8, offset: u16, width: u8, value: &mut u32) -> u32
    ensures reads { ReadsDevice offset width value.new result device session.now session.now }
    ensures kept { result ≢ 0 → value.new ≡ value.old }
{
    let Some(read) = session.read_device(device, offset, width) else {
        return BAD_WINDOW;
    };
    *value = read;
    DONE
}

/// A guest's write of a register of one of its windows. What it notifies is served, and what then waits is told.
#[unsafe(no_mangle)]
pub extern "C" fn kalyubos_guest_write(
    guest: &mut GuestHandle,
    window: u8,
    offset: u16,
    width: u8,
    value: u32,
    pending: &mut Pending,
) -> u32
    ghost stood: { List ℕ }
    ensures writes { Calls guest.old.session guest.new.session result
        (AtAnyWindow window (Writes stood offset width value result) (WritesDevice stood offset width value result)) }
    ensures pending { Tells guest.new.session pending.old pending.new }
{
    let session = session_of!(guest);
    match window_numbered(window) {
        Some(window) => {
            let Told { answer, waits } = session.write(window, offset, width, value);
            *pending = pending_of(waits);
            of_answer(answer)
        }
        None => {
            let device = device_behind(window);
            let code = write_device(session, device, offset, width, value);
            *pending = pending_of(session.waits());
            code
        }
    }
}

// A write of a register of a further device.
fn write_device(session: &mut RacingSession, device: u8, offset: u16, width: u8, value: u32) -> u32
    ghost stood: { List ℕ }
    ensures { WritesDevice stood offset width value result device session.old session.new }
{
    match session.write_device(device, offset, width, value) {
        Ok(progress) => of_progress(progress),
        Err(WriteRefusal::NoDevice) => BAD_WINDOW,
        Err(WriteRefusal::Busy) => BUSY,
    }
}

/// Serves what is due, and tells what then waits.
#[unsafe(no_mangle)]
pub extern "C" fn kalyubos_guest_go_on(guest: &mut GuestHandle, pending: &mut Pending) -> u32
    ghost stood: { List ℕ }
    ensures serves { Calls guest.old.session guest.new.session result (Serves stood result) }
    ensures pending { Tells guest.new.session pending.old pending.new }
{
    let session = session_of!(guest);
    let Told { answer, waits } = session.go_on();
    *pending = pending_of(waits);
    of_answer(answer)
}

/// Tells InterruptStatus of both windows of a guest (4.2.2). A line is raised while its word isn't 0.
#[unsafe(no_mangle)]
pub extern "C" fn kalyubos_guest_interrupts(
    guest: &mut GuestHandle,
    block: &mut u8,
    console: &mut u8,
) -> u32
    ensures told { Calls guest.old.session guest.new.session result (HasWords block.new console.new result) }
    ensures kept { result ≢ 0 → (block.new ≡ block.old) × (console.new ≡ console.old) }
{
    let session = session_of!(guest);
    let waits = session.waits();
    *block = waits.block_irq;
    *console = waits.console_irq;
    DONE
}
