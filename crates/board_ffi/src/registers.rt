//! A guest's reads and writes of its devices' registers, and the words that stand for its interrupt lines.

ghost use Rattle.std.specs.Prelude.{◌≡◌, ◌≢◌, None, Some};
ghost use Rattle.board.specs.declared.event.DeviceEvent.{DeviceEvent};
ghost use Rattle.board_ffi.specs.Calls.{Calls, EventKind, GoesOn, HasLines, HasWords, IsMissing, IsUndisturbed, Reply, Takes, Tells, TellsOf, Writes, device_at, read_event, write_event};

use crate::codes::{BAD_SLOT, DONE, of_served, told};
use crate::handle::{Handle, session_of};
use crate::pending::{tell, tell_waits};
use crate::window::{device_behind, window_numbered};
use c_values::Pending;
use session::{Session, SlotWindow, Told};

/// A guest's read of a register of one of its windows: what it gets.
#[unsafe(no_mangle)]
pub extern "C" fn kalyubos_read(
    board: &mut Handle,
    slot: u8,
    window: u8,
    offset: u16,
    width: u8,
    value: &mut u32,
) -> u32
    ensures step { Calls board.old.session board.new.session result
        (Takes slot (read_event window offset width) result (Reply.Value value.new)) }
    ensures kept { result ≢ 0 → value.new ≡ value.old }
{
    let session = session_of!(board);
    match window_numbered(window) {
        Some(window) => told(session.read(slot, window, offset, width), value),
        None => {
            let device = device_behind(window);
            told(session.read_device(slot, device, offset, width), value)
        }
    }
}

/// A guest's write of a register of one of its windows. What it notifies is served within the budget, and what then waits is
/// told.
#[unsafe(no_mangle)]
pub extern "C" fn kalyubos_write(
    board: &mut Handle,
    slot: u8,
    window: u8,
    offset: u16,
    width: u8,
    value: u32,
    pending: &mut Pending,
) -> u32
    ensures step { Calls board.old.session board.new.session result
        (Writes slot (device_at window) (write_event window offset width value) result) }
    ensures pending { Tells slot board.new.session pending.old pending.new }
{
    let session = session_of!(board);
    match window_numbered(window) {
        Some(window) => write(session, slot, window, offset, width, value, pending),
        None => {
            let device = device_behind(window);
            write_device(session, slot, device, offset, width, value, pending)
        }
    }
}

// A write of a register of the disk or of the console.
#[tactic(auto, using(crate::proofs::Telling::tells))]
fn write(
    session: &mut Session,
    slot: u8,
    window: SlotWindow,
    offset: u16,
    width: u8,
    value: u32,
    pending: &mut Pending,
) -> u32
    ensures writes { Writes slot None (EventKind.Write window offset width value) result session.old session.new }
    ensures pending { TellsOf slot session.new pending.old pending.new }
{
    let Told { answer, waits } = session.write(slot, window, offset, width, value);
    tell_waits(waits, pending);
    of_served(answer)
}

// And of a further device.
fn write_device(
    session: &mut Session,
    slot: u8,
    device: u8,
    offset: u16,
    width: u8,
    value: u32,
    pending: &mut Pending,
) -> u32
    ensures writes { Writes slot (Some device) (EventKind.Device device (DeviceEvent.Write offset width value)) result
        session.old session.new }
    ensures pending { TellsOf slot session.new pending.old pending.new }
{
    let answer = of_served(session.write_device(slot, device, offset, width, value));
    tell(session, slot, pending);
    answer
}

/// Goes on with a guest's service that is paused, and tells what then waits.
#[tactic(auto, using(crate::proofs::Telling::tells))]
#[unsafe(no_mangle)]
pub extern "C" fn kalyubos_go_on(board: &mut Handle, slot: u8, pending: &mut Pending) -> u32
    ensures step { Calls board.old.session board.new.session result (GoesOn slot result) }
    ensures pending { Tells slot board.new.session pending.old pending.new }
{
    let session = session_of!(board);
    let Told { answer, waits } = session.go_on(slot);
    tell_waits(waits, pending);
    of_served(answer)
}

/// Tells InterruptStatus of both windows of a guest (4.2.2). A line is raised while its word isn't 0.
#[unsafe(no_mangle)]
pub extern "C" fn kalyubos_interrupts(
    board: &mut Handle,
    slot: u8,
    block: &mut u8,
    console: &mut u8,
) -> u32
    ensures told { result ≡ 0 → Calls board.old.session board.new.session result
        (HasWords slot block.new console.new) }
    ensures missing { result ≢ 0 → Calls board.old.session board.new.session result
        (IsMissing slot result) }
    ensures kept { result ≢ 0 → (block.new ≡ block.old) × (console.new ≡ console.old) }
{
    let session = session_of!(board);
    let Some((block_word, console_word)) = session.interrupts(slot) else {
        return BAD_SLOT;
    };
    *block = block_word;
    *console = console_word;
    DONE
}

/// Tells the interrupt lines of all windows of a guest: bit n is set where that of window n is raised (4.2.2).
#[unsafe(no_mangle)]
pub extern "C" fn kalyubos_lines(board: &mut Handle, slot: u8, lines: &mut u32) -> u32
    ensures told { result ≡ 0 → Calls board.old.session board.new.session result
        (HasLines slot lines.new) }
    ensures missing { result ≢ 0 → Calls board.old.session board.new.session result
        (IsMissing slot result) }
    ensures kept { result ≢ 0 → lines.new ≡ lines.old }
{
    let session = session_of!(board);
    let Some(bits) = session.lines(slot) else {
        return BAD_SLOT;
    };
    *lines = bits;
    DONE
}

/// Tells whether a call of the image failed for a guest: none does, of an image in memory, or where there is none.
#[unsafe(no_mangle)]
pub extern "C" fn kalyubos_disturbed(board: &mut Handle, slot: u8, disturbed: &mut bool) -> u32
    ensures told { result ≡ 0 → Calls board.old.session board.new.session result
        (IsUndisturbed slot disturbed.new) }
    ensures missing { result ≢ 0 → Calls board.old.session board.new.session result
        (IsMissing slot result) }
    ensures kept { result ≢ 0 → disturbed.new ≡ disturbed.old }
{
    let session = session_of!(board);
    if usize::from(slot) >= session.slots() {
        return BAD_SLOT;
    }
    *disturbed = false;
    DONE
}
