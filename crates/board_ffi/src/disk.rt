//! What the host did of what its disk was asked for, and what else it says of the disk.

ghost use Rattle.std.specs.Prelude.{◌≡◌, is_some, length};
ghost use Rattle.block_device.specs.declared.operation.HostEvent.{HostEvent};
ghost use Rattle.board_ffi.specs.Calls.{AtDisk, Calls, Completes, Says, Tells, TellsOf};
ghost use Rattle.board_ffi.specs.Codes.{code_at};
ghost use Rattle.board_ffi.specs.Disk.{flight_of};

use crate::codes::{no_window, of_served};
use crate::handle::{Handle, session_of};
use crate::operation::at_rest;
use crate::pending::{tell, tell_waits};
use crate::window::disk_numbered;
use c_values::{Pending, verdict};
use session::{HostEvent, Session, SlotDisk, Told};

/// Completes what is in flight of a guest's disk with this tag, which was done or failed, and tells what then waits.
#[unsafe(no_mangle)]
pub extern "C" fn kalyubos_completed(
    board: &mut Handle,
    slot: u8,
    window: u8,
    tag: u8,
    failed: bool,
    pending: &mut Pending,
) -> u32
    ensures step { Calls board.old.session board.new.session result
        (AtDisk window slot result (Completes slot tag failed result)) }
    ensures pending { Tells slot board.new.session pending.old pending.new }
{
    let session = session_of!(board);
    match disk_numbered(window) {
        Some(disk) => completed(session, slot, disk, tag, failed, pending),
        None => of_no_disk(session, slot, pending),
    }
}

/// Gives up all that is in flight of a guest's disk, and tells what then waits.
#[unsafe(no_mangle)]
pub extern "C" fn kalyubos_drop(
    board: &mut Handle,
    slot: u8,
    window: u8,
    pending: &mut Pending,
) -> u32
    ensures step { Calls board.old.session board.new.session result
        (AtDisk window slot result (Says slot HostEvent.Drop result)) }
    ensures pending { Tells slot board.new.session pending.old pending.new }
{
    say(session_of!(board), slot, window, HostEvent::Drop, pending)
}

/// Takes no further chain of a guest's disk, and tells what then waits.
#[unsafe(no_mangle)]
pub extern "C" fn kalyubos_hold(
    board: &mut Handle,
    slot: u8,
    window: u8,
    pending: &mut Pending,
) -> u32
    ensures step { Calls board.old.session board.new.session result
        (AtDisk window slot result (Says slot HostEvent.Hold result)) }
    ensures pending { Tells slot board.new.session pending.old pending.new }
{
    say(session_of!(board), slot, window, HostEvent::Hold, pending)
}

/// Takes chains of a guest's disk again, and tells what then waits.
#[unsafe(no_mangle)]
pub extern "C" fn kalyubos_release(
    board: &mut Handle,
    slot: u8,
    window: u8,
    pending: &mut Pending,
) -> u32
    ensures step { Calls board.old.session board.new.session result
        (AtDisk window slot result (Says slot HostEvent.Release result)) }
    ensures pending { Tells slot board.new.session pending.old pending.new }
{
    say(
        session_of!(board),
        slot,
        window,
        HostEvent::Release,
        pending,
    )
}

// The host says this of the disk of a window.
fn say(session: &mut Session, slot: u8, window: u8, said: HostEvent, pending: &mut Pending) -> u32
    ensures says { AtDisk window slot result (Says slot said result) session.old session.new }
    ensures pending { TellsOf slot session.new pending.old pending.new }
{
    match disk_numbered(window) {
        Some(disk) => told(session, slot, disk, said, pending),
        None => of_no_disk(session, slot, pending),
    }
}

// Completes what is in flight of a disk with this tag, which was done or failed.
#[tactic(auto, using(crate::proofs::Telling::tells))]
fn completed(
    session: &mut Session,
    slot: u8,
    disk: SlotDisk,
    tag: u8,
    failed: bool,
    pending: &mut Pending,
) -> u32
    ensures completes { Completes slot tag failed result disk session.old session.new }
    ensures pending { TellsOf slot session.new pending.old pending.new }
{
    if !is_in_flight(session, slot, disk, tag) {
        tell(session, slot, pending);
        return at_rest(session, slot, disk);
    }
    let verdict = verdict(failed);
    told(
        session,
        slot,
        disk,
        HostEvent::Complete { tag, verdict },
        pending,
    )
}

// Whether anything is in flight of a disk with this tag.
fn is_in_flight(session: &Session, slot: u8, disk: SlotDisk, tag: u8) -> bool
    ensures { result ≡ is_some (flight_of slot disk tag session.now.slots) }
{
    match session.disk(slot, disk) {
        Some(found) => found.operation(tag).is_some(),
        None => false,
    }
}

// The host says this of a disk. What then waits is told.
#[tactic(auto, using(crate::proofs::Telling::tells))]
fn told(
    session: &mut Session,
    slot: u8,
    disk: SlotDisk,
    said: HostEvent,
    pending: &mut Pending,
) -> u32
    ensures says { Says slot said result disk session.old session.new }
    ensures pending { TellsOf slot session.new pending.old pending.new }
{
    let Told { answer, waits } = session.tell(slot, disk, said);
    tell_waits(waits, pending);
    of_served(answer)
}

// What is answered of a slot that has no such disk, with what waits.
fn of_no_disk(session: &Session, slot: u8, pending: &mut Pending) -> u32
    ensures code { result ≡ code_at slot (length session.now.slots) 6 }
    ensures pending { TellsOf slot session.now pending.old pending.new }
{
    tell(session, slot, pending);
    no_window(slot, session.slots())
}
