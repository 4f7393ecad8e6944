//! What a disk that the host serves is asked for.

ghost use Rattle.std.specs.Prelude.{◌≡◌, ◌≢◌, None, IfNone, IfSome};
ghost use Rattle.board_ffi.specs.Calls.{AtDisk, Calls, HasInFlight, IsAskedFor, IsAtRest, IsNoDisk};
ghost use Rattle.board_ffi.specs.Disk.{IsInFlight, flight_of, rest_code};

use crate::codes::{BAD_SLOT, BAD_WINDOW, DONE, IDLE, no_window};
use crate::handle::{Handle, session_of};
use crate::window::disk_numbered;
use c_values::{Operation, Run, tell_runs};
use session::{Segment, Session, SlotDisk};

/// Tells which tags of a guest's disk are in flight: bit n is set where tag n is.
#[unsafe(no_mangle)]
pub extern "C" fn kalyubos_in_flight(
    board: &mut Handle,
    slot: u8,
    window: u8,
    tags: &mut u64,
) -> u32
    ensures told { result ≡ 0 → Calls board.old.session board.new.session result
        (AtDisk window slot result (HasInFlight slot tags.new)) }
    ensures missing { result ≢ 0 → Calls board.old.session board.new.session result
        (AtDisk window slot result (IsNoDisk slot result)) }
    ensures kept { result ≢ 0 → tags.new ≡ tags.old }
{
    let session = session_of!(board);
    let Some(disk) = disk_numbered(window) else {
        return no_window(slot, session.slots());
    };
    let Some(taken) = session.in_flight(slot, disk) else {
        return no_window(slot, session.slots());
    };
    *tags = taken;
    DONE
}

/// Tells what is in flight of a guest's disk with this tag: the operation, and the first of its runs, as many as find room.
#[unsafe(no_mangle)]
pub extern "C" fn kalyubos_operation(
    board: &mut Handle,
    slot: u8,
    window: u8,
    tag: u8,
    operation: &mut Operation,
    runs: &mut [Run],
) -> u32
    ensures told { result ≡ 0 → Calls board.old.session board.new.session result
        (AtDisk window slot result (IsAskedFor slot tag operation.new runs.old runs.new)) }
    ensures rests { result ≢ 0 → Calls board.old.session board.new.session result
        (AtDisk window slot result (IsAtRest slot tag result)) }
    ensures kept { result ≢ 0 → (operation.new ≡ operation.old) × (runs.new ≡ runs.old) }
{
    let session = session_of!(board);
    let Some(disk) = disk_numbered(window) else {
        return no_window(slot, session.slots());
    };
    let Some((asked, found)) = asked_of(session, slot, disk, tag) else {
        return at_rest(session, slot, disk);
    };
    *operation = Operation::of(asked, found);
    tell_runs(found, runs);
    DONE
}

// What a disk is asked for with this tag, and where its bytes lie.
fn asked_of(
    session: &Session,
    slot: u8,
    disk: SlotDisk,
    tag: u8,
) -> Option<(session::Operation, &[Segment])>
    ensures asked { IfSome result (λ asked. IsInFlight slot tag disk asked.0 asked.1.now session.now) }
    ensures rests { IfNone result (flight_of slot disk tag session.now.slots ≡ None) }
{
    let found = session.disk(slot, disk)?;
    let asked = found.operation(tag)?;
    Some((asked, found.runs(tag)))
}

/// What is answered of a slot of which nothing is in flight with a tag.
pub(crate) fn at_rest(session: &Session, slot: u8, disk: SlotDisk) -> u32
    ensures { result ≡ rest_code slot disk session.now.slots }
{
    if usize::from(slot) >= session.slots() {
        return BAD_SLOT;
    }
    match session.in_flight(slot, disk) {
        Some(_) => IDLE,
        None => BAD_WINDOW,
    }
}
