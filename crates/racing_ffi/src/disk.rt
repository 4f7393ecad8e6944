//! A guest's disk, which the host serves: what it is asked for, and what the host did.

ghost use Rattle.std.specs.Prelude.{◌≡◌, ◌≢◌, ℕ, List, None, IfNone, IfSome};
ghost use Rattle.block_device.specs.declared.operation.HostEvent.{HostEvent};
ghost use Rattle.c_values.specs.Operation.{verdict_of};
ghost use Rattle.racing_session.specs.Session.{waits_of};
ghost use Rattle.racing_ffi.specs.Disk.{IsInFlight, operation_of};
ghost use Rattle.racing_ffi.specs.Calls.{Calls, HasInFlight, IsAskedFor, IsAtRest, Says, Tells, pending_by};

use crate::codes::{DONE, IDLE, of_answer};
use crate::handle::{GuestHandle, session_of};
use crate::pending::pending_of;
use c_values::{Operation, Pending, Run, tell_runs, verdict};
use racing_session::{HostEvent, RacingSession, Segment, Told};

/// Tells which tags of a guest's disk are in flight: bit n is set where tag n is.
#[unsafe(no_mangle)]
pub extern "C" fn kalyubos_guest_in_flight(guest: &mut GuestHandle, tags: &mut u64) -> u32
    ensures told { Calls guest.old.session guest.new.session result (HasInFlight tags.new result) }
    ensures kept { result ≢ 0 → tags.new ≡ tags.old }
{
    let session = session_of!(guest);
    *tags = session.in_flight();
    DONE
}

/// Tells what is in flight of a guest's disk with this tag: the operation, and the first of its runs, as many as find room.
#[unsafe(no_mangle)]
pub extern "C" fn kalyubos_guest_operation(
    guest: &mut GuestHandle,
    tag: u8,
    operation: &mut Operation,
    runs: &mut [Run],
) -> u32
    ensures told { result ≡ 0 → Calls guest.old.session guest.new.session result
        (IsAskedFor tag operation.new runs.old runs.new) }
    ensures rests { result ≢ 0 → Calls guest.old.session guest.new.session result (IsAtRest tag result) }
    ensures kept { result ≢ 0 → (operation.new ≡ operation.old) × (runs.new ≡ runs.old) }
{
    let session = session_of!(guest);
    let Some((asked, found)) = asked_of(session, tag) else {
        return IDLE;
    };
    *operation = Operation::of(asked, found);
    tell_runs(found, runs);
    DONE
}

// What the disk is asked for with this tag, and where its bytes lie.
fn asked_of(session: &RacingSession, tag: u8) -> Option<(racing_session::Operation, &[Segment])>
    ensures asked { IfSome result (λ asked. IsInFlight tag asked.0 asked.1.now session.now) }
    ensures rests { IfNone result (operation_of tag session.now ≡ None) }
{
    let asked = session.operation(tag)?;
    Some((asked, session.runs(tag)))
}

/// Completes what is in flight of a guest's disk with this tag, which was done or failed, and tells what then waits.
#[unsafe(no_mangle)]
pub extern "C" fn kalyubos_guest_completed(
    guest: &mut GuestHandle,
    tag: u8,
    failed: bool,
    pending: &mut Pending,
) -> u32
    ghost stood: { List ℕ }
    ensures says { Calls guest.old.session guest.new.session result
        (Says stood (HostEvent.Complete tag (verdict_of failed)) result) }
    ensures pending { Tells guest.new.session pending.old pending.new }
{
    let verdict = verdict(failed);
    say(
        session_of!(guest),
        HostEvent::Complete { tag, verdict },
        pending,
    )
}

/// Gives up all that is in flight of a guest's disk, and tells what then waits.
#[unsafe(no_mangle)]
pub extern "C" fn kalyubos_guest_drop(guest: &mut GuestHandle, pending: &mut Pending) -> u32
    ghost stood: { List ℕ }
    ensures says { Calls guest.old.session guest.new.session result (Says stood HostEvent.Drop result) }
    ensures pending { Tells guest.new.session pending.old pending.new }
{
    say(session_of!(guest), HostEvent::Drop, pending)
}

/// Takes no further chain of a guest's disk, and tells what then waits.
#[unsafe(no_mangle)]
pub extern "C" fn kalyubos_guest_hold(guest: &mut GuestHandle, pending: &mut Pending) -> u32
    ghost stood: { List ℕ }
    ensures says { Calls guest.old.session guest.new.session result (Says stood HostEvent.Hold result) }
    ensures pending { Tells guest.new.session pending.old pending.new }
{
    say(session_of!(guest), HostEvent::Hold, pending)
}

/// Takes chains of a guest's disk again, and tells what then waits.
#[unsafe(no_mangle)]
pub extern "C" fn kalyubos_guest_release(guest: &mut GuestHandle, pending: &mut Pending) -> u32
    ghost stood: { List ℕ }
    ensures says { Calls guest.old.session guest.new.session result (Says stood HostEvent.Release result) }
    ensures pending { Tells guest.new.session pending.old pending.new }
{
    say(session_of!(guest), HostEvent::Release, pending)
}

// The host says this of the disk.
fn say(session: &mut RacingSession, said: HostEvent, pending: &mut Pending) -> u32
    ghost stood: { List ℕ }
    ensures says { Says stood said result session.old session.new }
    ensures pending { pending.new ≡ pending_by (waits_of session.new) }
{
    let Told { answer, waits } = session.say(said);
    *pending = pending_of(waits);
    of_answer(answer)
}
