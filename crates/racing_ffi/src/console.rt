//! A guest's console from the outside: what is typed, its size, and what it puts out.

ghost use Rattle.std.specs.Prelude.{◌≡◌, ◌≢◌, ℕ, List};
ghost use Rattle.racing_ffi.specs.Calls.{Calls, MovesOutput, Resizes, Tells, Types};

use crate::codes::{DONE, of_progress};
use crate::handle::{GuestHandle, session_of};
use crate::pending::pending_of;
use c_values::Pending;
use racing_session::Typed;

/// Types bytes to a guest's console, and tells how many were taken, the first ones, and what then waits.
#[unsafe(no_mangle)]
pub extern "C" fn kalyubos_guest_input(
    guest: &mut GuestHandle,
    bytes: &[u8],
    took: &mut usize,
    pending: &mut Pending,
) -> u32
    ghost stood: { List ℕ }
    ensures types { Calls guest.old.session guest.new.session result (Types stood bytes.now took.new result) }
    ensures kept { result ≡ 1 → took.new ≡ took.old }
    ensures pending { Tells guest.new.session pending.old pending.new }
{
    let session = session_of!(guest);
    let Typed {
        taken,
        progress,
        waits,
    } = session.input(bytes);
    *took = taken;
    *pending = pending_of(waits);
    of_progress(progress)
}

/// Gives a guest's console another size, of which its driver is told, and tells what then waits.
#[unsafe(no_mangle)]
pub extern "C" fn kalyubos_guest_resize(
    guest: &mut GuestHandle,
    cols: u16,
    rows: u16,
    pending: &mut Pending,
) -> u32
    ensures resizes { Calls guest.old.session guest.new.session result (Resizes cols rows result) }
    ensures pending { Tells guest.new.session pending.old pending.new }
{
    let session = session_of!(guest);
    *pending = pending_of(session.resize(cols, rows));
    DONE
}

/// Moves out the first bytes of what a guest's console put out, as many as find room, and tells how many they are.
#[unsafe(no_mangle)]
pub extern "C" fn kalyubos_guest_take_output(
    guest: &mut GuestHandle,
    into: &mut [u8],
    taken: &mut usize,
) -> u32
    ensures moves { Calls guest.old.session guest.new.session result
        (MovesOutput into.old into.new taken.new result) }
    ensures kept { result ≢ 0 → taken.new ≡ taken.old }
    ensures kept_into { result ≢ 0 → into.new ≡ into.old }
{
    let session = session_of!(guest);
    *taken = session.take_output(into);
    DONE
}
