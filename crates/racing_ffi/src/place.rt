//! Where the queues of a guest stand, and another place for one, as a front end says it that starts a queue again.

ghost use Rattle.std.specs.Prelude.{◌≡◌, ◌≢◌};
ghost use Rattle.racing_ffi.specs.Calls.{AtWindow, Calls};
ghost use Rattle.racing_ffi.specs.Places.{PutsTo, TellsPlace, place_told, queue_of};

use crate::codes::{BAD_WINDOW, DONE, IDLE, of_refusal};
use crate::handle::{GuestHandle, session_of};
use crate::window::window_numbered;
use racing_session::{GuestQueue, GuestWindow, RacingSession};

/// Tells where a queue of a guest's window stands: the place of its next used entry.
#[unsafe(no_mangle)]
pub extern "C" fn kalyubos_guest_place(
    guest: &mut GuestHandle,
    window: u8,
    queue: u16,
    place: &mut u16,
) -> u32
    ensures told { Calls guest.old.session guest.new.session result
        (AtWindow window result (TellsPlace queue place.new result)) }
    ensures kept { result ≢ 0 → place.new ≡ place.old }
{
    let session = session_of!(guest);
    let Some(window) = window_numbered(window) else {
        return BAD_WINDOW;
    };
    let Some(found) = place_of(session, window, queue) else {
        return IDLE;
    };
    *place = found;
    DONE
}

/// Puts a queue of a guest's window to a place, from which on it is served.
#[unsafe(no_mangle)]
pub extern "C" fn kalyubos_guest_set_place(
    guest: &mut GuestHandle,
    window: u8,
    queue: u16,
    place: u16,
) -> u32
    ensures puts { Calls guest.old.session guest.new.session result
        (AtWindow window result (PutsTo queue place result)) }
{
    let session = session_of!(guest);
    let Some(window) = window_numbered(window) else {
        return BAD_WINDOW;
    };
    put_to(session, window, queue, place)
}

// Where the queue of this number of a window stands, if there is one and its device may serve it.
fn place_of(session: &RacingSession, window: GuestWindow, number: u16) -> Option<u16>
    ensures { result ≡ place_told window number session.now }
{
    session.place(queue_numbered(window, number)?)
}

// Puts the queue of this number of a window to a place, and answers the number of what that came to.
fn put_to(session: &mut RacingSession, window: GuestWindow, number: u16, place: u16) -> u32
    ensures { PutsTo number place result window session.old session.new }
{
    let Some(queue) = queue_numbered(window, number) else {
        return IDLE;
    };
    match session.set_place(queue, place) {
        Ok(()) => DONE,
        Err(why) => of_refusal(why),
    }
}

// The queue of this number of a window, if it is one: the disk has one, and the console one for input and one for output.
fn queue_numbered(window: GuestWindow, number: u16) -> Option<GuestQueue>
    ensures { result ≡ queue_of window number }
{
    match (window, number) {
        (GuestWindow::Block, 0) => Some(GuestQueue::Block),
        (GuestWindow::Console, 0) => Some(GuestQueue::Receive),
        (GuestWindow::Console, 1) => Some(GuestQueue::Transmit),
        _ => None,
    }
}
