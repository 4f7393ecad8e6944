//! Where a queue stands, and another place for it: what a front end says and asks when it starts and stops a queue.

ghost use Rattle.std.specs.Prelude.{◌≡◌, Some, is_some};
ghost use Rattle.std.specs.Bool.{OnTrue, OnFalse};
ghost use Rattle.guest_memory.specs.Memory.{Memory};
ghost use Rattle.mmio_window.specs.Soundness.{IsSound};
ghost use Rattle.racing_window.specs.Place.{moved_to, place_at, window_moved};

use mmio_window::{Queue, Window};

/// Where the queue of this number stands: the place of its next used entry. There is no answer where the device may not serve it.
pub fn place_of(window: &Window, q: u16) -> Option<u16>
    ensures { result ≡ place_at q window.now }
{
    if !window.may_serve(q) {
        return None;
    }
    let saved = window.saved();
    let queue = if q == 0 { saved.queue_0 } else { saved.queue_1 };
    queue.reached.map(|reached| reached.place)
}

/// Puts the queue of this number to this place. No service of it is under way then, and none of its chains is in flight. False
/// where the device may not serve it, or its ring has no such place: nothing has changed then.
pub fn put_to(window: &mut Window, q: u16, place: u16) -> bool
    ensures there { result ≡ is_some (window_moved q place window.old) }
    ensures moved { OnTrue result (window_moved q place window.old ≡ Some window.new) }
    ensures kept { OnFalse result (window.new ≡ window.old) }
    ensures sound { (m : Memory) → IsSound m window.old → IsSound m window.new }
{
    let Some(queue) = window.queue(q) else {
        return false;
    };
    let Some(moved) = moved_to(queue, place) else {
        return false;
    };
    *queue = moved;
    true
}

// The queue at this place, if its ring has one.
fn moved_to(queue: &Queue, place: u16) -> Option<Queue>
    ensures { result ≡ moved_to place queue.now }
{
    match queue {
        Queue::Split(ring) => ring.copied().served_to(place, 0, 0, 0).map(Queue::Split),
        Queue::Packed(ring) => ring.copied().served_to(place, 0, 0, 0).map(Queue::Packed),
    }
}
