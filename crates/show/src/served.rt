//! How far a queue is served, and what is said of its used entries and of the end of its service.

use crate::device::DeviceName;
use crate::guest::{SlotQueue, queue_of, ring_of};
use crate::watched::Watched;
use crate::weave::Text;
use crate::wording::{
    Mistake, fault_name, next_place, say_notification, say_queue_head, say_site, say_used, size_of,
    used_entry, used_place,
};
use board::{Reply, Turn};
use chain::Fault;
use mmio_window::Queue;
use negotiation::{Flags, Status};

/// What a service came to.
#[derive(Drop)]
pub struct Service {
    pub reply: Reply,
    /// What ended it, where that is a fault.
    pub fault: Option<Fault>,
    /// What its chains have that the standard forbids a driver.
    pub mistake: Option<Mistake>,
}

/// How many chains a service has at most.
pub const MOST_CHAINS: usize = 256;

/// The reply of a turn without a limit, which doesn't pause.
pub fn reply_of(turn: Turn) -> Reply {
    match turn {
        Turn::Answered(reply) => reply,
        Turn::More(_) => Reply::Done,
    }
}

/// The place of a queue's next used entry, where the queue is ready.
pub fn place_of(board: &Watched, served: SlotQueue) -> Option<u16> {
    Some(used_place(ring_of(board, served)?))
}

/// The place at which the service of a queue was opened. Where none is open it is the queue's.
pub fn opened_at(board: &Watched, served: SlotQueue) -> Option<u16> {
    let (_, registers) = queue_of(board, served)?;
    match &registers.ring {
        Some(Queue::Split(ring)) => Some(ring.state().place.wrapping_sub(ring.state().used_count)),
        Some(Queue::Packed(ring)) => {
            let size = size_of(registers);
            let back = size.wrapping_mul(2).wrapping_sub(ring.state().used_count);
            Some(next_place(ring.state().place, back, size))
        }
        None => None,
    }
}

// The place up to which the service has settled whether to notify the driver. A queue of which no tag is free stands open.
fn closed_at(board: &Watched, served: SlotQueue) -> Option<u16> {
    if board.is_full(served) {
        opened_at(board, served)
    } else {
        place_of(board, served)
    }
}

/// Whether the device of a queue asks to be reset.
pub fn needs_reset(board: &Watched, served: SlotQueue) -> bool {
    match board.window(served.slot, served.device) {
        Some(window) => {
            let status = window.negotiation().status();
            status.contains(Status::DEVICE_NEEDS_RESET)
        }
        None => false,
    }
}

/// Says the used entry of a place.
pub fn say_used_at(board: &Watched, served: SlotQueue, place: u16, text: &mut Text) {
    let Some((mem, registers)) = queue_of(board, served) else {
        return;
    };
    let Some(used) = used_entry(mem, registers, place) else {
        return;
    };
    text.say("    used: ");
    say_used(text, used);
    let entry = place.checked_rem(size_of(registers)).unwrap_or(0);
    say_queue_head(text, served.device, served.queue, " used ");
    text.count(u64::from(entry));
    text.say(": id ");
    say_used(text, used);
}

/// Says why a service ended that was opened at this place, and whether a notification was wanted.
pub fn say_end(
    board: &Watched,
    served: SlotQueue,
    reply: &Reply,
    first: Option<u16>,
    fault: Option<Fault>,
    text: &mut Text,
) {
    let Some((mem, registers)) = queue_of(board, served) else {
        return;
    };
    if registers.ring.is_none() {
        return;
    }
    text.say("  ends: ");
    match (fault, reply) {
        (Some(fault), _) => {
            text.say(fault_name(fault));
            say_site(text, mem, registers, fault);
        }
        (None, Reply::NoMemory) => text.say("no memory for the output"),
        (None, _) => text.say(plain_end(board, served)),
    }
    text.say("\n");
    if let (Some(first), Some(last)) = (first, closed_at(board, served)) {
        if first != last || !board.is_full(served) {
            say_notification(text, mem, registers, first, last);
        }
    }
}

// Why a service ended of which no fault is known.
fn plain_end(board: &Watched, served: SlotQueue) -> &'static str {
    if needs_reset(board, served) {
        return "a fault of the next chain";
    }
    if board.is_on_hold(served) {
        return "the queue is on hold";
    }
    if board.is_full(served) {
        return "no tag is free";
    }
    match (served.device, served.queue, board.pending(served.slot)) {
        (DeviceName::Console, 0, 0) => "no input is left",
        _ => "nothing more is on offer",
    }
}
