//! The looks of a block device whose disk the host serves, and the completions of what is in flight.
//!
//! A look takes all its chains at once. Which ones these are is foreseen, and what came of them is said behind it.

use crate::device::told_of;
use crate::foresee::{Steps, foresee};
use crate::guest::{SlotQueue, queue_of};
use crate::served::{Service, needs_reset, opened_at, place_of, reply_of, say_end, say_used_at};
use crate::watched::Watched;
use crate::weave::Text;
use crate::wording::{Ahead, ChainSeen, Mistake, place_behind, say_asked, say_request, size_of};
use board::{EventKind, HostEvent};
use chain::{Budget, Chain};
use std::alloc::Global;

/// Handles a notify, a completion or a release of a disk that the host serves, and says of each chain what came of it.
pub fn look(
    board: &mut Watched,
    served: SlotQueue,
    what: &EventKind,
    chain: &mut Chain,
    output: &mut Vec<u8>,
    alloc: Global,
    text: &mut Text,
) -> Service {
    let mut steps = Steps::new(alloc);
    let first = opened_at(board, served);
    let place = place_of(board, served).unwrap_or(0);
    let told = told_of(what).map(|(_, told)| told);
    let landed = match told {
        Some(HostEvent::Complete { tag, .. }) => board.take_flight(served, tag),
        _ => None,
    };
    let end = foresee(board, served, told, landed, chain, &mut steps);
    let turn = board.turn(served.slot, what, None, Budget::UNLIMITED, output);
    let reply = reply_of(turn);
    let place = say_landed(board, served, told, landed, place, text);
    let mistake = say_steps(board, served, &steps, place, text);
    let fault = match end {
        Ahead::Fault(fault) if needs_reset(board, served) => Some(fault),
        _ => None,
    };
    say_end(board, served, &reply, first, fault, text);
    Service {
        reply,
        fault,
        mistake,
    }
}

// Says what came of the chain that was completed, whose used entry is at this place, and answers the next one.
fn say_landed(
    board: &Watched,
    served: SlotQueue,
    told: Option<HostEvent>,
    landed: Option<ChainSeen>,
    place: u16,
    text: &mut Text,
) -> u16 {
    let (Some(seen), Some(HostEvent::Complete { tag, .. })) = (landed, told) else {
        return place;
    };
    text.say("  the chain of tag ");
    text.count(u64::from(tag));
    text.say(":\n");
    say_given(board, served, &seen, place, text)
}

// Says the status and the used entry of a chain, and answers the place behind that.
fn say_given(
    board: &Watched,
    served: SlotQueue,
    seen: &ChainSeen,
    place: u16,
    text: &mut Text,
) -> u16 {
    let Some((mem, registers)) = queue_of(board, served) else {
        return place;
    };
    if let Some(request) = &seen.request {
        say_request(text, mem, request);
    }
    say_used_at(board, served, place, text);
    match &registers.ring {
        Some(queue) => place_behind(queue, place, seen.places, size_of(registers)),
        None => place,
    }
}

// Says of each chain of a look whether it asks the host or was served at once, with a used entry from this place on. It answers
// what they have that the standard forbids a driver.
fn say_steps(
    board: &mut Watched,
    served: SlotQueue,
    steps: &Steps,
    place: u16,
    text: &mut Text,
) -> Option<Mistake> {
    let (mut place, mut from, mut mistake) = (place, 0, None);
    for step in steps.list.iter() {
        let lines = steps.said.bytes().get(from..step.end).unwrap_or(&[]);
        from = step.end;
        if step.seen.asks_host() {
            let Some(tag) = board.new_tag(served) else {
                break;
            };
            text.put(lines);
            say_begun(board, served, tag, step.seen, text);
        } else {
            if place_of(board, served) == Some(place) {
                break;
            }
            text.put(lines);
            place = say_given(board, served, &step.seen, place, text);
        }
        mistake = mistake.or(step.seen.mistake);
    }
    if steps.said.is_full() {
        text.give_up();
    }
    mistake
}

// Says what the host is asked by a tag for a chain, and keeps that.
fn say_begun(board: &mut Watched, served: SlotQueue, tag: u8, seen: ChainSeen, text: &mut Text) {
    if let (Some(request), Some((operation, runs))) = (
        &seen.request,
        board.operation(served, tag),
    ) {
        say_asked(text, request, tag, operation, runs);
    }
    board.keep_flight(served, tag, seen);
}
