//! Serving a queue chain by chain, and saying of each what was taken and what came of it.

use crate::device::DeviceName;
use crate::guest::{SlotQueue, queue_of};
use crate::served::{
    MOST_CHAINS, Service, needs_reset, opened_at, place_of, reply_of, say_end, say_used_at,
};
use crate::watched::Watched;
use crate::weave::Text;
use crate::wording::{Ahead, ChainSeen, Lookout, SHOWN, say_received, say_request, used_entry};
use board::{EventKind, Turn};
use chain::{Budget, Chain, Fault};
use std::alloc::Global;

/// A piece of a service has one chain.
const ONE_CHAIN: Budget = Budget {
    chains: Some(1),
    bytes: None,
};

/// Handles an event that serves a queue, and says of each chain what came of it. `output` gets what the console puts out.
pub fn serve(
    board: &mut Watched,
    served: SlotQueue,
    what: &EventKind,
    chain: &mut Chain,
    output: &mut Vec<u8>,
    alloc: Global,
    text: &mut Text,
) -> Service {
    let mut said = Text::new(alloc);
    let mut pause = None;
    let mut mistake = None;
    let first = opened_at(board, served);
    for _ in 0..MOST_CHAINS {
        said.clear();
        let ahead = ahead_of(board, served, pause.is_none(), chain, &mut said);
        let from = output.len();
        let place = place_of(board, served);
        let turn = board.turn(served.slot, what, pause, ONE_CHAIN, output);
        if let (Ahead::Chain(seen), Some(place)) = (ahead, passed(board, served, place)) {
            text.put(said.bytes());
            let put_out = output.as_slice().get(from..);
            say_outcome(board, served, &seen, place, chain, put_out, text);
            mistake = mistake.or(seen.mistake);
        }
        match turn {
            Turn::More(next) => pause = Some(next),
            Turn::Answered(reply) => {
                let fault = fault_of(board, served, ahead, chain, &mut said);
                say_end(board, served, &reply, first, fault, text);
                return Service {
                    reply,
                    fault,
                    mistake,
                };
            }
        }
    }
    let turn = board.turn(served.slot, what, pause, Budget::UNLIMITED, output);
    let (reply, fault) = (reply_of(turn), None);
    Service {
        reply,
        fault,
        mistake,
    }
}

// The place of a queue before a piece of its service, where that piece used it.
fn passed(board: &Watched, served: SlotQueue, place: Option<u16>) -> Option<u16> {
    if place_of(board, served) == place {
        None
    } else {
        place
    }
}

// What the service takes next.
fn ahead_of(
    board: &Watched,
    served: SlotQueue,
    opens: bool,
    chain: &mut Chain,
    text: &mut Text,
) -> Ahead {
    let Some((mem, registers)) = queue_of(board, served) else {
        return Ahead::Nothing;
    };
    let Some(mut lookout) = Lookout::new(registers) else {
        return Ahead::Nothing;
    };
    if opens {
        if let Some(fault) = lookout.open(mem) {
            return Ahead::Fault(fault);
        }
    }
    lookout.next(mem, board.block_device(served), chain, text)
}

// The fault that ended a service, where one did: that of what was ahead, or that of the chain behind it. A window that is
// served doesn't need a reset before.
fn fault_of(
    board: &Watched,
    served: SlotQueue,
    ahead: Ahead,
    chain: &mut Chain,
    said: &mut Text,
) -> Option<Fault> {
    if !needs_reset(board, served) {
        return None;
    }
    if let Ahead::Fault(fault) = ahead {
        return Some(fault);
    }
    match ahead_of(board, served, true, chain, said) {
        // the available idx was written over by the service itself, so which fault it met isn't known
        Ahead::Fault(Fault::Jump) => None,
        Ahead::Fault(fault) => Some(fault),
        _ => None,
    }
}

// Says what came of a chain: what its device did, and the used entry at this place.
fn say_outcome(
    board: &Watched,
    served: SlotQueue,
    seen: &ChainSeen,
    place: u16,
    chain: &Chain,
    put_out: Option<&[u8]>,
    text: &mut Text,
) {
    let Some((mem, registers)) = queue_of(board, served) else {
        return;
    };
    let Some(used) = used_entry(mem, registers, place) else {
        return;
    };
    match (served.device, served.queue, &seen.request) {
        (DeviceName::Block | DeviceName::Further(_), _, Some(request)) => {
            say_request(text, mem, request);
        }
        (DeviceName::Console, 0, _) => say_received(text, mem, chain, used.len),
        _ => {
            text.say("    transmits ");
            let bytes = put_out.unwrap_or(&[]);
            let bytes = bytes.get(..chain.readable_len() as usize).unwrap_or(bytes);
            text.counted(bytes.len() as u64, "byte");
            text.say(" ");
            text.quoted(bytes, SHOWN);
            text.say("\n");
        }
    }
    say_used_at(board, served, place, text);
}
