//! A look before it is made: which chains it should take, and what it should meet then.
//!
//! It is asked of a copy of the ring, over a memory with what the look itself should write.

use crate::guest::{SlotQueue, queue_of};
use crate::served::MOST_CHAINS;
use crate::trial::Trial;
use crate::watched::Watched;
use crate::weave::Text;
use crate::wording::{Ahead, ChainSeen, Lookout};
use board::HostEvent;
use chain::Chain;
use std::alloc::Global;

/// A chain that a look should take, and where the lines on it end.
#[derive(Clone, Copy)]
pub struct Step {
    pub seen: ChainSeen,
    pub end: usize,
}

/// The chains that a look should take, and the lines on them.
#[derive(Drop)]
pub struct Steps {
    alloc: Global,
    pub list: Vec<Step>,
    pub said: Text,
}

impl Steps {
    /// None. This takes no memory.
    pub fn new(alloc: Global) -> Steps {
        Steps {
            alloc,
            list: Vec::new(alloc),
            said: Text::new(alloc),
        }
    }

    // Notes a chain, of which all is said that is known before.
    fn note(&mut self, seen: ChainSeen) {
        let end = self.said.bytes().len();
        if self.list.push(Step { seen, end }).is_err() {
            self.said.give_up();
        }
    }
}

/// What a look should take, once this chain is back, up to the last free tag; and what it then meets. A queue on hold isn't
/// looked at until its release.
pub fn foresee(
    board: &mut Watched,
    served: SlotQueue,
    told: Option<HostEvent>,
    landed: Option<ChainSeen>,
    chain: &mut Chain,
    steps: &mut Steps,
) -> Ahead {
    if board.is_on_hold(served) && !matches!(told, Some(HostEvent::Release)) {
        return Ahead::Nothing;
    }
    let Some(mut lookout) = lookout_behind(board, served, landed) else {
        return Ahead::Nothing;
    };
    let mut trial = Trial::new(steps.alloc, board, served);
    if let (Some(seen), Some(HostEvent::Complete { verdict, .. })) = (landed, told) {
        trial.land(board, &seen, verdict);
    }
    let end = walk(board, served, &mut lookout, chain, steps, &mut trial);
    if !trial.take_back(board) {
        steps.said.give_up();
    }
    end
}

// The same of a queue whose ring is copied.
fn walk(
    board: &mut Watched,
    served: SlotQueue,
    lookout: &mut Lookout,
    chain: &mut Chain,
    steps: &mut Steps,
    trial: &mut Trial,
) -> Ahead {
    let mut free = board.free_tags(served);
    let mut opens = true;
    for _ in 0..MOST_CHAINS {
        let (Some(mem), Some(device)) = (board.memory(served.slot), board.block_device(served))
        else {
            return Ahead::Nothing;
        };
        if opens {
            if let Some(fault) = lookout.open(mem) {
                return Ahead::Fault(fault);
            }
            opens = false;
        }
        match lookout.next(mem, Some(device), chain, &mut steps.said) {
            Ahead::Chain(seen) if seen.asks_host() => {
                steps.note(seen);
                free = free.saturating_sub(1);
                if free == 0 {
                    return Ahead::Nothing;
                }
            }
            Ahead::Chain(seen) => {
                steps.note(seen);
                trial.serve(board, &device, &seen, chain);
            }
            end => return end,
        }
    }
    Ahead::Nothing
}

// A copy of a queue's ring, once this chain is back.
fn lookout_behind(
    board: &Watched,
    served: SlotQueue,
    landed: Option<ChainSeen>,
) -> Option<Lookout> {
    let (_, registers) = queue_of(board, served)?;
    let lookout = Lookout::new(registers)?;
    match landed {
        Some(seen) => lookout.landed(seen.places),
        None => Some(lookout),
    }
}
