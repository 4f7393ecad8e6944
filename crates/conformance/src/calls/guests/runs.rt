//! Runs of which each request for memory is refused in turn.

ghost use Rattle.std.specs.Prelude.{◌≤◌, All, length};
ghost use Rattle.board.specs.Line.{HasInterruptWords};

use super::{Guests, Refusing};
use crate::calls::answer::{put_number, written};
use crate::calls::subject::{Answered, Stuck};
use crate::calls::words::Words;
use board::{Board, Event, Image, Record, Reply};
use std::alloc::Allocator;

/// What a run came to of which a request for memory was refused.
#[derive(Drop)]
struct Tried<H: Refusing> {
    records: Vec<Record<H>, H>,
    has_stopped: bool,
    is_noted: bool,
    requests: u64,
}

impl<H: Refusing> Guests<H> {
    /// Runs the list over new boards, each with another request for memory refused, alone or with all behind it until the run
    /// stops, and goes on with ample memory: how often a run stops, and how often an event finds no memory. Where another
    /// record isn't that of ample memory, or what is noted of a slot is wrong: the request's number.
    pub(super) fn runs(&self, words: &mut Words<'_>, alone: bool, answer: &mut String) -> Answered {
        let cache = words.u32();
        let ample = self.tried(cache, alone, 0)?;
        let (mut stops, mut lacks) = (0u64, 0u64);
        for n in 1..=ample.requests {
            let tried = self.tried(cache, alone, n)?;
            let found = lacking(&tried.records, &ample.records);
            if found.is_none() || !tried.is_noted {
                return put_number(answer, n);
            }
            stops = stops.saturating_add(u64::from(tried.has_stopped));
            lacks = lacks.saturating_add(found.unwrap_or(0));
        }
        written(write!(answer, "{stops:x} stop, {lacks:x} without memory"))
    }

    // Runs the list with the nth request refused, and goes on from where it stops.
    fn tried(&self, cache: u32, alone: bool, n: u64) -> Result<Tried<H>, Stuck> {
        let Ok(mut board) = self.made(cache)? else {
            return Err(Stuck::Conditions);
        };
        let mut records = Vec::new(self.heap);
        if alone {
            self.heap.refuse_only(n);
        } else {
            self.heap.refuse_from(n);
        }
        let done = run_some(&mut board, &self.events, &mut records);
        let requests = self.heap.requests();
        self.heap.refuse_from(0);
        let _ = run_some(&mut board, &self.events[done..], &mut records);
        let is_noted = is_noted(&board, &records);
        Ok(Tried {
            records,
            has_stopped: done < self.events.len(),
            is_noted,
            requests,
        })
    }
}

/// Runs events as far as there is memory for their records: how many are done, as the stop says. What `run` promises of
/// them isn't needed here, and is dear to prove of this image and this heap.
pub(super) fn run_some<I: Image, A: Allocator + Copy>(
    board: &mut Board<I, A>,
    events: &[Event<A>],
    records: &mut Vec<Record<A>, A>,
) -> usize
    requires { All HasInterruptWords records.old.items }
    ensures few { result ≤ length events.now }
    ensures words { All HasInterruptWords records.new.items }
{
    match board.run(events, records) {
        Ok(()) => events.len(),
        Err(stop) => stop.done,
    }
}

// Is it noted of each slot whether one of its records tells that there was no memory?
fn is_noted<I: Image, A: Allocator>(board: &Board<I, A>, records: &[Record<A>]) -> bool {
    for slot in 0..=u8::MAX {
        let lacks = records.iter().any(|entry| entry.slot == slot
            && entry.reply == Reply::NoMemory);
        if board.disturbed(slot).is_some_and(|noted| noted != lacks) {
            return false;
        }
    }
    true
}

// How many records tell that there was no memory, where every other is that of ample memory.
fn lacking<A: Allocator>(records: &[Record<A>], ample: &[Record<A>]) -> Option<u64> {
    if records.len() != ample.len() {
        return None;
    }
    let mut count = 0u64;
    for (entry, wanted) in records.iter().zip(ample) {
        if entry.reply == Reply::NoMemory {
            count = count.saturating_add(1);
        } else if entry != wanted {
            return None;
        }
    }
    Some(count)
}
