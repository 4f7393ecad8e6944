//! A board: made, refused, and what its events are answered.

ghost use Rattle.std.specs.Prelude.{All};
ghost use Rattle.board.specs.Line.{HasInterruptWords};

use super::runs::run_some;
use super::{Guests, Refusing};
use crate::calls::answer::{put_flag, put_number, put_word, written};
use crate::calls::subject::{Answered, Stuck};
use crate::calls::words::Words;
use board::{Board, BoardFault, Event, Image, Record, Refused, SlotSpec};
use sector_cache::ScriptedImage;
use std::alloc::Allocator;
use std::str;
use trace::print_records;

/// The board of guests, or why it is refused and whether the image comes back as it was.
pub(super) type Made<H> = Result<Board<ScriptedImage, H>, (BoardFault, bool)>;

impl<H: Refusing> Guests<H> {
    /// Makes a call of a board, or another one.
    pub(super) fn call_board(&mut self, words: &mut Words<'_>, answer: &mut String) -> Answered {
        match words.name() {
            "boards" => self.boards(words, answer),
            "disturbed" => self.disturbed(words, answer),
            "refuse_from" => self.refuse_from(words, answer),
            "runs_alone" => self.runs(words, true, answer),
            "runs_on" => self.runs(words, false, answer),
            "record" => put_number(answer, size_of::<Record>() as u64),
            _ => self.call_snapshots(words, answer),
        }
    }

    // From now on the nth request for memory of each event is refused, and those behind it.
    fn refuse_from(&mut self, words: &mut Words<'_>, answer: &mut String) -> Answered {
        self.refused = words.u64();
        put_word(answer, "ok")
    }

    /// The board that was asked for.
    pub(super) fn made(&self, cache: u32) -> Result<Made<H>, Stuck> {
        let failing = self.failing.to_vec(self.alloc)?;
        let Ok(image) = ScriptedImage::new(self.image.to_vec(self.alloc)?, failing) else {
            return Err(Stuck::Conditions);
        };
        Ok(match board_of(self.heap, &self.slots, image, cache) {
            Ok(board) => Ok(board),
            Err(refused) => Err((refused.why, refused.image.bytes() == self.image.as_slice())),
        })
    }

    /// Makes it, while a request for memory is refused.
    pub(super) fn make_board(&mut self, words: &mut Words<'_>, answer: &mut String) -> Answered {
        self.board = None;
        match self.made(words.u32())? {
            Ok(board) => {
                self.board = Some(board);
                put_word(answer, "ok")
            }
            Err((why, same)) => {
                let end = if same { "" } else { " and another image" };
                written(write!(answer, "{why:?}{end}"))
            }
        }
    }

    /// Handles an event, with room for its record and the nth request for other memory refused: the record.
    pub(super) fn handle(&mut self, event: Event<H>, answer: &mut String) -> Answered {
        let mut records = Vec::with_capacity(self.heap, 1)?;
        if !self.run_one(event, &mut records)? {
            return Err(Stuck::NoMemory);
        }
        put_records(self.heap, &records, answer)
    }

    // Handles it, and appends its record: whether there was room for that.
    fn run_one(&mut self, event: Event<H>, records: &mut Vec<Record<H>, H>) -> Result<bool, Stuck>
        requires { All HasInterruptWords records.old.items }
        ensures { All HasInterruptWords records.new.items }
    {
        let mut events = Vec::with_capacity(self.heap, 1)?;
        events.push(event)?;
        let Some(board) = &mut self.board else {
            return Err(Stuck::Conditions);
        };
        self.heap.refuse_from(self.refused);
        let done = run_some(board, &events, records);
        self.heap.refuse_from(0);
        Ok(done == events.len())
    }

    /// Whether a slot has met a refusal.
    fn disturbed(&self, words: &mut Words<'_>, answer: &mut String) -> Answered {
        let Some(board) = &self.board else {
            return Err(Stuck::Conditions);
        };
        match board.disturbed(words.u8()) {
            Some(flag) => put_flag(answer, flag),
            None => put_word(answer, "none"),
        }
    }

    /// Makes the board with each request for memory refused, and those behind it: `ok` where each time it is refused for
    /// want of memory, the image comes back, and so does all memory; and where each slot takes some.
    fn boards(&self, words: &mut Words<'_>, answer: &mut String) -> Answered {
        let cache = words.u32();
        let used = self.heap.used();
        let (_, requests) = self.refused_at(0, cache)?;
        for n in 1..=requests {
            let (refusal, _) = self.refused_at(n, cache)?;
            if refusal != Some((BoardFault::NoMemory, true)) || self.heap.used() != used {
                return put_number(answer, n);
            }
        }
        let is_enough = requests > self.slots.len() as u64;
        put_word(answer, if is_enough { "ok" } else { "too few" })
    }

    // Makes it with the nth request refused: why there is no board, and how many requests there were.
    fn refused_at(&self, n: u64, cache: u32) -> Result<(Option<(BoardFault, bool)>, u64), Stuck> {
        self.heap.refuse_from(n);
        let refusal = self.made(cache)?.err();
        let requests = self.heap.requests();
        self.heap.refuse_from(0);
        Ok((refusal, requests))
    }
}

/// Makes a board. What `new` promises isn't needed here, and is dear to prove of an image and a heap.
pub(super) fn board_of<I: Image, A: Allocator + Copy>(
    heap: A,
    slots: &[SlotSpec],
    image: I,
    cache: u32,
) -> Result<Board<I, A>, Refused<I, BoardFault>> {
    Board::new(heap, slots, image, cache)
}

/// The lines of records, without the last one's end.
pub(super) fn put_records<A: Allocator>(
    alloc: A,
    records: &[Record<A>],
    answer: &mut String,
) -> Answered
    requires { All HasInterruptWords records.now }
{
    let Ok(bytes) = print_records(alloc, records) else {
        return Err(Stuck::NoMemory);
    };
    match str::from_utf8(&bytes) {
        Ok(text) => put_word(answer, text.trim_end()),
        Err(_) => Err(Stuck::Conditions),
    }
}
