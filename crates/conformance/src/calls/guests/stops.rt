//! `stops`: guests on a board over a medium with a write cache, and what a loss of power leaves of their disks.

use super::boards::{board_of, put_records};
use super::runs::run_some;
use super::{event_of, image_of, slot_of};
use crate::calls::answer::{put_flag, put_word, written};
use crate::calls::subject::{Answered, Stuck, Subject};
use crate::calls::words::Words;
use board::{Board, SlotSpec};
use std::alloc::Global;
use test_support::{Moment, WriteBackImage};

/// A board over a write cache, and what the next one is asked for.
#[derive(Drop)]
pub(crate) struct Stops {
    alloc: Global,
    image: Vec<u8>,
    slots: Vec<SlotSpec>,
    board: Option<Board<WriteBackImage>>,
    /// How many moments were recorded before the last event.
    before: usize,
}

impl Stops {
    pub(crate) fn new(alloc: Global) -> Stops {
        Stops {
            alloc,
            image: Vec::new(alloc),
            slots: Vec::new(alloc),
            board: None,
            before: 0,
        }
    }

    // Begins anew, over an image of so many bytes. Each byte of sector k is 10 + k.
    fn begin(&mut self, words: &mut Words<'_>, answer: &mut String) -> Answered {
        *self = Stops::new(self.alloc);
        self.image = image_of(self.alloc, words.u32())?;
        put_word(answer, "ok")
    }

    // Asks for one guest more.
    fn ask(&mut self, words: &mut Words<'_>, answer: &mut String) -> Answered {
        self.slots.push(slot_of(self.alloc, words)?)?;
        put_word(answer, "ok")
    }

    // Makes the board.
    fn make(&mut self, words: &mut Words<'_>, answer: &mut String) -> Answered {
        let bytes = self.image.to_vec(self.alloc)?;
        let Ok(image) = WriteBackImage::new(self.alloc, bytes) else {
            return Err(Stuck::Conditions);
        };
        match board_of(self.alloc, &self.slots, image, words.u32()) {
            Ok(board) => {
                self.board = Some(board);
                put_word(answer, "ok")
            }
            Err(refused) => written(write!(answer, "{:?}", refused.why)),
        }
    }

    // Handles an event: its record.
    fn event(&mut self, line: &str, answer: &mut String) -> Answered {
        let mut events = Vec::with_capacity(self.alloc, 1)?;
        events.push(event_of(self.alloc, line)?)?;
        let mut records = Vec::with_capacity(self.alloc, 1)?;
        let Some(board) = &mut self.board else {
            return Err(Stuck::Conditions);
        };
        self.before = board.image().past().len();
        if run_some(board, &events, &mut records) != events.len() {
            return Err(Stuck::NoMemory);
        }
        put_records(self.alloc, &records, answer)
    }

    // What a stop leaves: now, or at each moment that the last event recorded.
    fn left(&self, within: bool, answer: &mut String) -> Answered {
        let Some(board) = &self.board else {
            return Err(Stuck::Conditions);
        };
        let image = board.image();
        if within {
            put_moments(answer, image.past(), self.before)
        } else {
            put_left(answer, image.bytes(), image.waiting())
        }
    }

    // Whether there was no memory to record a moment.
    fn has_lost(&self, answer: &mut String) -> Answered {
        match &self.board {
            Some(board) => put_flag(answer, board.image().has_lost()),
            None => Err(Stuck::Conditions),
        }
    }
}

impl Subject for Stops {
    fn call(&mut self, words: &mut Words<'_>, answer: &mut String) -> Answered {
        match words.name() {
            "image" => self.begin(words, answer),
            "guest" => self.ask(words, answer),
            "board" => self.make(words, answer),
            "left" => self.left(false, answer),
            "within" => self.left(true, answer),
            "lost" => self.has_lost(answer),
            _ => self.event(words.whole(), answer),
        }
    }
}

// What a stop leaves at each moment from this one on, or that there is none.
fn put_moments(answer: &mut String, past: &[Moment], from: usize) -> Answered {
    if past.len() == from {
        return put_word(answer, "-");
    }
    for (at, moment) in past.iter().enumerate() {
        if at >= from {
            put_word(answer, if at > from { " " } else { "" })?;
            put_left(answer, &moment.bytes, &moment.waiting)?;
        }
    }
    Ok(())
}

// The first byte of each sector, or ?? for one in which any bytes may stand.
fn put_left(answer: &mut String, bytes: &[u8], waiting: &[bool]) -> Answered {
    for (sector, waits) in bytes.chunks(512).zip(waiting) {
        match sector.first() {
            Some(byte) if !*waits => written(write!(answer, "{byte:02x}"))?,
            _ => put_word(answer, "??")?,
        }
    }
    Ok(())
}
