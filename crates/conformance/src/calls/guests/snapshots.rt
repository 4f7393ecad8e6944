//! A slot of a board, saved as a snapshot and restored.

use super::{Guests, Refusing};
use crate::calls::answer::{put_bytes, put_number, put_result, put_word};
use crate::calls::subject::{Answered, Stuck};
use crate::calls::words::Words;
use board::{Board, Bytes, Event, EventKind, Image, RestoreRefusal, SaveRefusal};
use std::alloc::{AllocError, Allocator};

impl<H: Refusing> Guests<H> {
    /// Makes a call of snapshots, or that of an event.
    pub(super) fn call_snapshots(
        &mut self,
        words: &mut Words<'_>,
        answer: &mut String,
    ) -> Answered {
        match words.name() {
            "save" => self.save(words, answer),
            "save_into" => self.save_into(words, answer),
            "restore" => self.restore(words, answer),
            "restore_event" => self.restore_event(words, answer),
            _ => self.event(words.whole(), answer),
        }
    }

    // The snapshot of a slot.
    fn save(&self, words: &mut Words<'_>, answer: &mut String) -> Answered {
        let Some(board) = &self.board else {
            return Err(Stuck::Conditions);
        };
        match saved(self.heap, board, words.u8())? {
            Some(bytes) => put_bytes(self.alloc, answer, &bytes),
            None => put_word(answer, "none"),
        }
    }

    // A slot is saved into a buffer of so many bytes.
    fn save_into(&self, words: &mut Words<'_>, answer: &mut String) -> Answered {
        let Some(board) = &self.board else {
            return Err(Stuck::Conditions);
        };
        let slot = words.u8();
        let mut into = vec![in self.heap; 0; words.u32() as usize]?;
        match saved_into(board, slot, &mut into) {
            Ok(len) => put_number(answer, len as u64),
            Err(why) => put_result(answer, Err(why)),
        }
    }

    // A slot takes up a snapshot.
    fn restore(&mut self, words: &mut Words<'_>, answer: &mut String) -> Answered {
        let slot = words.u8();
        let bytes = words.bytes(self.alloc)?;
        let Some(board) = &mut self.board else {
            return Err(Stuck::Conditions);
        };
        match restored(board, slot, &bytes) {
            Err(RestoreRefusal::BadSlot) => put_word(answer, "none"),
            Err(RestoreRefusal::Fault(why)) => put_result(answer, Err(why)),
            outcome => put_result(answer, outcome),
        }
    }

    // The event of that.
    fn restore_event(&mut self, words: &mut Words<'_>, answer: &mut String) -> Answered {
        let slot = words.u8();
        let from = words.bytes(self.alloc)?;
        let what = EventKind::Restore {
            bytes: Bytes::from(from.to_vec(self.heap)?),
        };
        self.handle(Event { slot, what }, answer)
    }
}

// The snapshot of a slot, where it is there.
fn saved<I: Image, A: Allocator + Copy>(
    heap: A,
    board: &Board<I, A>,
    slot: u8,
) -> Result<Option<Vec<u8, A>>, AllocError> {
    let Ok(len) = board.saved_len(slot) else {
        return Ok(None);
    };
    let mut bytes = vec![in heap; 0; len]?;
    match board.save(slot, &mut bytes) {
        Ok(_) => Ok(Some(bytes)),
        Err(_) => Ok(None),
    }
}

// What these calls promise isn't needed here.
fn saved_into<I: Image, A: Allocator>(
    board: &Board<I, A>,
    slot: u8,
    into: &mut [u8],
) -> Result<usize, SaveRefusal> {
    board.save(slot, into)
}

fn restored<I: Image, A: Allocator>(
    board: &mut Board<I, A>,
    slot: u8,
    from: &[u8],
) -> Result<(), RestoreRefusal> {
    board.restore(slot, from)
}
