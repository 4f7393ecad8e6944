//! `guests`: guests on a board, over an image whose listed calls fail; and a heap that may refuse.

mod boards;
mod driver;
mod refusing;
mod runs;
mod snapshots;
mod stops;
mod texts;

use crate::calls::answer::{put_number, put_word};
use crate::calls::memory::regions_of;
use crate::calls::subject::{Answered, Stuck, Subject};
use crate::calls::words::Words;
use board::{Backing, Board, Event, Extent, RegionSpec, Regions, SlotSpec};
pub(crate) use refusing::Refusing;
use sector_cache::ScriptedImage;
use std::alloc::{AllocError, Allocator, Global};
pub(crate) use stops::Stops;
use trace::event_of_line;

/// A board, and what the next one is asked for.
#[derive(Drop)]
pub(crate) struct Guests<H: Refusing> {
    alloc: Global,
    heap: H,
    image: Vec<u8>,
    failing: Vec<u64>,
    slots: Vec<SlotSpec>,
    events: Vec<Event<H>, H>,
    refused: u64,
    board: Option<Board<ScriptedImage, H>>,
}

impl<H: Refusing> Guests<H> {
    pub(crate) fn new(alloc: Global, heap: H) -> Guests<H> {
        Guests {
            alloc,
            heap,
            image: Vec::new(alloc),
            failing: Vec::new(alloc),
            slots: Vec::new(alloc),
            events: Vec::new(heap),
            refused: 0,
            board: None,
        }
    }

    // Begins anew, over an image of so many bytes whose calls of these numbers fail. Each byte of sector k is 10 + k.
    fn begin(&mut self, words: &mut Words<'_>, answer: &mut String) -> Answered {
        let image = image_of(self.alloc, words.u32())?;
        let failing = numbers_of(self.alloc, &words.bytes(self.alloc)?)?;
        *self = Guests::new(self.alloc, self.heap);
        self.image = image;
        self.failing = failing;
        put_word(answer, "ok")
    }

    // Asks for so many guests more.
    fn ask(&mut self, words: &mut Words<'_>, answer: &mut String) -> Answered {
        let times = words.u8();
        let slot = slot_of(self.alloc, words)?;
        for _ in 0..times {
            self.add(&slot)?;
        }
        put_word(answer, "ok")
    }

    // Asks for one guest more.
    fn add(&mut self, slot: &SlotSpec) -> Result<(), AllocError> {
        self.slots.push(*slot)?;
        Ok(())
    }

    // Puts an event behind the list.
    fn plan(&mut self, words: &mut Words<'_>, answer: &mut String) -> Answered {
        self.events.push(event_of(self.heap, words.rest())?)?;
        put_word(answer, "ok")
    }

    /// The call of an event.
    pub(super) fn event(&mut self, line: &str, answer: &mut String) -> Answered {
        self.handle(event_of(self.heap, line)?, answer)
    }
}

impl<H: Refusing> Subject for Guests<H> {
    fn call(&mut self, words: &mut Words<'_>, answer: &mut String) -> Answered {
        match words.name() {
            "image" => self.begin(words, answer),
            "guests" => self.ask(words, answer),
            "up" => self.bring_up(words, answer),
            "event" => self.plan(words, answer),
            "replay" => self.replay(words, answer),
            "used" => put_number(answer, self.heap.used()),
            "board" => self.make_board(words, answer),
            _ => self.call_board(words, answer),
        }
    }
}

// An image of so many bytes, of which each of sector k is 10 + k.
fn image_of(alloc: Global, len: u32) -> Result<Vec<u8>, AllocError> {
    let mut image = Vec::new(alloc);
    for at in 0..len {
        image.push((at / 512 % 16) as u8 | 0x10)?;
    }
    Ok(image)
}

// Bytes as numbers.
fn numbers_of(alloc: Global, bytes: &[u8]) -> Result<Vec<u64>, AllocError> {
    let mut numbers = Vec::new(alloc);
    for byte in bytes {
        numbers.push(u64::from(*byte))?;
    }
    Ok(numbers)
}

// A slot by four words: where its memory begins and how long it is, its first sector, and how many it has; and base and
// length of each further region.
fn slot_of(alloc: Global, words: &mut Words<'_>) -> Result<SlotSpec, Stuck> {
    let (base, len) = (words.u64(), words.u64());
    let (start, count) = (words.u64(), words.u64());
    let mut list = Vec::new(alloc);
    list.push(RegionSpec { base, len })?;
    list.extend_from_slice(&regions_of(alloc, words)?)?;
    let Some(regions) = Regions::new(&list) else {
        return Err(Stuck::Conditions);
    };
    Ok(SlotSpec {
        regions,
        extent: Extent { start, count },
        spare: 0,
        backing: Backing::Image,
        read_only: false,
        cols: 80,
        rows: 25,
        identity: *b"disk-of-the-tests-01",
    })
}

// The event that a line of a trace says.
fn event_of<A: Allocator + Copy>(alloc: A, line: &str) -> Result<Event<A>, Stuck> {
    match event_of_line(alloc, line.as_bytes()) {
        Ok(Some(event)) => Ok(event),
        Ok(None) => Err(Stuck::Words),
        Err(_) => Err(Stuck::NoMemory),
    }
}
