//! What is said of the events of a trace, one after another, by a watcher that goes along with them.

use crate::watch::Watcher;
use crate::watched::Watched;
use crate::weave::{Tell, Text, take_line};
use replay::limit_memories;
use sector_cache::MemoryImage;
use std::alloc::Global;
use trace::{event_of_line, read_trace};

/// What was said last of the events of a trace, and those that are left.
#[derive(Drop)]
pub struct Teller<'t> {
    alloc: Global,
    watcher: Option<Watcher>,
    /// The lines of the events that are left, and the number of the first.
    lines: &'t [u8],
    number: u64,
    /// What the last event was, and what came of it.
    head: Text,
    tail: Text,
}

impl<'t> Teller<'t> {
    /// One for a trace's text, over the image as it is before. It has said the board. Of a text that isn't a trace's it says
    /// nothing, and wants memory at its first event.
    pub fn new(alloc: Global, text: &'t [u8], before: MemoryImage) -> Teller<'t> {
        let (front, lines, number) = cut(text);
        let mut tail = Text::new(alloc);
        let watcher = watcher_of(alloc, front, before, &mut tail);
        Teller {
            alloc,
            watcher,
            lines,
            number,
            head: Text::new(alloc),
            tail,
        }
    }
}

impl Tell for Teller<'_> {
    fn head(&self) -> &Text {
        &self.head
    }

    fn tail(&self) -> &Text {
        &self.tail
    }

    fn next(&mut self) {
        self.head.clear();
        self.tail.clear();
        let Some(watcher) = &mut self.watcher else {
            self.head.give_up();
            return;
        };
        let Some((line, after)) = take_line(self.lines) else {
            return;
        };
        match event_of_line(self.alloc, line) {
            Ok(Some(event)) => watcher.event(self.number, &event, &mut self.head, &mut self.tail),
            Ok(None) => {}
            Err(_) => self.head.give_up(),
        }
        self.lines = after;
        self.number = self.number.wrapping_add(1);
    }

    fn end(&mut self) {
        self.head.clear();
        self.tail.clear();
        match &self.watcher {
            Some(watcher) => watcher.say_end(&mut self.head),
            None => self.head.give_up(),
        }
    }
}

// A watcher on the board of what stands before a trace's events, where there is one. It says that board.
fn watcher_of(
    alloc: Global,
    front: &[u8],
    before: MemoryImage,
    text: &mut Text,
) -> Option<Watcher> {
    let mut trace = read_trace(alloc, front).ok()?;
    limit_memories(trace.format, &mut trace.slots);
    let board = Watched::new(alloc, &trace.slots, before, trace.cache)?;
    let watcher = Watcher::new(alloc, board).ok()?;
    watcher.say_board(&trace, text);
    Some(watcher)
}

// The lines before the first event, the events' own, and the number of the first of these.
fn cut(text: &[u8]) -> (&[u8], &[u8], u64) {
    let mut rest = text;
    let mut number: u64 = 1;
    while let Some((line, after)) = take_line(rest) {
        let is_event = number > 2 && !line.starts_with(b"slot ");
        if is_event {
            break;
        }
        number = number.wrapping_add(1);
        rest = after;
    }
    let front = text.len().saturating_sub(rest.len());
    match text.get(..front) {
        Some(front) => (front, rest, number),
        None => (text, &[], number),
    }
}
