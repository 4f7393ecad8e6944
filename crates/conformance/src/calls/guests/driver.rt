//! A driver that brings a device up: the block device, the console, or a further device by its number.

use super::{Guests, Refusing};
use crate::calls::answer::put_word;
use crate::calls::subject::Answered;
use crate::calls::words::Words;

/// What a driver writes that accepts VERSION_1 alone (3.1.1): offsets and values.
static NEGOTIATED: [(u16, u32); 5] = [
    (0x070, 0x1),
    (0x070, 0x3),
    (0x024, 1),
    (0x020, 1),
    (0x070, 0xb),
];

/// What it writes to make the queue ready that it selected (4.2.3.2).
static READY: [(u16, u32); 5] = [
    (0x080, 0x8000_1000),
    (0x090, 0x8000_2000),
    (0x0a0, 0x8000_3000),
    (0x044, 1),
    (0x070, 0xf),
];

impl<H: Refusing> Guests<H> {
    /// A driver brings a device of a slot up with one queue, of so many entries.
    pub(super) fn bring_up(&mut self, words: &mut Words<'_>, answer: &mut String) -> Answered {
        let (slot, window) = (words.word(), words.word());
        let queue = [(0x030, words.u32()), (0x038, words.u32())];
        self.write_all(slot, window, &NEGOTIATED)?;
        self.write_all(slot, window, &queue)?;
        self.write_all(slot, window, &READY)?;
        put_word(answer, "ok")
    }

    // Writes registers of a window, or of a further device by its number: offsets and values.
    fn write_all(&mut self, slot: &str, window: &str, writes: &[(u16, u32)]) -> Answered {
        let word = match window {
            "b" | "c" => "w",
            _ => "dw",
        };
        for (offset, value) in writes {
            let line = format!(in self.alloc; "{word} {slot} {window} {offset:03x} 4 {value:08x}")?;
            self.event(line.as_str(), &mut String::new(self.alloc))?;
        }
        Ok(())
    }
}
