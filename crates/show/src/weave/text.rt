//! Text that is being put together. Want of memory is kept in mind and asked for at the end.

ghost use Rattle.std.specs.Prelude.{◌≡◌, ◌++◌, [], false};

use std::alloc::Global;
use std::marker::Model;

/// Text that grows. Where there is no memory for more it is full, and takes nothing from then on.
#[derive(Drop)]
pub struct Text {
    bytes: Vec<u8>,
    is_full: bool,
}

impl Model for Text {
    ghost use Rattle.show.specs.Text.{Said};

    ghost Value = { Said };

    ghost view = { λ text. record { bytes = text.bytes.items; is_full = text.is_full } };
}

/// The digits of numbers.
const DIGITS: [u8; 16] = *b"0123456789abcdef";

impl Text {
    /// No text. This takes no memory.
    pub fn new(alloc: Global) -> Text
        ensures { result.bytes ≡ [] }
    {
        Text {
            bytes: Vec::new(alloc),
            is_full: false,
        }
    }

    /// The text so far.
    pub fn bytes(&self) -> &[u8]
        ensures { result.now ≡ self.now.bytes }
    {
        self.bytes.as_slice()
    }

    /// Whether there was no memory for some of it.
    pub fn is_full(&self) -> bool
        ensures { result ≡ self.now.is_full }
    {
        self.is_full
    }

    /// Notes that there was no memory for some of it.
    pub fn give_up(&mut self) {
        self.is_full = true;
    }

    /// Takes all text out.
    pub fn clear(&mut self)
        ensures empty { self.new.bytes ≡ [] }
        ensures full { self.new.is_full ≡ self.old.is_full }
    {
        self.bytes.clear();
    }

    /// Appends bytes.
    pub fn put(&mut self, bytes: &[u8])
        ensures put { self.new.is_full ≡ false → self.new.bytes ≡ self.old.bytes ++ bytes.now }
        ensures before { self.new.is_full ≡ false → self.old.is_full ≡ false }
    {
        if self.is_full || self.bytes.extend_from_slice(bytes).is_err() {
            self.is_full = true;
        }
    }

    /// Appends another text. Where that is full, so is this then.
    pub fn take(&mut self, other: &Text)
        ensures put { self.new.is_full ≡ false → self.new.bytes ≡ self.old.bytes ++ other.now.bytes }
        ensures before { self.new.is_full ≡ false → self.old.is_full ≡ false }
    {
        self.put(other.bytes());
        if other.is_full {
            self.is_full = true;
        }
    }

    /// Appends words.
    pub fn say(&mut self, words: &str) {
        self.put(words.as_bytes());
    }

    /// Appends a number by hexadecimal digits, without zeros in front.
    pub fn hex(&mut self, number: u64) {
        let mut digits = [b'0'; 16];
        let mut rest = number;
        let mut from = 16;
        for place in (0..16).rev() {
            digits[place] = DIGITS[(rest % 16) as usize];
            rest /= 16;
            from = place;
            if rest == 0 {
                break;
            }
        }
        self.put(digits.get(from..).unwrap_or(&[]));
    }

    /// Appends a number by decimal digits.
    pub fn count(&mut self, number: u64) {
        let mut digits = itoa::Buffer::new();
        self.say(digits.format(number));
    }

    /// Appends a count of things: `1 byte`, `2 bytes`.
    pub fn counted(&mut self, number: u64, thing: &str) {
        self.count(number);
        self.say(" ");
        self.say(thing);
        if number != 1 {
            self.say("s");
        }
    }

    /// Appends bytes in quotes, at most `most` of them, those that aren't printable in hexadecimal.
    pub fn quoted(&mut self, bytes: &[u8], most: usize) {
        self.say("\"");
        for byte in bytes.iter().take(most) {
            self.shown(*byte);
        }
        self.say(if bytes.len() > most { "..\"" } else { "\"" });
    }

    // Appends a byte as it stands in quotes.
    fn shown(&mut self, byte: u8) {
        match byte {
            b'\n' => self.say("\\n"),
            b'\r' => self.say("\\r"),
            b'\t' => self.say("\\t"),
            b'"' => self.say("\\\""),
            b'\\' => self.say("\\\\"),
            b' '..=b'~' => self.put(&[byte]),
            _ => {
                self.say("\\x");
                self.pair(byte);
            }
        }
    }

    /// Appends bytes by two hexadecimal digits each, at most `most` of them.
    pub fn pairs(&mut self, bytes: &[u8], most: usize) {
        for byte in bytes.iter().take(most) {
            self.pair(*byte);
        }
        if bytes.len() > most {
            self.say("..");
        }
    }

    // Appends a byte by two hexadecimal digits.
    fn pair(&mut self, byte: u8) {
        self.put(&[
            DIGITS[usize::from(byte / 16)],
            DIGITS[usize::from(byte % 16)],
        ]);
    }
}
