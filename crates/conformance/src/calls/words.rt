//! The words of a call.

ghost use Rattle.std.specs.Prelude.{◌≤◌};

use crate::calls::subject::{Answered, Stuck};
use std::alloc::Global;

/// The words that are left of a call. One that is missing or wrong counts as an empty one, as 0 or as the second of two, and
/// that is told once the call is made.
#[derive(Clone, Copy)]
pub(crate) struct Words<'a> {
    call: &'a str,
    name: &'a str,
    left: Option<&'a str>,
    is_wrong: bool,
}

impl<'a> Words<'a> {
    /// The words of this call, of which the first is its name.
    pub(crate) fn new(call: &'a str) -> Words<'a> {
        let mut words = Words {
            call,
            name: "",
            left: Some(call),
            is_wrong: false,
        };
        words.name = words.word();
        words
    }

    /// The call's name.
    pub(crate) fn name(&self) -> &'a str {
        self.name
    }

    /// The next word.
    pub(crate) fn word(&mut self) -> &'a str {
        let left = self.rest();
        match left.split_once(' ') {
            Some((word, others)) => {
                self.left = Some(others);
                word
            }
            None => left,
        }
    }

    /// Whether no word is left.
    pub(crate) fn is_done(&self) -> bool {
        self.left.is_none()
    }

    /// All that is left, as it stands: no word is left then.
    pub(crate) fn rest(&mut self) -> &'a str {
        match self.left.take() {
            Some(left) => left,
            None => {
                self.is_wrong = true;
                ""
            }
        }
    }

    /// The whole call, as it stands: no word is left then.
    pub(crate) fn whole(&mut self) -> &'a str {
        self.left = None;
        self.call
    }

    /// Which of two words the next one is: whether it is the first.
    pub(crate) fn choice(&mut self, first: &str, second: &str) -> bool {
        let word = self.word();
        if word != first && word != second {
            self.is_wrong = true;
        }
        word == first
    }

    /// The next word as a hexadecimal number.
    pub(crate) fn u64(&mut self) -> u64 {
        self.number(u64::MAX)
    }

    /// The same of 32 bits.
    pub(crate) fn u32(&mut self) -> u32 {
        self.number(0xffff_ffff) as u32
    }

    /// The same of 16 bits.
    pub(crate) fn u16(&mut self) -> u16 {
        self.number(0xffff) as u16
    }

    /// The same of 8 bits.
    pub(crate) fn u8(&mut self) -> u8 {
        self.number(0xff) as u8
    }

    // The next word as a hexadecimal number, which is at most this one.
    fn number(&mut self, most: u64) -> u64
        ensures { result ≤ most }
    {
        match u64::from_str_radix(self.word(), 16) {
            Ok(number) if number <= most => number,
            _ => {
                self.is_wrong = true;
                0
            }
        }
    }

    /// The next word as bytes: `-` for none, else two hexadecimal digits a byte.
    pub(crate) fn bytes(&mut self, alloc: Global) -> Result<Vec<u8>, Stuck> {
        let word = self.word();
        if word == "-" {
            return Ok(Vec::new(alloc));
        }
        match hex::decode(alloc, word) {
            Ok(bytes) => Ok(bytes),
            Err(_) => Err(Stuck::Words),
        }
    }

    /// What came of the call of these words: `Stuck::Words` where one was wrong, or is left behind a call that was made.
    pub(crate) fn judge(self, made: Answered) -> Answered {
        if self.is_wrong || made.is_ok() && self.left.is_some() {
            Err(Stuck::Words)
        } else {
            made
        }
    }
}
