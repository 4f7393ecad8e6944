//! Validating a whole text, line after line. No event is kept.

ghost use Rattle.std.specs.Prelude.{◌≡◌, ◌≢◌, ◌≤◌, nat_lt, if◌then◌else◌, IfOk, IfErr, OnOk};
ghost use Rattle.trace.specs.Validating.{IsValidated, ValidatesFirst, ValidatesLine, RefusesFirst, validation};
ghost use Rattle.trace.specs.Refusals.{RefusesLine};
ghost use Rattle.trace.specs.Reading.{IsTraceFault};

use crate::fault::{FaultKind, TraceFault};
use crate::format::Format;
use crate::read::after_head;
use crate::read::cut::take_line;
use crate::read::entry::{Entry, entry_of};
use crate::read::fast_path::skip_fast;
use board::SlotSpec;
use std::alloc::{Allocator, Global};

/// What is kept of a text that is a trace's.
#[derive(Drop)]
pub struct Validated<'a, A: Allocator = Global> {
    pub format: Format,
    pub cache: u32,
    pub slots: Vec<SlotSpec, A>,
    /// The lines of its events.
    pub events: &'a [u8],
    /// How many bytes one of them spells at most, and which line that is.
    pub longest: usize,
    pub longest_line: u64,
}

/// Validates a text: it is a trace's, or has this fault. A `line` beside a fault is numbered from 1.
pub fn validate<A: Allocator + Copy>(alloc: A, text: &[u8]) -> Result<Validated<'_, A>, TraceFault>
    ensures ok { IfOk result (λ j. IsValidated A text.now (validation j)) }
    ensures fault { IfErr result (λ e. IsTraceFault A text.now e) }
{
    let (format, cache, mut rest) = after_head(text)?;
    let mut validated = Validated {
        format,
        cache,
        slots: Vec::new(alloc),
        events: rest,
        longest: 0,
        longest_line: 1,
    };
    let mut line = 3;
    while !rest.is_empty() {
        match validated.validate_first(alloc, line, rest) {
            Ok(after) => rest = after,
            Err(kind) => return Err(TraceFault { line, kind }),
        }
        line += 1;
    }
    Ok(validated)
}

impl<'a, A: Allocator + Copy> Validated<'a, A> {
    /// The fault where there is no room for the bytes of a line.
    pub fn no_room(&self) -> TraceFault
        ensures line { result.line ≡ self.now.longest_line }
        ensures kind { result.kind ≡ FaultKind.NoMemory }
    {
        TraceFault {
            line: self.longest_line,
            kind: FaultKind::NoMemory,
        }
    }

    // Validates the first line of what is left of the text, and answers what follows it.
    fn validate_first(&mut self, alloc: A, line: u64, text: &'a [u8]) -> Result<&'a [u8], FaultKind>
        requires numbered { 1 ≤ line }
        ensures ok { IfOk result (λ after. ValidatesFirst A text.now after.now (validation self.old) (validation self.new)) }
        ensures err { IfErr result (λ fault. fault ≢ FaultKind.NoMemory → RefusesFirst (validation self.old) text.now fault) }
    {
        if let Some((len, after)) = skip_fast(alloc, text) {
            self.count(line, len);
            return Ok(after);
        }
        let Some((this, after)) = take_line(text) else {
            return Err(FaultKind::Cut);
        };
        let begun = self.events.len() != text.len();
        self.validate_line(alloc, line, begun, this, after)?;
        Ok(after)
    }

    // Validates a line, where events may have `begun` before it and this stands after it. After an error nothing has
    // changed.
    fn validate_line(
        &mut self,
        alloc: A,
        line: u64,
        begun: bool,
        this: &[u8],
        after: &'a [u8],
    ) -> Result<(), FaultKind>
        requires numbered { 1 ≤ line }
        ensures ok { OnOk result (ValidatesLine A begun this.now after.now (validation self.old) (validation self.new)) }
        ensures err { IfErr result (λ fault. fault ≢ FaultKind.NoMemory →
            RefusesLine self.old.format begun this.now fault) }
    {
        match entry_of(alloc, self.format, this, begun) {
            Ok(Entry::Slot(slot)) => {
                if self.slots.push(slot).is_err() {
                    return Err(FaultKind::NoMemory);
                }
                self.events = after;
                Ok(())
            }
            Ok(Entry::Event(parsed)) => {
                self.count(line, parsed.spelled_len());
                Ok(())
            }
            Err(fault) => Err(fault),
        }
    }

    // Counts the bytes that a line spells.
    fn count(&mut self, line: u64, len: usize)
        ensures { validation self.new ≡ (if nat_lt (validation self.old).longest len then record (validation self.old) { longest = len; longest_line = line } else validation self.old) }
    {
        if len > self.longest {
            self.longest = len;
            self.longest_line = line;
        }
    }
}
