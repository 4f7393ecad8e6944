//! Reading one line after the second: a slot, or an event.
//!
//! The word decides which fields there are.

ghost use Rattle.std.specs.Prelude.{◌≡◌, IfOk, IfErr};
ghost use Rattle.trace.specs.Cuts.{fields_of};
ghost use Rattle.trace.specs.Refusals.{RefusesLine, IsFineEntry, entry_fields};

use crate::fault::FaultKind;
use crate::format::Format;
use crate::read::at_fault::fault_in;
use crate::read::cut::take_field;
use crate::read::fields::{event_of, slot_of};
use crate::read::parsed_event::ParsedEvent;
use crate::word::{Word, word_in};
use board::SlotSpec;
use std::alloc::Allocator;

/// What one line after the second is.
#[derive(Drop)]
pub(crate) enum Entry<'a, A: Allocator> {
    Slot(SlotSpec),
    Event(ParsedEvent<'a, A>),
}

/// The slot or the event that a line is in a format, where events may have `begun` before it.
pub(crate) fn entry_of<A: Allocator>(
    alloc: A,
    format: Format,
    line: &[u8],
    begun: bool,
) -> Result<Entry<'_, A>, FaultKind>
    ensures ok { IfOk result (λ entry. fields_of line.now ≡ entry_fields format entry) }
    ensures fine { IfOk result (IsFineEntry format begun) }
    ensures err { IfErr result (λ fault. RefusesLine format begun line.now fault) }
{
    let (first, rest) = take_field(line);
    let Some(word) = word_in(format, first) else {
        return Err(FaultKind::Word);
    };
    match word {
        Word::Cache => Err(FaultKind::Word),
        Word::Slot if begun => Err(FaultKind::Order),
        Word::Slot => match slot_of(format, rest) {
            Some(slot) => Ok(Entry::Slot(slot)),
            None => Err(fault_in(format, word, rest)),
        },
        _ => match event_of(alloc, word, rest) {
            Some(parsed) => Ok(Entry::Event(parsed)),
            None => Err(fault_in(format, word, rest)),
        },
    }
}
