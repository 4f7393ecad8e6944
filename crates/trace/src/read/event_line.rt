//! The event of one line, for a program that goes over the lines of a trace that was validated.

ghost use Rattle.std.specs.Prelude.{◌≡◌, ◌≢◌, IfNone, IfOk, IfSome};
ghost use Rattle.board.specs.declared.event.Event.{Event};
ghost use Rattle.trace.specs.Cuts.{fields_of};
ghost use Rattle.trace.specs.Refusals.{IsFine};
ghost use Rattle.trace.specs.Text.{event_fields};

use crate::format::Format;
use crate::no_memory::NoMemory;
use crate::read::entry::{Entry, entry_of};
use board::Event;
use std::alloc::Allocator;

/// The event that a line says in some format, without its line feed. There is none only where it says none.
pub fn event_of_line<A: Allocator + Copy>(
    alloc: A,
    line: &[u8],
) -> Result<Option<Event<A>>, NoMemory>
    ensures some { IfOk result (λ found. IfSome found (λ event. event_fields event ≡ fields_of line.now)) }
    ensures none { IfOk result
        (λ found. IfNone found ((event : Event A) → IsFine event → event_fields event ≢ fields_of line.now)) }
{
    match entry_of(alloc, Format::Extended, line, true) {
        Ok(Entry::Event(parsed)) => match parsed.into_event(alloc) {
            Ok(event) => Ok(Some(event)),
            Err(_) => Err(NoMemory),
        },
        Ok(Entry::Slot(_)) => unreachable!(),
        Err(_) => Ok(None),
    }
}
