//! The events of lines that were validated, one after another.

ghost use Rattle.std.specs.Prelude.{◌≡◌, ◌++◌, ◌∷◌, ℕ, List, true};
ghost use Rattle.trace.specs.Cuts.{fields_of};
ghost use Rattle.trace.specs.Events.{BeginsWithEvent, TakesEvent};
ghost use Rattle.trace.specs.declared.fault.FaultKind.{FaultKind};
ghost use Rattle.trace.specs.Refusals.{RefusesLine};
ghost use Rattle.trace.specs.ParsedEvent.{IsFineParsed, parsed_fields};

use crate::format::Format;
use crate::read::cut::take_line;
use crate::read::entry::{Entry, entry_of};
use crate::read::fast_path::take_fast;
use crate::read::parsed_event::ParsedEvent;
use std::alloc::Allocator;

/// The event of the first line, and what follows that.
pub fn take_event<A: Allocator + Copy>(alloc: A, rest: &[u8]) -> (ParsedEvent<'_, A>, &[u8])
    requires { BeginsWithEvent A rest.now }
    ensures { TakesEvent rest.now result.0 result.1.now }
{
    if let Some(taken) = take_fast(alloc, rest) {
        return taken;
    }
    let Some((line, after)) = take_line(rest) else {
        unreachable!()
    };
    (event_of(alloc, line), after)
}

/// A line that is refused in no way is an event's, so `take_event` takes it off. This reads the line, and takes no memory.
#[tactic(auto, using(crate::proofs::EventLines::parsed_begins))]
pub fn unrefused_line_begins<A: Allocator + Copy>(alloc: A, line: &[u8])
    requires { (fault : FaultKind) → ¬ RefusesLine Format.Extended true line.now fault }
    ensures { (after : List ℕ) → BeginsWithEvent A (line.now ++ 10 ∷ after) }
{
    let _parsed = event_of(alloc, line);
}

// The event that a line says.
fn event_of<A: Allocator + Copy>(alloc: A, line: &[u8]) -> ParsedEvent<'_, A>
    requires { (fault : FaultKind) → ¬ RefusesLine Format.Extended true line.now fault }
    ensures fields { fields_of line.now ≡ parsed_fields result }
    ensures fine { IsFineParsed result }
{
    match entry_of(alloc, Format::Extended, line, true) {
        Ok(Entry::Event(parsed)) => parsed,
        _ => unreachable!(),
    }
}
