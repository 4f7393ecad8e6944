//! What a trace is made of.

ghost use Rattle.std.specs.Prelude.{◌≡◌, ◌≢◌, []};
ghost use Rattle.trace.specs.Printable.{IsPrintable};
ghost use Rattle.trace.specs.Text.{as_format, content};

use crate::format::{Format, Version};
use board::{Event, SlotSpec};
use std::alloc::{Allocator, Global};

/// A whole trace: the board that it is for, and what its guests do.
#[derive(Drop)]
#[derive_where(Debug)]
pub struct Trace<A: Allocator = Global> {
    /// How it is written.
    pub format: Format,
    /// How many sectors the cache before the image keeps.
    pub cache: u32,
    /// The slots, numbered from 0 in their order.
    pub slots: Vec<SlotSpec, A>,
    /// The events, in the order in which they happen.
    pub events: Vec<Event<A>, A>,
}

impl<A: Allocator + Copy> Trace<A> {
    /// A trace with no slot and no event. This takes no memory.
    pub fn new(alloc: A, format: Format, cache: u32) -> Trace<A>
        ensures { content result ≡ record { format = format; cache = cache; slots = []; events = [] } }
    {
        Trace {
            format,
            cache,
            slots: Vec::new(alloc),
            events: Vec::new(alloc),
        }
    }
}

/// The same trace in version 2 of the plain format, where each slot's line says the identity that the slot has. A plain trace
/// that had a text has one then. This takes no memory.
#[tactic(auto, using(crate::proofs::Formats::fits_format))]
pub fn to_version_2<A: Allocator>(trace: Trace<A>) -> Trace<A>
    ensures same { content result ≡ as_format (Format.Plain Version.Two) (content trace) }
    ensures printable { trace.format ≢ Format.Extended → IsPrintable (content trace) → IsPrintable (content result) }
{
    Trace {
        format: Format::Plain(Version::Two),
        ..trace
    }
}
