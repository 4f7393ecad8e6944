//! Which slot of a trace is meant, for people.

ghost use Rattle.std.specs.Prelude.{◌≡◌, Some, IfSome};
ghost use Rattle.std.specs.List.{position};
ghost use Rattle.board.specs.Extent.{has_sector};
ghost use Rattle.trace.specs.Reading.{IsTraceOf};
ghost use Rattle.trace.specs.Text.{Content};

use board::{Extent, SlotSpec};
use std::alloc::Allocator;
use trace::read_trace;

/// The slot whose extent has this sector.
pub fn slot_of<A: Allocator + Copy>(alloc: A, text: &[u8], sector: u64) -> Option<usize>
    ensures { IfSome result (λ number. (trace : Content A) → IsTraceOf text.now trace →
        position (λ slot. has_sector slot.extent sector) trace.slots ≡ Some number) }
{
    let Ok(trace) = read_trace(alloc, text) else {
        return None;
    };
    first_with(&trace.slots, sector)
}

// The first slot whose extent has this sector.
fn first_with(slots: &[SlotSpec], sector: u64) -> Option<usize>
    ensures { result ≡ position (λ slot. has_sector slot.extent sector) slots.now }
{
    slots.iter().position(|slot| has(slot.extent, sector))
}

// Whether the sector is one of the extent's.
fn has(extent: Extent, sector: u64) -> bool
    ensures { result ≡ has_sector extent sector }
{
    extent.start <= sector && sector - extent.start < extent.count
}
