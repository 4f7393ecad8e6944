//! What a trace may describe, where a board may have more.

ghost use Rattle.std.specs.Prelude.{◌≡◌, ◌<◌, ◌↔◌, IsTrue, map};
ghost use Rattle.guest_memory.specs.Faults.{size_of};
ghost use Rattle.replay.specs.Limits.{asked_of_board, most_memory};

use board::SlotSpec;
use guest_memory::{RegionSpec, Regions};
use trace::Format;

/// The largest memory of a guest in a plain trace, in bytes.
const MOST_PLAIN_MEMORY: u64 = 1 << 28;

/// The largest memory of a guest in an extended trace, all its regions together.
const MOST_EXTENDED_MEMORY: u64 = 1 << 32;

/// Asks for no memory where a guest's is larger than a trace of this format may describe, so that its board is refused
/// for that size.
pub fn limit_memories(format: Format, slots: &mut [SlotSpec])
    ensures { slots.new ≡ map (asked_of_board format) slots.old }
{
    for slot in slots.iter_mut() {
        limit_memory(format, slot);
    }
}

// The same for one guest.
fn limit_memory(format: Format, slot: &mut SlotSpec)
    ensures { slot.new ≡ asked_of_board format slot.old }
{
    if are_larger(slot.regions.as_slice(), most_memory(format)) {
        slot.regions = Regions::one(0, 0);
    }
}

// The largest memory of a guest in a format.
fn most_memory(format: Format) -> u64
    ensures { result ≡ most_memory format }
{
    match format {
        Format::Plain(_) => MOST_PLAIN_MEMORY,
        Format::Extended => MOST_EXTENDED_MEMORY,
    }
}

// Whether regions have more bytes together than these.
fn are_larger(regions: &[RegionSpec], most: u64) -> bool
    ensures { IsTrue result ↔ (most < size_of regions.now) }
{
    let [first, others @ ..] = regions else {
        return false;
    };
    first.len > most || are_larger(others, most - first.len)
}
