//! Whether a notification was wanted, and by which field (2.7.7, 2.8.10).

ghost use Rattle.split_ring.specs.Ring.{LiesIn};
ghost use Rattle.packed_ring.specs.Ring.{LiesIn as PackedLiesIn};

use crate::weave::Text;
use crate::wording::places::size_of;
use crate::wording::state::{say_event_place, say_packed_place};
use guest_memory::GuestMemory;
use mmio_window::{Queue, QueueRegisters};
use packed_ring::PackedRing;
use split_ring::SplitRing;
use suppression::{packed_wants, split_wants};

/// Says whether a notification was wanted of the places of a queue from one to another, and by which field.
pub fn say_notification(
    text: &mut Text,
    mem: &GuestMemory,
    registers: &QueueRegisters,
    first: u16,
    last: u16,
) {
    let area = registers.driver_area;
    let size = size_of(registers);
    text.say("  notification: ");
    match &registers.ring {
        Some(Queue::Split(ring)) if ring.lies_in(mem) => {
            say_split(text, mem, ring, area, size, first, last);
        }
        Some(Queue::Packed(ring)) if ring.lies_in(mem) => {
            say_packed(text, mem, ring, area, size, first, last);
        }
        _ => {}
    }
    text.say("\n");
}

// The same of a split ring.
fn say_split(
    text: &mut Text,
    mem: &GuestMemory,
    ring: &SplitRing,
    area: u64,
    size: u16,
    first: u16,
    last: u16,
)
    requires { LiesIn mem.now ring.now.setup }
{
    let passed = last.wrapping_sub(first);
    if passed > size || !mem.holds(area, 6 + 2 * u64::from(size)) {
        return;
    }
    let event_idx = ring.state().setup.event_idx;
    say_wanted(text, split_wants(mem, area, size, event_idx, first, passed));
    if event_idx {
        text.say("used_event ");
        text.count(u64::from(ring.used_event(mem)));
    } else {
        text.say("available flags ");
        text.count(u64::from(ring.available_flags(mem)));
    }
    say_passed(text, passed);
}

// The same of a packed ring.
fn say_packed(
    text: &mut Text,
    mem: &GuestMemory,
    ring: &PackedRing,
    area: u64,
    size: u16,
    first: u16,
    last: u16,
)
    requires { PackedLiesIn mem.now ring.now.setup }
{
    let places = size.wrapping_mul(2);
    let passed = if last >= first {
        last - first
    } else {
        last.wrapping_add(places).wrapping_sub(first)
    };
    if size > 256 || first >= places || passed >= places || !mem.holds(area, 4) {
        return;
    }
    let event_idx = ring.state().setup.event_idx;
    say_wanted(
        text,
        packed_wants(mem, area, size, event_idx, first, passed),
    );
    let (place, flags) = ring.driver_events(mem);
    text.say("driver events flags ");
    text.count(u64::from(flags & 3));
    if flags & 3 == 2 {
        say_event_place(text, place);
    }
    say_passed(text, passed);
    text.say(", next ");
    say_packed_place(text, u32::from(size), u32::from(last));
}

// Says whether a notification was wanted.
fn say_wanted(text: &mut Text, wants: bool) {
    text.say(if wants {
        "wanted, by "
    } else {
        "not wanted, by "
    });
}

// Says how many places a service passed.
fn say_passed(text: &mut Text, passed: u16) {
    text.say(", ");
    text.counted(u64::from(passed), "place");
    text.say(" passed");
}
