//! What a slot's devices and queues hold, as far as a person is shown it, and how it is said.

ghost use Rattle.packed_ring.specs.Ring.{LiesIn};

use crate::device::DeviceName;
use crate::weave::Text;
use crate::wording::names::{say_device, say_features, say_status};
use crate::wording::places::{is_available, next_place, size_of};
use guest_memory::GuestMemory;
use mmio_window::{DeviceKind, Queue, QueueRegisters, Window};
use negotiation::Flags;
use packed_ring::PackedRing;

/// A window.
#[derive(Clone, Copy, PartialEq, Eq)]
pub struct WindowSeen {
    /// The device status.
    pub status: u32,
    /// The features that were negotiated.
    pub negotiated: u64,
    /// The features that the driver accepts, settled or not.
    pub accepted: u64,
    /// The features that the device offers.
    pub offered: u64,
    /// How often the configuration changed.
    pub generation: u32,
    /// The queue that the queue registers speak of.
    pub queue_sel: u32,
    /// Its queues: of a block device and of an entropy device the first alone.
    pub queues: [QueueSeen; 2],
}

/// A queue.
#[derive(Clone, Copy, PartialEq, Eq)]
pub struct QueueSeen {
    /// The size.
    pub number: u32,
    /// The addresses of the three areas.
    pub descriptor_area: u64,
    pub driver_area: u64,
    pub device_area: u64,
    /// What its ring holds, while it is ready.
    pub ring: Option<RingSeen>,
}

/// A ring.
#[derive(Clone, Copy, PartialEq, Eq)]
pub enum RingSeen {
    Split {
        /// How many chains were used.
        place: u16,
        available_idx: u16,
        used_idx: u16,
        flags: u16,
        /// Where EVENT_IDX was negotiated.
        used_event: Option<u16>,
    },
    Packed {
        place: u16,
        /// The first place that isn't available.
        available: u16,
        /// The driver's event suppression structure.
        event_place: u16,
        event_flags: u16,
    },
}

/// A queue of which nothing is set up.
pub const NO_QUEUE: QueueSeen = QueueSeen {
    number: 0,
    descriptor_area: 0,
    driver_area: 0,
    device_area: 0,
    ring: None,
};

/// What is seen of a window over its guest's memory.
pub fn window_seen(mem: &GuestMemory, window: &Window) -> WindowSeen {
    let negotiation = window.negotiation();
    WindowSeen {
        status: u32::from(negotiation.status().bits()),
        negotiated: negotiation.negotiated().bits(),
        accepted: negotiation.accepted().bits(),
        offered: negotiation.offered().bits(),
        generation: window.config_generation(),
        queue_sel: window.queue_sel(),
        queues: [
            queue_seen(mem, window.registers(0)),
            queue_seen(mem, window.registers(1)),
        ],
    }
}

// What is seen of a queue.
fn queue_seen(mem: &GuestMemory, registers: Option<&QueueRegisters>) -> QueueSeen {
    let Some(registers) = registers else {
        return NO_QUEUE;
    };
    QueueSeen {
        number: registers.number,
        descriptor_area: registers.descriptor_area,
        driver_area: registers.driver_area,
        device_area: registers.device_area,
        ring: match &registers.ring {
            Some(queue) => ring_seen(mem, queue, size_of(registers)),
            None => None,
        },
    }
}

// What is seen of the ring of a queue of this size. Its areas lie in the memory of its guest.
fn ring_seen(mem: &GuestMemory, queue: &Queue, size: u16) -> Option<RingSeen> {
    if !queue.lies_in(mem) {
        return None;
    }
    match queue {
        Queue::Split(ring) => Some(RingSeen::Split {
            place: ring.state().place,
            available_idx: ring.available_idx(mem),
            used_idx: ring.used_idx(mem),
            flags: ring.available_flags(mem),
            used_event: if ring.state().setup.event_idx {
                Some(ring.used_event(mem))
            } else {
                None
            },
        }),
        Queue::Packed(ring) => {
            let (event_place, event_flags) = ring.driver_events(mem);
            Some(RingSeen::Packed {
                place: ring.state().place,
                available: available_place(mem, ring, size),
                event_place,
                event_flags,
            })
        }
    }
}

// The first place of a packed ring of this size that isn't available, behind the chains in flight.
fn available_place(mem: &GuestMemory, ring: &PackedRing, size: u16) -> u16
    requires { LiesIn mem.now ring.now.setup }
{
    let first = next_place(ring.state().place, ring.state().ahead, size);
    for step in 0..size {
        let place = next_place(first, step, size);
        match ring.descriptor_of(mem, place) {
            Some((_, _, flags)) if is_available(flags, place < size) => {}
            _ => return place,
        }
    }
    next_place(first, size, size)
}

/// Says what of a window isn't as it was, a line each.
pub fn say_changes(
    text: &mut Text,
    device: DeviceName,
    kind: DeviceKind,
    old: &WindowSeen,
    new: &WindowSeen,
) {
    if old.status != new.status {
        say_head(text, device);
        text.say(" status ");
        say_status(text, new.status);
        text.say("\n");
    }
    if old.negotiated != new.negotiated {
        say_head(text, device);
        text.say(" features ");
        say_features(text, kind, new.negotiated);
        text.say("\n");
    }
    if old.generation != new.generation {
        say_head(text, device);
        text.say(" generation ");
        text.count(u64::from(new.generation));
        text.say("\n");
    }
    let [old_0, old_1] = &old.queues;
    let [new_0, new_1] = &new.queues;
    say_queue_change(text, device, 0, old_0, new_0);
    say_queue_change(text, device, 1, old_1, new_1);
}

/// Says whether a disk's queue is on hold, where it isn't as it was.
pub fn say_hold_change(text: &mut Text, device: DeviceName, old: bool, new: bool) {
    if old == new {
        return;
    }
    say_head(text, device);
    text.say(if new {
        " hold: no further chain is taken\n"
    } else {
        " hold: none\n"
    });
}

// Begins a line on the state of a device.
fn say_head(text: &mut Text, device: DeviceName) {
    text.say("  state ");
    say_device(text, device);
}

/// Begins a line on the state of a queue.
pub fn say_queue_head(text: &mut Text, device: DeviceName, index: u32, what: &str) {
    say_head(text, device);
    text.say(" queue ");
    text.count(u64::from(index));
    text.say(what);
}

// Says what a queue holds, where it isn't as it was.
fn say_queue_change(
    text: &mut Text,
    device: DeviceName,
    index: u32,
    old: &QueueSeen,
    new: &QueueSeen,
) {
    if old == new {
        return;
    }
    say_queue_head(text, device, index, ": size ");
    text.count(u64::from(new.number));
    text.say(", descriptors ");
    text.hex(new.descriptor_area);
    text.say(", driver ");
    text.hex(new.driver_area);
    text.say(", device ");
    text.hex(new.device_area);
    match new.ring {
        Some(ring) => say_ring(text, new.number, ring),
        None => text.say(", not ready"),
    }
    text.say("\n");
}

// Says what a ring of a size holds.
fn say_ring(text: &mut Text, size: u32, ring: RingSeen) {
    match ring {
        RingSeen::Split {
            place,
            available_idx,
            used_idx,
            flags,
            used_event,
        } => {
            text.say(", ready, split, place ");
            text.count(u64::from(place));
            text.say(", available idx ");
            text.count(u64::from(available_idx));
            text.say(", used idx ");
            text.count(u64::from(used_idx));
            text.say(", available flags ");
            text.count(u64::from(flags));
            if let Some(used_event) = used_event {
                text.say(", used_event ");
                text.count(u64::from(used_event));
            }
        }
        RingSeen::Packed {
            place,
            available,
            event_place,
            event_flags,
        } => {
            text.say(", ready, packed, available to ");
            say_packed_place(text, size, u32::from(available));
            text.say(", used to ");
            say_packed_place(text, size, u32::from(place));
            text.say(", driver events flags ");
            text.count(u64::from(event_flags & 3));
            say_event_place(text, event_place);
        }
    }
}

/// Says the place in an event suppression structure (2.8.10).
pub fn say_event_place(text: &mut Text, place: u16) {
    text.say(" at ");
    text.count(u64::from(place & 0x7fff));
    text.say(" wrap ");
    text.count(u64::from(place >> 15));
}

/// Says a place of a packed ring: its position and its wrap counter.
pub fn say_packed_place(text: &mut Text, size: u32, place: u32) {
    let is_first_round = place < size;
    text.count(u64::from(if is_first_round { place } else { place - size }));
    text.say(if is_first_round { " wrap 1" } else { " wrap 0" });
}
