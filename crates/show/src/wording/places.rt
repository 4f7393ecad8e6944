//! The size of a queue, and the places of its ring. Those of a packed ring are its positions, once for either value of the wrap
//! counter (2.8.1).

use mmio_window::{Queue, QueueRegisters};

/// Which flags of a packed descriptor say that it is available, and that it was used (2.8.1).
pub const AVAIL: u16 = 0x80;

pub const USED: u16 = 0x8000;

/// The place of a packed ring of a size so many steps on.
pub fn next_place(place: u16, step: u16, size: u16) -> u16 {
    let places = 2 * u32::from(size);
    let next = (u32::from(place) + u32::from(step)).checked_rem(places);
    (next.unwrap_or(0) % 0x1_0000) as u16
}

/// Whether the flags of a descriptor say that it is available, where its place is of the first round or not (2.8.1).
pub fn is_available(flags: u16, is_first_round: bool) -> bool {
    (flags & AVAIL != 0) == is_first_round && (flags & USED != 0) != is_first_round
}

/// The size of a queue.
pub fn size_of(registers: &QueueRegisters) -> u16 {
    (registers.number % 0x1_0000) as u16
}

/// The place of a ring where its next used entry is written.
pub fn used_place(queue: &Queue) -> u16 {
    match queue {
        Queue::Split(ring) => ring.state().place,
        Queue::Packed(ring) => ring.state().place,
    }
}

/// How many places ahead of that the next chain is taken: those of the chains in flight lie between.
pub fn places_ahead(queue: &Queue) -> u16 {
    match queue {
        Queue::Split(ring) => ring.state().ahead,
        Queue::Packed(ring) => ring.state().ahead,
    }
}

/// The place of a queue of a size so many steps on.
pub fn place_behind(queue: &Queue, place: u16, steps: u16, size: u16) -> u16 {
    match queue {
        Queue::Split(_) => place.wrapping_add(steps),
        Queue::Packed(_) => next_place(place, steps, size),
    }
}
