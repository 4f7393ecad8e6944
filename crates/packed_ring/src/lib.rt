//! The packed virtqueue (2.8), served by its device.
//!
//! A service of a queue is four calls: `open` begins it, `take` resolves the next list of descriptors where
//! that is available, `give` puts it back as used, and `close` tells the driver that all was seen and whether
//! it is to be notified. Instead of `give`, `launch` leaves a list in flight, and `land` puts it back later. A
//! device calls them through its window's queue and never sees a descriptor or a wrap counter.
#![tactic(auto)]

mod flags;
mod laws;
mod modulus;
mod ring;
mod walk;

pub use flags::{are_available, flags_of_used};
pub use laws::{
    a_list_passes_its_places, a_notification_is_wanted_of_the_places_passed,
    lists_in_flight_land_in_any_order, one_chain_or_fault_at_a_place,
};
pub use modulus::reduced;
pub use ring::{PackedRing, Token};
