//! The split virtqueue (2.7), served by its device.
//!
//! A service of a queue is four calls: `open` fixes what is on offer, `take` resolves the next chain, `give`
//! puts it into the used ring, and `close` tells the driver that all was seen and whether it is to be
//! notified. Instead of `give`, `launch` leaves a chain in flight, and `land` puts it into the used ring later. A
//! device calls them through its window's queue and never sees a descriptor or an idx.
#![tactic(auto)]

mod laws;
mod ring;
mod walk;

pub use laws::{
    a_chain_passes_its_place, a_notification_is_wanted_of_the_places_passed,
    chains_in_flight_land_in_any_order, one_chain_or_fault_at_a_place,
};
pub use ring::{SplitRing, Token};
