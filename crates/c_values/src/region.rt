//! The regions of a guest's memory, as C describes them.

ghost use Rattle.std.specs.Prelude.{◌≡◌, ◌≤◌, nat_lt};
ghost use Rattle.std.specs.List.{prefix_len};
ghost use Rattle.c_values.specs.Slot.{regions_of};

use guest_memory::{MOST_REGIONS, RegionSpec, Regions};

/// The regions before the first that has no bytes.
pub fn regions(places: &[RegionSpec; MOST_REGIONS]) -> Regions
    ensures { result ≡ regions_of places.now }
{
    Regions::new(&places[..count(places)]).unwrap()
}

// How many places stand before the first that has no bytes.
fn count(places: &[RegionSpec; MOST_REGIONS]) -> usize
    ensures value { result ≡ prefix_len (λ region. nat_lt 0 region.len) places.now }
    ensures few { result ≤ 8 }
{
    places.iter().take_while(|region| region.len > 0).count()
}
