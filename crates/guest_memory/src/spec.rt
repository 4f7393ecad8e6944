//! What a guest's memory is to be: its regions.

ghost use Rattle.std.specs.Prelude.{◌≡◌, ◌+◌, ◌<◌, ◌≤◌, ◌↔◌, ◌∷◌, [], length, IsTrue, IsSome, IfSome};

use std::marker::Model;

/// The most regions that a guest's memory may have.
pub const MOST_REGIONS: usize = 8;

/// A region of a guest's memory, as it is to be. C has it as it is.
#[derive(Clone, Copy, Debug, Default, PartialEq, Eq)]
#[repr(C)]
pub struct RegionSpec {
    /// The address of its first byte.
    pub base: u64,
    /// The number of its bytes.
    pub len: u64,
}

/// The regions that a guest's memory is to have, eight at most.
#[derive(Clone, Copy, Debug, PartialEq, Eq)]
pub struct Regions {
    // Where there are fewer, the rest are regions of no bytes.
    places: [RegionSpec; MOST_REGIONS],
    count: usize,
}

impl Model for Regions {
    ghost use Rattle.std.specs.Prelude.{List, length, take};
    ghost use Rattle.guest_memory.specs.declared.spec.RegionSpec.{RegionSpec};
    ghost use Rattle.guest_memory.specs.Places.{HasPlaces, count_again, in_places, places_again};

    ghost Value = { List RegionSpec };

    ghost view = { λ r. take r.count r.places };

    ghost invariant = { λ r. HasPlaces r.places r.count };

    ghost inverse = { λ regions. record { places = in_places regions; count = length regions } };

    ghost inverse_ok = { λ r h i. record {
      places = places_again r.places r.count h i;
      count = count_again r.places r.count h i;
    } };
}

impl Regions {
    /// One region.
    pub fn one(base: u64, len: u64) -> Regions
        ensures { result ≡ record { base = base; len = len } ∷ [] }
    {
        let mut places = [NONE; MOST_REGIONS];
        places[0] = RegionSpec { base, len };
        Regions { places, count: 1 }
    }

    /// These regions in their order. There is no answer for more than eight.
    pub fn new(regions: &[RegionSpec]) -> Option<Regions>
        ensures few { IsSome result ↔ (length regions.now ≤ 8) }
        ensures same { IfSome result (λ made. made ≡ regions.now) }
    {
        if regions.len() > MOST_REGIONS {
            return None;
        }
        let mut places = [NONE; MOST_REGIONS];
        places[..regions.len()].copy_from_slice(regions);
        Some(Regions {
            places,
            count: regions.len(),
        })
    }

    /// The regions in their order.
    pub fn as_slice(&self) -> &[RegionSpec]
        ensures same { result.now ≡ self.now }
        ensures few { length result.now ≤ 8 }
    {
        &self.places[..self.count]
    }
}

/// What stands where there is no region.
const NONE: RegionSpec = RegionSpec { base: 0, len: 0 };
