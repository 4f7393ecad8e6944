//! The field that spells the regions of a guest's memory.

ghost use Rattle.std.specs.Prelude.{◌↔◌, IfNone, IfSome, IsTrue, OnSome};
ghost use Rattle.guest_memory.specs.declared.spec.RegionSpec.{RegionSpec};
ghost use Rattle.trace.specs.Words.{IsRegionField, IsRegionsField, Regions as ByRegions, Says};

use crate::read::cut::cut;
use arrayvec::ArrayVec;
use guest_memory::{MOST_REGIONS, RegionSpec, Regions};
use hexadecimal::number;

/// The regions that a field spells.
pub(crate) fn regions_of(field: &[u8]) -> Option<Regions>
    ensures some { IfSome result (λ regions. IsRegionsField field.now regions) }
    ensures parsed { OnSome result (Says ByRegions field.now) }
    ensures none { IfNone result (¬ Says ByRegions field.now) }
{
    let mut regions = ArrayVec::<RegionSpec, MOST_REGIONS>::new();
    let mut rest = Some(field);
    while let Some(list) = rest {
        let (first, others) = cut(list, b',');
        if regions.is_full() {
            return None;
        }
        regions.push(region_of(first)?);
        rest = others;
    }
    Regions::new(regions.as_slice())
}

/// Whether a field spells regions.
pub(crate) fn are_regions(field: &[u8]) -> bool
    ensures { IsTrue result ↔ Says ByRegions field.now }
{
    regions_of(field).is_some()
}

// The region that a part of the field spells.
fn region_of(part: &[u8]) -> Option<RegionSpec>
    ensures some { IfSome result (λ region. IsRegionField part.now region) }
    ensures none { IfNone result ((region : RegionSpec) → ¬ IsRegionField part.now region) }
{
    let (base, len) = cut(part, b'+');
    Some(RegionSpec {
        base: number(base)?,
        len: number(len?)?,
    })
}
