//! The field that spells the regions of a guest's memory.

ghost use Rattle.std.specs.Prelude.{◌≡◌, ◌++◌, OnOk};
ghost use Rattle.trace.specs.Spelling.{region_text, regions_text};

use guest_memory::RegionSpec;
use hexadecimal::push_num;
use std::alloc::{AllocError, Allocator};

/// Appends the regions of a memory, with a comma between each two.
pub(crate) fn push_regions<A: Allocator>(
    out: &mut Vec<u8, A>,
    regions: &[RegionSpec],
) -> Result<(), AllocError>
    ensures { OnOk result (out.new.items ≡ out.old.items ++ regions_text regions.now) }
{
    let [first, others @ ..] = regions else {
        return Ok(());
    };
    push_region(out, *first)?;
    if others.is_empty() {
        return Ok(());
    }
    out.push(b',')?;
    push_regions(out, others)
}

// Appends one region.
fn push_region<A: Allocator>(out: &mut Vec<u8, A>, region: RegionSpec) -> Result<(), AllocError>
    ensures { OnOk result (out.new.items ≡ out.old.items ++ region_text region) }
{
    push_num(out, region.base)?;
    out.push(b'+')?;
    push_num(out, region.len)
}
