//! Where an address lies among regions, which stand in ascending order.

ghost use Rattle.std.specs.Prelude.{◌≡◌, ◌+◌, ◌^◌, ◌≤◌, ◌<◌, ◌↔◌, ℕ, length, IsTrue, IsSome, IfSome, slice_index_or};
ghost use Rattle.std.specs.List.{position};
ghost use Rattle.guest_memory.specs.Memory.{Inside, is_inside, part_of};
ghost use Rattle.guest_memory.specs.Regions.{touches, IsIn, AreApart, AreRegions, memory_of};

use crate::region::Region;
use std::alloc::Allocator;

/// The place of the region that holds address `addr`, or whose end it is.
fn place_of<A: Allocator>(regions: &[Region<A>], addr: u64) -> Option<usize>
    ensures { result ≡ position (touches addr) regions.now }
{
    regions.iter().position(|region| region.touches(addr))
}

/// The place of the region that holds the `n` bytes from `addr` on.
#[inline(never)]
pub(crate) fn place_inside<A: Allocator>(regions: &[Region<A>], addr: u64, n: u64) -> usize
    requires apart { AreApart regions.now }
    requires inside { Inside (memory_of regions.now) addr n }
    ensures place { result < length regions.now }
    ensures region { (d : _) → IsIn (slice_index_or regions.now result d) addr n }
{
    if regions.len() == 1 {
        return 0;
    }
    place_of(regions, addr).unwrap_or(0)
}

/// The address of the first byte.
pub(crate) fn base<A: Allocator>(regions: &[Region<A>]) -> u64
    requires { AreApart regions.now }
    ensures { result ≡ (memory_of regions.now).base }
{
    regions[0].base()
}

/// The number of addresses from the first byte to the last.
pub(crate) fn span<A: Allocator>(regions: &[Region<A>]) -> u64
    requires { AreRegions regions.now }
    ensures { result ≡ length (memory_of regions.now).bytes }
{
    let last = &regions[regions.len() - 1];
    last.base() - base(regions) + last.len()
}

/// Whether the `n` bytes from `addr` on lie in one region.
#[inline(never)]
pub(crate) fn holds<A: Allocator>(regions: &[Region<A>], addr: u64, n: u64) -> bool
    requires { AreApart regions.now }
    ensures inside { IsTrue result ↔ Inside (memory_of regions.now) addr n }
    ensures fits { IsTrue result → addr + n ≤ 2 ^ 64 }
{
    match place_of(regions, addr) {
        Some(place) => n <= regions[place].room_behind(addr),
        None => false,
    }
}

/// The number of bytes from `addr` to the end of the region that holds it.
pub(crate) fn room_at<A: Allocator>(regions: &[Region<A>], addr: u64) -> Option<u64>
    requires { AreApart regions.now }
    ensures there { IsSome result ↔ Inside (memory_of regions.now) addr 1 }
    ensures room { IfSome result (λ room. (n : ℕ) → (n ≤ room) ↔ Inside (memory_of regions.now) addr n) }
    ensures fits { IfSome result (λ room. addr + room ≤ 2 ^ 64) }
{
    match place_of(regions, addr) {
        Some(place) => {
            let room = regions[place].room_behind(addr);
            if room == 0 { None } else { Some(room) }
        }
        None => None,
    }
}

/// The `n` bytes from `addr` on.
#[inline(never)]
pub(crate) fn slice<A: Allocator>(regions: &[Region<A>], addr: u64, n: u64) -> &[u8]
    requires apart { AreApart regions.now }
    requires inside { Inside (memory_of regions.now) addr n }
    ensures value { result.now ≡ part_of (memory_of regions.now) addr n }
    ensures len { length result.now ≡ n }
    ensures fits { addr + n ≤ 2 ^ 64 }
{
    let place = place_inside(regions, addr, n);
    regions[place].slice(addr, n)
}
