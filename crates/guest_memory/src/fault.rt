//! Why a guest's memory can't be made.

ghost use Rattle.std.specs.Prelude.{◌≡◌, ◌↔◌, ◌+◌, ◌^◌, ◌<◌, ◌≤◌, ℕ, All, Some, None, IsTrue, IfSome, IfNone};
ghost use Rattle.guest_memory.specs.Limits.{IsSize, IsBase};
ghost use Rattle.guest_memory.specs.Faults.{AreGood, HasBase, HasSize, IsAbove, IsFaultOf, IsGoodRegion, IsRefusedAt, size_of};
ghost use Rattle.guest_memory.specs.declared.fault.MemoryFault.{MemoryFault};

use crate::spec::RegionSpec;
use thiserror::Error;

/// Sizes and bases are multiples of this many bytes.
const PAGE: u64 = 4096;

/// The most bytes that a guest's memory may have.
const MOST: u64 = 1 << 46;

/// Why a memory was refused. The regions are judged in their order, each for its size, then its base, then its place.
#[derive(Clone, Copy, Debug, PartialEq, Eq, Error)]
pub enum MemoryFault {
    /// There is no region.
    #[error("the memory has no region")]
    NoRegions,
    /// A region's size isn't a multiple of 4096 from 4096 on, or with it there are more than 2^46 bytes.
    #[error("a region's size is no multiple of 4096, or the memory is too large")]
    BadSize,
    /// A region's base isn't a multiple of 4096, its last byte's address is above 2^64 - 1, or from the first region to
    /// its end there are 2^64 addresses.
    #[error("a region's base is no multiple of 4096, or the memory passes 2^64")]
    BadBase,
    /// A region doesn't begin above the end of the one before it: they stand in ascending order, with a gap between
    /// each two.
    #[error("a region doesn't begin above the end of the one before it")]
    NotApart,
    /// The allocator had no room for the bytes.
    #[error("no room for the guest's memory")]
    NoMemory,
}

/// What refuses the regions of a memory.
#[derive(Clone, Copy, Debug, PartialEq, Eq)]
pub struct RegionFault {
    /// The place of the region; 0 where there is none.
    pub region: usize,
    /// What is wrong with it.
    pub fault: MemoryFault,
}

/// Why there can be no memory of `len` bytes from `base` on. It takes no memory, so it never answers `NoMemory`.
pub fn fault_of(base: u64, len: u64) -> Option<MemoryFault>
    ensures bad_size { (result ≡ Some MemoryFault.BadSize) ↔ ¬ IsSize len }
    ensures bad_base { (result ≡ Some MemoryFault.BadBase) ↔ (IsSize len × ¬ IsBase base len) }
    ensures good { (result ≡ None) ↔ (IsSize len × IsBase base len) }
{
    if !is_size(len) {
        Some(MemoryFault::BadSize)
    } else if !is_base(base, len) {
        Some(MemoryFault::BadBase)
    } else {
        None
    }
}

/// Why there can be no memory of these regions, and which of them is the first with a fault. It takes no memory, so
/// it never answers `NoMemory`.
pub fn fault_of_regions(regions: &[RegionSpec]) -> Option<RegionFault>
    ensures fault { IfSome result (λ found. IsRefusedAt regions.now found.region found.fault) }
    ensures exact { (place : ℕ) (fault : MemoryFault) → IsRefusedAt regions.now place fault →
        result ≡ Some (record { region = place; fault = fault }) }
    ensures good { (result ≡ None) ↔ AreGood regions.now }
{
    if regions.is_empty() {
        return Some(RegionFault {
            region: 0,
            fault: MemoryFault::NoRegions,
        });
    }
    let mut size = 0;
    for (place, region) in regions.iter().enumerate() {
        if let Some(fault) = fault_behind(&regions[..place], size, region) {
            return Some(RegionFault {
                region: place,
                fault,
            });
        }
        size += region.len;
    }
    None
}

/// What is wrong with a region behind those of that size together.
fn fault_behind(earlier: &[RegionSpec], size: u64, region: &RegionSpec) -> Option<MemoryFault>
    requires size { size ≡ size_of earlier.now }
    requires most { size ≤ 2 ^ 46 }
    ensures fault { IfSome result (λ fault. IsFaultOf earlier.now region.now fault) }
    ensures good { IfNone result (IsGoodRegion earlier.now region.now) }
{
    if !is_size(region.len) || region.len > MOST - size {
        Some(MemoryFault::BadSize)
    } else if !is_base(region.base, region.len) || !is_spanned(earlier, region) {
        Some(MemoryFault::BadBase)
    } else if !is_above(earlier, region) {
        Some(MemoryFault::NotApart)
    } else {
        None
    }
}

/// Whether a region may have that many bytes.
fn is_size(len: u64) -> bool
    ensures { IsTrue result ↔ IsSize len }
{
    len >= PAGE && len <= MOST && len % PAGE == 0
}

/// Whether a region of that many bytes may begin there.
fn is_base(base: u64, len: u64) -> bool
    requires { IsSize len }
    ensures { IsTrue result ↔ IsBase base len }
{
    base % PAGE == 0 && base <= u64::MAX - len + 1
}

/// Whether there are less than 2^64 addresses from each of them to the region's end.
fn is_spanned(earlier: &[RegionSpec], region: &RegionSpec) -> bool
    requires { IsBase region.now.base region.now.len }
    ensures { IsTrue result ↔ All (λ other. region.now.base + region.now.len < other.base + 2 ^ 64) earlier.now }
{
    earlier.iter().all(|other| spans_less(other.base, region))
}

/// Whether there are less than 2^64 addresses from `base` to the region's end.
fn spans_less(base: u64, region: &RegionSpec) -> bool
    requires { IsBase region.now.base region.now.len }
    ensures { IsTrue result ↔ (region.now.base + region.now.len < base + 2 ^ 64) }
{
    base > 0 || region.base <= u64::MAX - region.len
}

/// Whether they all end below the region.
fn is_above(earlier: &[RegionSpec], region: &RegionSpec) -> bool
    ensures { IsTrue result ↔ IsAbove earlier.now region.now }
{
    earlier.iter().all(|other| ends_below(other, region.base))
}

/// Whether the region ends below that address.
fn ends_below(region: &RegionSpec, addr: u64) -> bool
    ensures { IsTrue result ↔ (region.now.base + region.now.len < addr) }
{
    region.len < addr && region.base < addr - region.len
}
