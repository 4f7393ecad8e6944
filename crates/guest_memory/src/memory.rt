//! The regions of a guest's memory, and the test whether a range lies in one of them.

ghost use Rattle.std.specs.Prelude.{◌≡◌, ◌+◌, ◌^◌, ◌≤◌, ◌<◌, ◌↔◌, ◌⊎◌, ℕ, All, length, map, IsTrue, IsSome, IfOk, IfErr, OnOk, IfSome, slice_index_or};
ghost use Rattle.std.specs.List.{position};
ghost use Rattle.guest_memory.specs.Limits.{IsSize, IsBase};
ghost use Rattle.guest_memory.specs.Memory.{Inside, IsRest, SameRange, is_inside, part_of, with_marks, with_pages, zeroed};
ghost use Rattle.guest_memory.specs.Pages.{bits_of};
ghost use Rattle.guest_memory.specs.Regions.{touches, IsIn, AreApart, memory_of};
ghost use Rattle.guest_memory.specs.Faults.{AreGood, IsRefused, Refuses, spec_of, zeroed_region, zeroed_regions};
ghost use Rattle.guest_memory.specs.Lending.{LendsPart, LendsToHost};
ghost use Rattle.guest_memory.specs.declared.fault.MemoryFault.{MemoryFault};
ghost use Rattle.std.specs.Borrow.{sem};

use crate::fault::{MemoryFault, RegionFault, fault_of, fault_of_regions};
use crate::lookup;
use crate::pages::mark_pages;
use crate::region::Region;
use crate::spec::RegionSpec;
use std::alloc::{AllocError, Allocator, Global};
use std::marker::Model;
use std_alloc::vec::Lodged;

/// The memory of one guest: its regions, in ascending order and apart from each other.
#[derive(Drop)]
pub struct GuestMemory<A: Allocator = Global> {
    regions: Vec<Region<A>, A>,
    // A bit for each page, where a host wants them.
    pages: Vec<u8, Lodged>,
}

impl<A: Allocator> Model for GuestMemory<A> {
    ghost use Rattle.guest_memory.specs.Memory.{Memory, with_pages};
    ghost use Rattle.guest_memory.specs.Regions.{memory_of, AreRegions};
    ghost use Rattle.guest_memory.specs.Pages.{bits_of};

    ghost Value = { Memory };

    ghost view = { λ m. with_pages (bits_of m.pages.items) (memory_of m.regions.items) };

    ghost invariant = { λ m. AreRegions m.regions.items };
}

/// Where the regions are and how large.
fn specs<A: Allocator + Copy>(
    alloc: A,
    regions: &[Region<A>],
) -> Result<Vec<RegionSpec, A>, AllocError>
    ensures { IfOk result (λ specs. specs.items ≡ map spec_of regions.now) }
{
    regions.iter().map(|region| region.spec()).collect(alloc)
}

/// The regions, of zeros.
fn zeroed<A: Allocator + Copy>(
    alloc: A,
    regions: &[RegionSpec],
) -> Result<Vec<Region<A>, A>, AllocError>
    requires { All (λ r. r.base + r.len ≤ 2 ^ 64) regions.now }
    ensures { IfOk result (λ made. made.items ≡ map zeroed_region regions.now) }
{
    let mut made = Vec::with_capacity(alloc, regions.len())?;
    for region in regions {
        made.push(zeroed_region(alloc, region)?)?;
    }
    Ok(made)
}

/// One region, of zeros.
fn zeroed_region<A: Allocator + Copy>(
    alloc: A,
    region: &RegionSpec,
) -> Result<Region<A>, AllocError>
    requires { region.now.base + region.now.len ≤ 2 ^ 64 }
    ensures { IfOk result (λ made. made ≡ zeroed_region region.now) }
{
    let bytes = vec![in alloc; 0; region.len as usize]?;
    Ok(Region::new(region.base, bytes))
}

impl<A: Allocator + Copy> GuestMemory<A> {
    /// A memory of `len` zero bytes from address `base` on.
    pub fn new(alloc: A, base: u64, len: u64) -> Result<GuestMemory<A>, MemoryFault>
        ensures made { IfOk result (λ m. m ≡ zeroed base len) }
        ensures ok { OnOk result (IsSize len × IsBase base len) }

        // the faults in their order; NoMemory comes last
        ensures bad_size { (result ≡ Err MemoryFault.BadSize) ↔ ¬ IsSize len }
        ensures bad_base { (result ≡ Err MemoryFault.BadBase) ↔ (IsSize len × ¬ IsBase base len) }
    {
        if let Some(fault) = fault_of(base, len) {
            return Err(fault);
        }
        match zeroed(alloc, &[RegionSpec { base, len }]) {
            Ok(regions) => Ok(GuestMemory {
                regions,
                pages: Vec::new(Lodged),
            }),
            Err(_) => Err(MemoryFault::NoMemory),
        }
    }

    /// A memory of these regions, of zero bytes.
    pub fn with_regions(alloc: A, regions: &[RegionSpec]) -> Result<GuestMemory<A>, MemoryFault>
        ensures made { IfOk result (λ m. m ≡ zeroed_regions regions.now) }
        ensures ok { OnOk result (AreGood regions.now) }
        ensures fault { IfErr result (λ fault. Refuses regions.now fault) }

        // exactly that fault, where there is one other than want of memory
        ensures exact { (fault : MemoryFault) → IsRefused regions.now fault → result ≡ Err fault }
    {
        if let Some(RegionFault { region: _, fault }) = fault_of_regions(regions) {
            return Err(fault);
        }
        match zeroed(alloc, regions) {
            Ok(regions) => Ok(GuestMemory {
                regions,
                pages: Vec::new(Lodged),
            }),
            Err(_) => Err(MemoryFault::NoMemory),
        }
    }

    /// A memory of these regions, each of bytes of its own or of a host's. None is copied, read or written.
    pub fn of_regions(alloc: A, regions: Vec<Region<A>, A>) -> Result<GuestMemory<A>, MemoryFault>
        ensures made { IfOk result (λ m. m ≡ memory_of regions.items) }
        ensures ok { OnOk result (AreGood (map spec_of regions.items)) }
        ensures fault { IfErr result (λ fault.
            (fault ≡ MemoryFault.NoMemory) ⊎ IsRefused (map spec_of regions.items) fault) }
    {
        let Ok(specs) = specs(alloc, &regions) else {
            return Err(MemoryFault::NoMemory);
        };
        match fault_of_regions(&specs) {
            None => Ok(GuestMemory {
                regions,
                pages: Vec::new(Lodged),
            }),
            Some(RegionFault { region: _, fault }) => Err(fault),
        }
    }
}

impl<A: Allocator> GuestMemory<A> {
    /// The address of the first byte.
    pub fn base(&self) -> u64
        ensures { result ≡ self.now.base }
    {
        lookup::base(&self.regions)
    }

    /// The number of addresses from the first byte to the last, those in gaps included.
    pub fn len(&self) -> u64
        ensures { result ≡ length self.now.bytes }
    {
        lookup::span(&self.regions)
    }

    /// The number of bytes from `addr` to the end of the region that holds it. There is no answer where none does.
    pub fn room_at(&self, addr: u64) -> Option<u64>
        ensures there { IsSome result ↔ Inside self.now addr 1 }
        ensures room { IfSome result (λ room. (n : ℕ) → (n ≤ room) ↔ Inside self.now addr n) }
        ensures fits { IfSome result (λ room. addr + room ≤ 2 ^ 64) }
    {
        lookup::room_at(&self.regions, addr)
    }

    /// The bytes from `addr` to the end of the region that holds it. There is no answer where none does.
    pub fn region(&self, addr: u64) -> Option<&[u8]>
        ensures there { IsSome result ↔ Inside self.now addr 1 }
        ensures rest { IfSome result (λ bytes. IsRest self.now addr bytes.now) }
    {
        let room = self.room_at(addr)?;
        Some(self.slice(addr, room))
    }

    /// The same bytes, to be written by the host: no page is marked. A region holds the address; `holds` is the test.
    pub fn region_mut(&mut self, addr: u64) -> &mut [u8]
        requires { Inside self.old addr 1 }
        ensures* writes_back { sem 𝓛 (LendsToHost A.row A.Allocator self.entry addr result) }
        ensures rest { IsRest self.old addr result.now }
    {
        let room = self.room_at(addr).unwrap_or(1);
        self.lend(addr, room)
    }

    /// Whether the `n` bytes from `addr` on all lie in the memory, in one region. An empty range does where its address
    /// lies in a region, or at its end. Addresses don't wrap.
    #[inline(always)]
    pub fn holds(&self, addr: u64, n: u64) -> bool
        ensures inside { IsTrue result ↔ Inside self.now addr n }
        ensures test { result ≡ is_inside self.now addr n }
        ensures fits { IsTrue result → addr + n ≤ 2 ^ 64 }
    {
        if self.regions.len() == 1 {
            return self.regions[0].holds(addr, n);
        }
        lookup::holds(&self.regions, addr, n)
    }

    /// The `n` bytes from `addr` on, which lie in the memory, end at 2^64 at most. It looks at nothing: `slice` says the same.
    pub fn fits(&self, addr: u64, n: u64)
        requires { Inside self.now addr n }
        ensures { addr + n ≤ 2 ^ 64 }
    {
        let _ = &self.regions;
    }

    /// The `n` bytes from `addr` on, where they all lie in the memory.
    pub fn part(&self, addr: u64, n: u64) -> Option<&[u8]>
        ensures inside { IsSome result ↔ Inside self.now addr n }
        ensures value { IfSome result (λ bytes. bytes.now ≡ part_of self.now addr n) }
        ensures len { IfSome result (λ bytes. length bytes.now ≡ n) }
        ensures fits { IsSome result → addr + n ≤ 2 ^ 64 }
    {
        self.holds(addr, n).then(|| self.slice(addr, n))
    }

    /// The `n` bytes from `addr` on, which lie in the memory. `holds` is the test.
    #[inline(always)]
    pub fn slice(&self, addr: u64, n: u64) -> &[u8]
        requires { Inside self.now addr n }
        ensures value { result.now ≡ part_of self.now addr n }
        ensures len { length result.now ≡ n }
        ensures fits { addr + n ≤ 2 ^ 64 }
    {
        if self.regions.len() == 1 {
            return self.regions[0].slice(addr, n);
        }
        lookup::slice(&self.regions, addr, n)
    }

    /// The `n` bytes from `addr` on, to be written by a device: their pages are marked. `holds` is the test.
    #[inline(always)]
    pub fn part_mut(&mut self, addr: u64, n: u64) -> &mut [u8]
        requires { Inside self.old addr n }
        ensures* writes_back { sem 𝓛 (LendsPart A.row A.Allocator self.entry addr result) }
        ensures value { result.now ≡ part_of self.old addr n }
        ensures len { length result.now ≡ n }
    {
        self.mark(addr, n);
        self.lend(addr, n)
    }

    /// The same, to be written by the host: no page is marked.
    #[inline(always)]
    pub fn lend(&mut self, addr: u64, n: u64) -> &mut [u8]
        requires { Inside self.old addr n }
        ensures* writes_back { sem 𝓛 (LendsToHost A.row A.Allocator self.entry addr result) }
        ensures value { result.now ≡ part_of self.old addr n }
        ensures len { length result.now ≡ n }
    {
        if self.regions.len() == 1 {
            let region = &mut self.regions[0];
            return region.part_mut(addr, n);
        }
        let place = lookup::place_inside(&self.regions, addr, n);
        let region = &mut self.regions[place];
        region.part_mut(addr, n)
    }

    /// Has the bits of the pages kept from now on in these bytes, of which a host lends one for eight pages, the lowest bit
    /// for the first; of none they aren't kept. A write sets the bits of its pages, and none is cleared. A page whose bit
    /// there isn't is not marked.
    pub fn keep_pages(&mut self, bits: Vec<u8, Lodged>)
        ensures { self.new ≡ with_pages (bits_of bits.items) self.old }
    {
        self.pages = bits;
    }

    // Marks the pages of the `n` bytes from `addr` on.
    #[inline(always)]
    fn mark(&mut self, addr: u64, n: u64)
        requires { Inside self.old addr n }
        ensures { self.new ≡ with_marks self.old addr n }
    {
        if !self.pages.is_empty() {
            self.mark_kept(addr, n);
        }
    }

    // The same where bits are kept.
    #[inline(never)]
    fn mark_kept(&mut self, addr: u64, n: u64)
        requires { Inside self.old addr n }
        ensures { self.new ≡ with_marks self.old addr n }
    {
        self.fits(addr, n);
        let from = addr - self.base();
        mark_pages(self.pages.as_mut_slice(), from, n);
    }
}
