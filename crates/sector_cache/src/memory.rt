//! An image that is a list of bytes in memory. Its calls never fail.

ghost use Rattle.std.specs.Prelude.{◌≡◌, ◌≢◌, ◌+◌, ◌*◌, ◌%◌, ◌<◌, ◌≤◌, ◌↔◌, length, Some, IsSomeAnd, OnOk, IfOk, IsOk, IsErrOf, IsTrue, true};
ghost use Rattle.sector_cache.specs.Disk.{IsSectorContents, Tells, new_disk, written, written_from, flushed};
ghost use Rattle.sector_cache.specs.Stop.{TouchesFrom, TouchesNothing, TouchesSector, unnumbered, unrecorded};

use crate::fault::ImageFault;
use crate::image::{Image, ImageError};
use crate::sector;
use crate::source::Source;
use std::alloc::{Allocator, Global};

/// An image in memory.
#[derive(Drop)]
pub struct MemoryImage<A: Allocator = Global> {
    bytes: Vec<u8, A>,
    dirty: bool,
    ghost whole: { length bytes.items % 512 ≡ 0 },
}

impl<A: Allocator> MemoryImage<A> {
    ghost use Rattle.sector_cache.specs.MemoryImage.{disk_of};

    /// An image of these bytes. Where their number is no multiple of 512 they are dropped.
    pub fn new(bytes: Vec<u8, A>) -> Result<Self, ImageFault>
        ensures ok { OnOk result (length bytes.items % 512 ≡ 0) }
        ensures seen { IfOk result (λ image. disk_of image ≡ new_disk bytes.items) }
        ensures bad_size { IsErrOf result ImageFault.BadSize ↔ (length bytes.items % 512 ≢ 0) }
    {
        if !sector::are_whole_sectors(bytes.len() as u64) {
            return Err(ImageFault::BadSize);
        }
        Ok(MemoryImage {
            bytes,
            dirty: false,
        })
    }

    /// The bytes as they stand.
    pub fn bytes(&self) -> &[u8]
        ensures { (disk_of self.now).contents ≡ Some result.now }
    {
        self.bytes.as_slice()
    }

    /// Gives the bytes back as they stand.
    pub fn into_bytes(self) -> Vec<u8, A>
        ensures { (disk_of self).contents ≡ Some result.items }
    {
        let MemoryImage { bytes, dirty: _ } = self;
        bytes
    }
}

impl<A: Allocator> Image for MemoryImage<A> {
    ghost use Rattle.std.proofs.Common.{arith};
    ghost use Rattle.sector_cache.specs.MemoryImage.{disk_of, may_leave_of};

    ghost disk = { disk_of };

    ghost may_leave = { may_leave_of };

    ghost lends = { λ _. true };

    fn sectors(&self) -> u64 {
        self.bytes.len() as u64 / 512
    }

    fn lend_sectors(&self, first: u64, count: u64) -> Option<&[u8]>
        requires { first + count ≤ (disk_of self.now).sector_count }
        ensures { IsSomeAnd result (λ bytes. Tells (disk_of self.now) first count bytes.now) }
    {
        Some(sector::lend(&self.bytes, first, count))
    }

    #[tactic(auto, using(crate::proofs::Stops::touches_plain_sectors))]
    fn write_in_place<S: Source>(&mut self, first: u64, from: &S) -> bool
        requires { 512 * first + length (S.bytes from.now) ≤ 512 * (disk_of self.old).sector_count }
        ensures succeeds { IsTrue result }
        ensures after { disk_of self.new ≡ written_from first (S.bytes from.now) (disk_of self.old) }
        ensures touches { TouchesFrom unnumbered may_leave_of unrecorded first (length (S.bytes from.now)) self.old self.new }
    {
        self.dirty = true;
        sector::copy_all_into(&mut self.bytes, first, from);
        true
    }

    #[tactic(auto, using(crate::proofs::Stops::touches_none))]
    fn read_sector(&mut self, sector: u64, into: &mut [u8; 512]) -> Result<(), ImageError>
        requires { sector < (disk_of self.old).sector_count }
        ensures succeeds { IsOk result }
        ensures read { IsSectorContents (disk_of self.old) sector into.new }
        ensures after { disk_of self.new ≡ disk_of self.old }
        ensures touches { TouchesNothing unnumbered may_leave_of unrecorded self.old self.new }
    {
        sector::copy_from(&self.bytes, sector, into);
        Ok(())
    }

    #[tactic(auto, using(crate::proofs::Stops::touches_plain_sector))]
    fn write_sector(&mut self, sector: u64, from: &[u8; 512]) -> Result<(), ImageError>
        requires { sector < (disk_of self.old).sector_count }
        ensures succeeds { IsOk result }
        ensures after { disk_of self.new ≡ written sector from.now (disk_of self.old) }
        ensures touches { TouchesSector unnumbered may_leave_of unrecorded sector self.old self.new }
    {
        self.dirty = true;
        sector::copy_into(&mut self.bytes, sector, from);
        Ok(())
    }

    #[tactic(auto, using(crate::proofs::Stops::touches_none))]
    fn flush(&mut self) -> Result<(), ImageError>
        ensures succeeds { IsOk result }
        ensures after { disk_of self.new ≡ flushed (disk_of self.old) }
        ensures touches { TouchesNothing unnumbered may_leave_of unrecorded self.old self.new }
    {
        self.dirty = false;
        Ok(())
    }

    ghost whole = { λ image. Prim.omega (arith, image.whole) };

    ghost fits = { λ image. Prim.omega (arith, image.bytes.ok) };

    ghost durable = { λ image left is clean. is };

    ghost counts_now = { λ image since left reached may. tt };
}
