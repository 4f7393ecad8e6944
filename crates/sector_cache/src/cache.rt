//! A cache of sectors over an image.

ghost use Rattle.std.specs.Prelude.{◌≡◌, ◌+◌, ◌*◌, ◌<◌, ◌≤◌, ◌↔◌, length, is_some, IfOk, IfErr, OnOk, OnErr, IsSome, IfSome, replicate};
ghost use Rattle.std.specs.Bool.{OnTrue, OnFalse};
ghost use Rattle.std.specs.Borrow.{sem};
ghost use Rattle.std.specs.Io.BufRead.{Rests};
ghost use Rattle.std.specs.NonZero.{non_zero_usize_get};
ghost use Rattle.sector_cache.specs.contracts.cache.SectorCache.{the_row};
ghost use Rattle.sector_cache.specs.Disk.{IsSectorContents, IsTorn, Tells, failed, written, written_from, flushed};
ghost use Rattle.sector_cache.specs.Fault.{IsCapacity, RefusesCapacity};
ghost use Rattle.sector_cache.specs.Lending.{IsReadThrough};
ghost use Rattle.sector_cache.specs.Stop.{TouchesFrom, TouchesNothing, TouchesSector};

use crate::fault::{CacheFault, Refused};
use crate::image::{Image, ImageError};
use crate::kept::Kept;
use crate::source::Source;
use std::alloc::{Allocator, Global};
use std::marker::Model;
use std::num::NonZeroUsize;

/// How many sectors a cache may keep at most.
const MOST_SECTORS: u32 = 65536;

/// An image behind a cache. Writes go through to it.
///
/// Contracts see a cache as its image, and nothing of what is kept.
#[derive(Drop)]
pub struct SectorCache<I: Image, A: Allocator = Global> {
    image: I,
    kept: Kept<A>,
    // The bytes of the sector that was lent or written last.
    lent: [u8; 512],
}

impl<I: Image, A: Allocator> Model for SectorCache<I, A> {
    ghost use Rattle.sector_cache.specs.Kept.{IsCoherent};

    ghost Value = { I };

    ghost view = { λ cache. cache.image };

    // what is kept is what the image tells
    ghost invariant = { λ cache. IsCoherent (I.disk cache.image) cache.kept.sectors };
}

impl<I: Image, A: Allocator + Copy> SectorCache<I, A> {
    /// Puts a cache of at most `capacity` sectors before an image.
    pub fn new(alloc: A, image: I, capacity: u32) -> Result<Self, Refused<I, CacheFault>>
        ensures ok { OnOk result (IsCapacity capacity) }
        ensures seen { IfOk result (λ cache. cache ≡ image) }
        ensures fault { IfErr result (λ refused. RefusesCapacity capacity refused.why) }
        ensures returned { IfErr result (λ refused. refused.image ≡ image) }
    {
        let Some(most) = admitted(capacity) else {
            return Err(Refused {
                image,
                why: CacheFault::BadCapacity,
            });
        };
        let Ok(kept) = Kept::new(alloc, most) else {
            return Err(Refused {
                image,
                why: CacheFault::NoMemory,
            });
        };
        Ok(SectorCache {
            image,
            kept,
            lent: [0; 512],
        })
    }

    #[tactic(auto, using(crate::proofs::Coherence::contents_found, crate::proofs::Coherence::coherent_used, crate::proofs::Coherence::coherent_failed, crate::proofs::Coherence::coherent_read, crate::proofs::Coherence::coherent_kept, crate::proofs::Coherence::contents_read))]
    /// Lends the bytes of a sector: where they lie in the image, else those that are kept, else what the image reads
    /// just now.
    pub fn lend(&mut self, sector: u64) -> Result<&[u8; 512], ImageError>
        requires { sector < (I.disk self.old).sector_count }
        ensures read { IfOk result (λ bytes. IsSectorContents (I.disk self.old) sector bytes.now) }
        ensures* after_borrow { sem 𝓛 (Rests (the_row I.row A.row I.Image A.Allocator) self.entry (λ cache.
            IsReadThrough result (I.disk self.old) (I.disk cache)
            × TouchesNothing I.moment I.may_leave I.left_since self.old cache)) }
    {
        if lend_one(&self.image, sector).is_some() {
            return lend_one(&self.image, sector).ok_or(ImageError);
        }
        if self.kept.copy(sector, &mut self.lent) {
            return Ok(&self.lent);
        }
        self.image.read_sector(sector, &mut self.lent)?;
        self.kept.keep(sector, &self.lent);
        Ok(&self.lent)
    }

    #[tactic(auto, using(crate::proofs::Coherence::contents_length))]
    /// Lends the bytes of `count` sectors from sector `first` on where they lie in the image. One that isn't in memory
    /// lends none.
    pub fn lend_sectors(&self, first: u64, count: u64) -> Option<&[u8]>
        requires { first + count ≤ (I.disk self.now).sector_count }
        ensures lent { is_some result ≡ I.lends self.now }
        ensures contents { IfSome result (λ bytes. Tells (I.disk self.now) first count bytes.now) }
        ensures len { IfSome result (λ bytes. length bytes.now ≡ 512 * count) }
    {
        self.image.lend_sectors(first, count)
    }

    /// Reads a sector. After an `Err` `into` may hold any bytes.
    pub fn read(&mut self, sector: u64, into: &mut [u8; 512]) -> Result<(), ImageError>
        requires { sector < (I.disk self.old).sector_count }
        ensures read { OnOk result (IsSectorContents (I.disk self.old) sector into.new) }
        ensures ok { OnOk result (I.disk self.new ≡ I.disk self.old) }
        ensures err { OnErr result (I.disk self.new ≡ failed (I.disk self.old)) }
        ensures touches { TouchesNothing I.moment I.may_leave I.left_since self.old self.new }
    {
        *into = *self.lend(sector)?;
        Ok(())
    }

    #[tactic(auto, using(crate::proofs::Coherence::coherent_forgotten, crate::proofs::Coherence::coherent_written, crate::proofs::Coherence::coherent_torn))]
    /// Writes a sector. After an `Err` that sector may hold any 512 bytes. `from` is read once: the image gets a copy, and the
    /// copy is kept.
    pub fn write(&mut self, sector: u64, from: &[u8; 512]) -> Result<(), ImageError>
        requires { sector < (I.disk self.old).sector_count }
        ensures ok { OnOk result (I.disk self.new ≡ written sector from.now (I.disk self.old)) }
        ensures err { OnErr result (IsTorn sector (I.disk self.old) (I.disk self.new)) }
        ensures touches { TouchesSector I.moment I.may_leave I.left_since sector self.old self.new }
    {
        self.lent = *from;
        let from = &self.lent;
        self.kept.forget(sector);
        self.image.write_sector(sector, from)?;
        if lend_one(&self.image, sector).is_none() {
            self.kept.keep(sector, from);
        }
        Ok(())
    }

    #[tactic(auto, using(crate::proofs::Coherence::coherent_none))]
    /// Writes sectors from sector `first` on where they lie in the image, and answers whether they do. One that isn't in
    /// memory is left as it is.
    pub fn write_in_place<S: Source>(&mut self, first: u64, from: &S) -> bool
        requires { 512 * first + length (S.bytes from.now) ≤ 512 * (I.disk self.old).sector_count }
        ensures lent { result ≡ I.lends self.old }
        ensures written { OnTrue result (I.disk self.new ≡ written_from first (S.bytes from.now) (I.disk self.old)) }
        ensures left { OnFalse result (self.new ≡ self.old) }
        ensures touches { TouchesFrom I.moment I.may_leave I.left_since first (length (S.bytes from.now)) self.old self.new }
    {
        if !self.image.write_in_place(first, from) {
            return false;
        }
        self.kept.clear();
        true
    }

    /// `write` of 512 zeros, of which none are kept: zeroing many sectors drives no other out of the cache.
    pub fn zero(&mut self, sector: u64) -> Result<(), ImageError>
        requires { sector < (I.disk self.old).sector_count }
        ensures ok { OnOk result
            (I.disk self.new ≡ written sector (replicate 512 0) (I.disk self.old)) }
        ensures err { OnErr result (IsTorn sector (I.disk self.old) (I.disk self.new)) }
        ensures touches { TouchesSector I.moment I.may_leave I.left_since sector self.old self.new }
    {
        self.kept.forget(sector);
        self.image.write_sector(sector, &[0; 512])
    }
}

impl<I: Image, A: Allocator> SectorCache<I, A> {
    /// Hands what was written so far to the medium.
    pub fn flush(&mut self) -> Result<(), ImageError>
        ensures ok { OnOk result (I.disk self.new ≡ flushed (I.disk self.old)) }
        ensures err { OnErr result (I.disk self.new ≡ failed (I.disk self.old)) }
        ensures touches { TouchesNothing I.moment I.may_leave I.left_since self.old self.new }
    {
        self.image.flush()
    }

    /// The image as it stands.
    pub fn image(&self) -> &I
        ensures { result.now ≡ self.now }
    {
        &self.image
    }

    /// Gives the image back as it stands.
    pub fn into_image(self) -> I
        ensures { result ≡ self }
    {
        let SectorCache {
            image,
            kept: _,
            lent: _,
        } = self;
        image
    }
}

#[tactic(auto, using(crate::proofs::Coherence::contents_length))]
/// One sector of an image, where it lies in memory.
fn lend_one<I: Image>(image: &I, sector: u64) -> Option<&[u8; 512]>
    requires { sector < (I.disk image.now).sector_count }
    ensures lent { is_some result ≡ I.lends image.now }
    ensures contents { IfSome result (λ bytes. Tells (I.disk image.now) sector 1 bytes.now) }
{
    image.lend_sectors(sector, 1)?.first_chunk()
}

/// How many sectors a cache of this capacity may keep, if there may be such a cache.
fn admitted(capacity: u32) -> Option<NonZeroUsize>
    ensures some { IsSome result ↔ IsCapacity capacity }
    ensures same { IfSome result (λ most. non_zero_usize_get most ≡ capacity) }
{
    if capacity > MOST_SECTORS {
        return None;
    }
    NonZeroUsize::new(capacity as usize)
}
