//! The sectors that a cache keeps, over the kit's `lru`: the least recently used gives way.

ghost use Rattle.std.specs.Prelude.{◌≡◌, None, Some, [], IfOk, IsTrue, false, nat_eq};
ghost use Rattle.std.specs.Map.{lookup, remove_entry};
ghost use Rattle.std.specs.NonZero.{non_zero_usize_get};
ghost use Rattle.lru.specs.LruCache.{lru_cache, promoted};
ghost use Rattle.sector_cache.specs.Kept.{MayKeep};

use lru::{DefaultHasher, LruCache};
use std::alloc::{AllocError, Allocator, Global};
use std::num::NonZeroUsize;

/// Some sectors of an image with their bytes, by their numbers in the image.
#[derive(Drop)]
pub struct Kept<A: Allocator = Global> {
    sectors: LruCache<u64, [u8; 512], DefaultHasher, A>,
}

impl<A: Allocator + Copy> Kept<A> {
    /// Keeps at most so many sectors, and none yet. Room is made as they come.
    pub(crate) fn new(alloc: A, most: NonZeroUsize) -> Result<Self, AllocError>
        ensures { IfOk result (λ kept. kept.sectors ≡ lru_cache [] (non_zero_usize_get most)) }
    {
        let sectors = LruCache::sparse(alloc, most)?;
        Ok(Kept { sectors })
    }

    #[tactic(auto, using(crate::proofs::Keeping::none_used))]
    /// Copies what is kept of a sector, which becomes the most recently used. Answers whether there is any.
    pub(crate) fn copy(&mut self, sector: u64, into: &mut [u8; 512]) -> bool
        ensures copied { IsTrue result → lookup (nat_eq sector) self.old.sectors.entries ≡ Some into.new }
        ensures none { result ≡ false → lookup (nat_eq sector) self.new.sectors.entries ≡ None }
        ensures order { self.new.sectors ≡
            lru_cache (promoted (nat_eq sector) self.old.sectors.entries) self.old.sectors.cap }
    {
        match self.sectors.get(&sector) {
            Some(bytes) => {
                *into = *bytes;
                true
            }
            None => false,
        }
    }

    #[tactic(auto, using(crate::proofs::Keeping::kept_by_put))]
    /// Keeps these bytes of a sector of which nothing is kept, as the most recently used. Where no more may be kept the
    /// least recently used gives way. Where there is no memory for them nothing changes.
    pub(crate) fn keep(&mut self, sector: u64, bytes: &[u8; 512])
        requires { lookup (nat_eq sector) self.old.sectors.entries ≡ None }
        ensures { MayKeep sector bytes.now self.old.sectors self.new.sectors }
    {
        let _ = self.sectors.put(sector, *bytes);
    }

    /// Keeps nothing any more.
    pub(crate) fn clear(&mut self)
        ensures { self.new.sectors ≡ lru_cache [] self.old.sectors.cap }
    {
        if self.sectors.len() > 0 {
            self.sectors.clear();
        }
    }

    #[tactic(auto, using(crate::proofs::Keeping::none_left))]
    /// Keeps nothing of a sector.
    pub(crate) fn forget(&mut self, sector: u64)
        ensures none { lookup (nat_eq sector) self.new.sectors.entries ≡ None }
        ensures rest { self.new.sectors ≡
            lru_cache (remove_entry (nat_eq sector) self.old.sectors.entries) self.old.sectors.cap }
    {
        if self.sectors.len() > 0 {
            self.sectors.pop(&sector);
        }
    }
}
