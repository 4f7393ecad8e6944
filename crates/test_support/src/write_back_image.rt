//! An image in memory that stands for a medium with a volatile write cache: a stop, as a loss of power, leaves what was
//! flushed, and any bytes in the sectors that were written since. It records what stops might have left before each flush.

ghost use Rattle.std.specs.Prelude.{◌≡◌, ◌≢◌, ◌*◌, ◌%◌, ◌<◌, ◌↔◌, ◌⊎◌, false, length, Some, OnOk, OnErr, IfOk, IsOk, IsErrOf};
ghost use Rattle.std.specs.Bool.{OnFalse};
ghost use Rattle.sector_cache.specs.Disk.{IsSectorContents, new_disk, written, flushed};
ghost use Rattle.sector_cache.specs.Stop.{TouchesNothing, TouchesSector, unnumbered};

use sector_cache::{Image, ImageError, MemoryImage, Source};
use std::alloc::{AllocError, Allocator, Global};

/// Why bytes are no such image.
#[derive(Clone, Copy, Debug, PartialEq, Eq)]
pub enum WriteBackFault {
    /// Their number is no multiple of 512.
    BadSize,
    /// There was no memory to note which sectors wait.
    NoMemory,
}

/// What was read at a moment, and whether each sector waited in the cache.
#[derive(Drop)]
pub struct Moment<A: Allocator = Global> {
    pub bytes: Vec<u8, A>,
    pub waiting: Vec<bool, A>,
}

/// An image over a medium with a write cache. Its calls never fail. Before each flush it records the moment; where there is
/// no memory for that, the record has lost one.
#[derive(Drop)]
pub struct WriteBackImage<A: Allocator + Copy = Global> {
    alloc: A,
    memory: MemoryImage<A>,
    waiting: Vec<bool, A>,
    past: Vec<Moment<A>, A>,
    has_lost: bool,
    ghost lengths: { length memory.bytes.items ≡ 512 * length waiting.items },
}

impl<A: Allocator + Copy> WriteBackImage<A> {
    ghost use Rattle.test_support.specs.WriteBack.{HasRecorded, disk_of};

    /// An image of these bytes, all of which are on the medium. Where it is refused they are dropped.
    pub fn new(alloc: A, bytes: Vec<u8, A>) -> Result<Self, WriteBackFault>
        ensures seen { IfOk result (λ image. disk_of image ≡ new_disk bytes.items) }
        ensures complete { IfOk result (λ image. image.has_lost ≡ false) }
        ensures bad_size { IsErrOf result WriteBackFault.BadSize ↔ (length bytes.items % 512 ≢ 0) }
    {
        let sectors = bytes.len() / 512;
        let Ok(memory) = MemoryImage::new(bytes) else {
            return Err(WriteBackFault::BadSize);
        };
        let Ok(waiting) = vec![in alloc; false; sectors] else {
            return Err(WriteBackFault::NoMemory);
        };
        Ok(WriteBackImage {
            alloc,
            memory,
            waiting,
            past: Vec::new(alloc),
            has_lost: false,
        })
    }

    /// The bytes that are read.
    pub fn bytes(&self) -> &[u8]
        ensures { (disk_of self.now).contents ≡ Some result.now }
    {
        self.memory.bytes()
    }

    /// Whether each sector waits in the cache.
    pub fn waiting(&self) -> &[bool]
        ensures { result.now ≡ self.now.waiting.items }
    {
        &self.waiting
    }

    /// The moments before each flush.
    pub fn past(&self) -> &[Moment<A>]
        ensures { result.now ≡ self.now.past.items }
    {
        &self.past
    }

    /// Whether there was no memory to record a moment.
    pub fn has_lost(&self) -> bool
        ensures { result ≡ self.now.has_lost }
    {
        self.has_lost
    }

    // Records this moment, or notes that there was no memory for it.
    fn record(&mut self)
        ensures memory { self.new.memory ≡ self.old.memory }
        ensures waiting { self.new.waiting ≡ self.old.waiting }
        ensures recorded { OnFalse self.new.has_lost (HasRecorded self.old self.new.past.items) }
        ensures either { HasRecorded self.old self.new.past.items ⊎ (self.new.past.items ≡ self.old.past.items) }
    {
        let recorded = self.try_record();
        self.has_lost |= recorded.is_err();
    }

    // Records this moment.
    fn try_record(&mut self) -> Result<(), AllocError>
        ensures memory { self.new.memory ≡ self.old.memory }
        ensures waiting { self.new.waiting ≡ self.old.waiting }
        ensures ok { OnOk result (HasRecorded self.old self.new.past.items) }
        ensures err { OnErr result (self.new.past.items ≡ self.old.past.items) }
    {
        let bytes = self.memory.bytes().to_vec(self.alloc)?;
        let waiting = self.waiting.to_vec(self.alloc)?;
        self.past.push(Moment { bytes, waiting })?;
        Ok(())
    }
}

impl<A: Allocator + Copy> Image for WriteBackImage<A> {
    ghost use Rattle.std.proofs.Common.{arith};
    ghost use Rattle.test_support.specs.WriteBack.{Waits, counts_now, disk_of, durable, left_since_of, may_leave_of, number_of};

    ghost disk = { disk_of };

    ghost may_leave = { may_leave_of };

    ghost left_since = { left_since_of };

    fn sectors(&self) -> u64 {
        self.memory.sectors()
    }

    fn lend_sectors(&self, _first: u64, _count: u64) -> Option<&[u8]> {
        None
    }

    fn write_in_place<S: Source>(&mut self, _first: u64, _from: &S) -> bool {
        false
    }

    fn read_sector(&mut self, sector: u64, into: &mut [u8; 512]) -> Result<(), ImageError>
        requires { sector < (disk_of self.old).sector_count }
        ensures succeeds { IsOk result }
        ensures read { IsSectorContents (disk_of self.old) sector into.new }
        ensures after { disk_of self.new ≡ disk_of self.old }
        ensures touches { TouchesNothing unnumbered may_leave_of left_since_of self.old self.new }
    {
        self.memory.read_sector(sector, into)
    }

    fn write_sector(&mut self, sector: u64, from: &[u8; 512]) -> Result<(), ImageError>
        requires { sector < (disk_of self.old).sector_count }
        ensures succeeds { IsOk result }
        ensures after { disk_of self.new ≡ written sector from.now (disk_of self.old) }
        ensures waits { Waits self.new.waiting.items sector }
        ensures record { self.new.has_lost ≡ self.old.has_lost }
        ensures recorded { TouchesSector number_of may_leave_of left_since_of sector self.old self.new }
        ensures touches { TouchesSector unnumbered may_leave_of left_since_of sector self.old self.new }
    {
        self.waiting[sector as usize] = true;
        self.memory.write_sector(sector, from)
    }

    fn flush(&mut self) -> Result<(), ImageError>
        ensures succeeds { IsOk result }
        ensures after { disk_of self.new ≡ flushed (disk_of self.old) }
        ensures recorded { OnFalse self.new.has_lost
            (TouchesNothing number_of may_leave_of left_since_of self.old self.new) }
        ensures touches { TouchesNothing unnumbered may_leave_of left_since_of self.old self.new }
    {
        self.record();
        self.waiting.fill(false);
        self.memory.flush()
    }

    ghost whole = { λ image. Prim.omega (arith, image.memory.whole) };

    ghost fits = { λ image. Prim.omega (arith, image.memory.bytes.ok) };

    ghost durable = { λ image left may clean. durable image.memory.bytes.items left image.waiting.items (λ sector at. Prim.omega (arith, at.1)) clean may };

    ghost counts_now = { λ image since left reached may. counts_now image since left may };
}
