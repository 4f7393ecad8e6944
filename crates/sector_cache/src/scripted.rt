//! An image in memory whose calls fail where a list says so, for tests of what stands on an image.

ghost use Rattle.std.specs.Prelude.{◌≡◌, ◌≢◌, ◌%◌, ◌<◌, ◌≤◌, ◌↔◌, length, Some, OnOk, OnErr, IfOk, IsErr, IsErrOf, IsTrue, if◌then◌else◌};
ghost use Rattle.sector_cache.specs.Disk.{IsSectorContents, new_disk, failed, written, flushed};
ghost use Rattle.sector_cache.specs.Script.{new_script, Fails, called, flush_called, IsHalfWritten};
ghost use Rattle.sector_cache.specs.Stop.{TouchesNothing, TouchesSector, unnumbered, unrecorded};

use crate::fault::ImageFault;
use crate::image::{Image, ImageError};
use crate::memory::MemoryImage;
use crate::sector;
use crate::source::Source;
use std::alloc::{Allocator, Global};

/// An image in memory whose listed calls fail. The calls of read, write and flush are numbered
/// together, from 0; a failed write has written the first 256 bytes of its sector. The numbers stay
/// at `u64::MAX`, and from then on no call fails.
#[derive(Drop)]
pub struct ScriptedImage<A: Allocator = Global> {
    memory: MemoryImage<A>,
    failing: Vec<u64, A>,
    calls: u64,
    flushes: u64,
    failures: u64,
    ghost failures_are_calls: { failures ≤ calls },
}

impl<A: Allocator> ScriptedImage<A> {
    ghost use Rattle.sector_cache.specs.ScriptedImage.{disk_of, script_of};

    /// An image of these bytes, of which the calls with the numbers in `failing` fail. Where the
    /// number of bytes is no multiple of 512, both lists are dropped.
    pub fn new(bytes: Vec<u8, A>, failing: Vec<u64, A>) -> Result<Self, ImageFault>
        ensures ok { OnOk result (length bytes.items % 512 ≡ 0) }
        ensures seen { IfOk result (λ image. disk_of image ≡ new_disk bytes.items) }
        ensures script { IfOk result (λ image. script_of image ≡ new_script failing.items) }
        ensures bad_size { IsErrOf result ImageFault.BadSize ↔ (length bytes.items % 512 ≢ 0) }
    {
        Ok(ScriptedImage {
            memory: MemoryImage::new(bytes)?,
            failing,
            calls: 0,
            flushes: 0,
            failures: 0,
        })
    }

    /// The bytes as they stand.
    pub fn bytes(&self) -> &[u8]
        ensures { (disk_of self.now).contents ≡ Some result.now }
    {
        self.memory.bytes()
    }

    /// Gives the bytes back as they stand.
    pub fn into_bytes(self) -> Vec<u8, A>
        ensures { (disk_of self).contents ≡ Some result.items }
    {
        let ScriptedImage {
            memory,
            failing: _,
            calls: _,
            flushes: _,
            failures: _,
        } = self;
        memory.into_bytes()
    }

    /// How many calls of read, write and flush there were, failed ones too.
    pub fn calls(&self) -> u64
        ensures { result ≡ (script_of self.now).calls }
    {
        self.calls
    }

    /// How many flushes were tried.
    pub fn flushes(&self) -> u64
        ensures { result ≡ (script_of self.now).flushes }
    {
        self.flushes
    }

    /// Counts a call, and answers whether it is one that fails.
    fn next_call_fails(&mut self) -> bool
        ensures fails { IsTrue result ↔ Fails (script_of self.old) }
        ensures script { script_of self.new ≡ called (script_of self.old) }
        ensures memory { self.new.memory ≡ self.old.memory }
        ensures disk { disk_of self.new ≡
            (if result then failed (disk_of self.old) else disk_of self.old) }
    {
        if self.calls == u64::MAX {
            return false;
        }
        let fails = self.failing.contains(&self.calls);
        self.calls += 1;
        if fails {
            self.failures += 1;
        }
        fails
    }
}

impl<A: Allocator> Image for ScriptedImage<A> {
    ghost use Rattle.std.proofs.Common.{arith};
    ghost use Rattle.sector_cache.specs.ScriptedImage.{disk_of, may_leave_of, script_of};

    ghost disk = { disk_of };

    ghost may_leave = { may_leave_of };

    fn sectors(&self) -> u64 {
        self.memory.sectors()
    }

    fn lend_sectors(&self, _first: u64, _count: u64) -> Option<&[u8]> {
        None
    }

    #[tactic(auto, using(crate::proofs::Stops::touches_none))]
    fn write_in_place<S: Source>(&mut self, _first: u64, _from: &S) -> bool {
        false
    }

    #[tactic(auto, using(crate::proofs::Stops::touches_none))]
    fn read_sector(&mut self, sector: u64, into: &mut [u8; 512]) -> Result<(), ImageError>
        requires { sector < (disk_of self.old).sector_count }
        ensures fails { IsErr result ↔ Fails (script_of self.old) }
        ensures script { script_of self.new ≡ called (script_of self.old) }
        ensures read { OnOk result (IsSectorContents (disk_of self.old) sector into.new) }
        ensures ok { OnOk result (disk_of self.new ≡ disk_of self.old) }
        ensures err { OnErr result (disk_of self.new ≡ failed (disk_of self.old)) }
        ensures touches { TouchesNothing unnumbered may_leave_of unrecorded self.old self.new }
    {
        if self.next_call_fails() {
            return Err(ImageError);
        }
        self.memory.read_sector(sector, into)
    }

    fn write_sector(&mut self, sector: u64, from: &[u8; 512]) -> Result<(), ImageError>
        requires { sector < (disk_of self.old).sector_count }
        ensures fails { IsErr result ↔ Fails (script_of self.old) }
        ensures script { script_of self.new ≡ called (script_of self.old) }
        ensures ok { OnOk result (disk_of self.new ≡ written sector from.now (disk_of self.old)) }
        ensures err { OnErr result
            (IsHalfWritten sector from.now (disk_of self.old) (disk_of self.new)) }
        ensures touches { TouchesSector unnumbered may_leave_of unrecorded sector self.old self.new }
    {
        if self.next_call_fails() {
            let mut torn = [0; sector::SECTOR_LEN];
            self.memory.read_sector(sector, &mut torn)?;
            sector::copy_half(&mut torn, from);
            self.memory.write_sector(sector, &torn)?;
            return Err(ImageError);
        }
        self.memory.write_sector(sector, from)
    }

    #[tactic(auto, using(crate::proofs::Stops::touches_none))]
    fn flush(&mut self) -> Result<(), ImageError>
        ensures fails { IsErr result ↔ Fails (script_of self.old) }
        ensures script { script_of self.new ≡ flush_called (script_of self.old) }
        ensures ok { OnOk result (disk_of self.new ≡ flushed (disk_of self.old)) }
        ensures err { OnErr result (disk_of self.new ≡ failed (disk_of self.old)) }
        ensures touches { TouchesNothing unnumbered may_leave_of unrecorded self.old self.new }
    {
        self.flushes = self.flushes.saturating_add(1);
        if self.next_call_fails() {
            return Err(ImageError);
        }
        self.memory.flush()
    }

    ghost whole = { λ image. Prim.omega (arith, image.memory.whole) };

    ghost fits = { λ image. Prim.omega (arith, image.memory.bytes.ok) };

    ghost durable = { λ image left is clean. is };

    ghost counts_now = { λ image since left reached may. tt };
}
