//! An image that is a file. It tells no bytes.

ghost use Rattle.std.specs.Prelude.{◌≡◌, ◌≢◌, ◌↔◌, ◌+◌, ◌-◌, ◌*◌, ◌/◌, ◌%◌, ◌<◌, ◌^◌, length, Some, IfSome, IfOk, OnOk, OnErr, IsOk, IsErr, IsErrOf, IsTrue, is_err};
ghost use Rattle.sector_cache.specs.Disk.{IsSectorContents, IsTorn, failed, written, flushed};
ghost use Rattle.sector_cache.specs.Backing.{HasSector, LeavesShort, PutsSector};
ghost use Rattle.sector_cache.specs.Stop.{TouchesNothing, TouchesSector};

use crate::backing;
use crate::backing::BackingFile;
use crate::fault::{FileCall, FileFailure, FileImageFault};
use crate::image::{Image, ImageError};
use crate::sector::{SECTOR_LEN, are_whole_sectors};
use crate::source::Source;
use std::fs::File;
use std::io;
use std::io::ErrorKind;

/// An image over a file that is read and written in place, and closed where the image is dropped.
///
/// A call of the file that fails is an error and counted, and the first one is kept. After a sync that failed each
/// further flush fails, since the system tells only once that what was written may be lost. Once `u64::MAX`
/// failures were counted, which no run reaches, calls succeed untried.
#[derive(Drop)]
pub struct FileImage<F = File> {
    file: F,
    sectors: u64,
    failures: u64,
    dirty: bool,
    is_lost: bool,
    last: Option<u64>,
    first: Option<FileFailure>,
    ghost fits: { 512 * sectors < 2 ^ 64 },
}

impl<F: BackingFile> FileImage<F> {
    ghost use Rattle.sector_cache.specs.FileImage.{IsFirst, IsSettled, disk_of, file_of, new_without_contents, trouble_of, untroubled};

    /// The image that a file holds, which is open for reading and writing. It is held for this image until it
    /// is closed. Where it is refused it is closed at once.
    pub fn new(mut file: F) -> Result<Self, FileImageFault>
        ensures seen { IfOk result (λ image. disk_of image ≡ new_without_contents (disk_of image).sector_count) }
        ensures sectors { IfOk result (λ image. IfSome (F.held file) (λ bytes.
            length bytes ≡ 512 * (disk_of image).sector_count)) }
        ensures held { IfOk result (λ image. F.held (file_of image) ≡ F.held file) }
        ensures bad_size { IsErrOf result FileImageFault.BadSize →
            IfSome (F.held file) (λ bytes. length bytes % 512 ≢ 0) }
        ensures trouble { IfOk result (λ image. trouble_of image ≡ untroubled) }
        ensures settled { IfOk result (λ image. F.IsSynced file → IsSettled F.IsSynced image) }
    {
        file.hold()?;
        let Ok(bytes) = file.length() else {
            return Err(FileImageFault::Io);
        };
        if !are_whole_sectors(bytes) {
            return Err(FileImageFault::BadSize);
        }
        Ok(FileImage {
            file,
            sectors: bytes / SECTOR_LEN as u64,
            failures: 0,
            dirty: false,
            is_lost: false,
            last: None,
            first: None,
        })
    }

    /// How many of its calls have failed so far.
    pub fn failures(&self) -> u64
        ensures { result ≡ (disk_of self.now).failures }
    {
        self.failures
    }

    /// The first of its calls that failed.
    pub fn first_failure(&self) -> Option<FileFailure>
        ensures { result ≡ (trouble_of self.now).first }
    {
        self.first
    }

    /// Gives the file back as it stands.
    pub fn into_file(self) -> F
        ensures { result ≡ file_of self }
    {
        let FileImage {
            file,
            sectors: _,
            failures: _,
            dirty: _,
            is_lost: _,
            last: _,
            first: _,
        } = self;
        file
    }

    /// Counts a call that failed, and keeps the first.
    fn counted(
        &mut self,
        call: FileCall,
        sector: Option<u64>,
        answer: io::Result<()>,
    ) -> Result<(), ImageError>
        requires { self.old.failures < 2 ^ 64 - 1 }
        ensures same { IsOk answer ↔ IsOk result }
        ensures ok { OnOk result (self.new ≡ self.old) }
        ensures err { OnErr result (self.new ≡ record self.old { failures = self.old.failures + 1; first = self.new.first }) }
        ensures first { OnErr result (IsFirst call sector self.old.first self.new.first) }
    {
        let Err(error) = answer else {
            return Ok(());
        };
        self.failures += 1;
        self.first = self.first.or(Some(FileFailure {
            call,
            sector,
            error,
        }));
        Err(ImageError)
    }

    /// Syncs the file. After one that failed none is tried.
    fn synced(&mut self) -> io::Result<()>
        ensures lost { IsTrue self.old.is_lost → IsErr result }
        ensures left { IsTrue self.old.is_lost → self.new ≡ self.old }
        ensures kept { self.new ≡ record self.old { file = self.new.file; is_lost = self.new.is_lost } }
        ensures loses { self.new.is_lost ≡ is_err result }
        ensures synced { OnOk result (F.IsSynced self.new.file) }
        ensures still { F.IsSynced self.old.file → F.IsSynced self.new.file }
        ensures stays { F.held self.new.file ≡ F.held self.old.file }
        ensures touches { TouchesNothing F.moment F.may_leave F.left_since self.old.file self.new.file }
    {
        if self.is_lost {
            return Err(io::Error::from(ErrorKind::Other));
        }
        let answer = self.file.sync();
        self.is_lost = answer.is_err();
        answer
    }
}

impl<F: BackingFile> Image for FileImage<F> {
    ghost use Rattle.std.proofs.Common.{arith};
    ghost use Rattle.sector_cache.specs.FileImage.{IsNoted, IsSettled, IsSpent, IsTried, disk_of, file_of, lost, trouble_of, with_last};

    ghost disk = { disk_of };

    ghost may_leave = { λ image. F.may_leave (file_of image) };

    ghost moment = { λ image. F.moment (file_of image) };

    ghost left_since = { λ image. F.left_since (file_of image) };

    fn sectors(&self) -> u64 {
        self.sectors
    }

    fn lend_sectors(&self, _first: u64, _count: u64) -> Option<&[u8]> {
        None
    }

    #[tactic(auto, using(crate::proofs::Stops::touches_none))]
    fn write_in_place<S: Source>(&mut self, _first: u64, _from: &S) -> bool {
        false
    }

    fn read_sector(&mut self, sector: u64, into: &mut [u8; 512]) -> Result<(), ImageError>
        requires { sector < (disk_of self.old).sector_count }
        ensures read { OnOk result (IsSectorContents (disk_of self.old) sector into.new) }
        ensures ok { OnOk result (disk_of self.new ≡ disk_of self.old) }
        ensures err { OnErr result (disk_of self.new ≡ failed (disk_of self.old)) }
        ensures untried { IsSpent self.old → IsOk result }
        ensures untouched { IsSpent self.old → file_of self.new ≡ file_of self.old }
        ensures held { OnOk result (IsTried self.old →
            HasSector (F.held (file_of self.old)) sector into.new) }
        ensures stays { F.held (file_of self.new) ≡ F.held (file_of self.old) }
        ensures touches { TouchesNothing F.moment F.may_leave F.left_since
            (file_of self.old) (file_of self.new) }
        ensures settled { IsSettled F.IsSynced self.old → IsSettled F.IsSynced self.new }
        ensures quiet { OnOk result (trouble_of self.new ≡ trouble_of self.old) }
        ensures noted { OnErr result (IsNoted FileCall.Read (Some sector)
            (trouble_of self.old) (trouble_of self.new)) }
    {
        if self.failures == u64::MAX {
            return Ok(());
        }
        let answer = backing::read_sector(&mut self.file, sector, into);
        self.counted(FileCall::Read, Some(sector), answer)
    }

    fn write_sector(&mut self, sector: u64, from: &[u8; 512]) -> Result<(), ImageError>
        requires { sector < (disk_of self.old).sector_count }
        ensures ok { OnOk result (disk_of self.new ≡ written sector from.now (disk_of self.old)) }
        ensures err { OnErr result (IsTorn sector (disk_of self.old) (disk_of self.new)) }
        ensures untried { IsSpent self.old → IsOk result }
        ensures untouched { IsSpent self.old → file_of self.new ≡ file_of self.old }
        ensures put { IsTried self.old → PutsSector sector from.now result
            (F.held (file_of self.old)) (F.held (file_of self.new)) }
        ensures short { IsTried self.old → LeavesShort sector result
            (F.held (file_of self.old)) (F.held (file_of self.new)) }
        ensures settled { IsSettled F.IsSynced self.new }
        ensures touches { TouchesSector F.moment F.may_leave F.left_since sector
            (file_of self.old) (file_of self.new) }
        ensures quiet { OnOk result (trouble_of self.new ≡ with_last sector (trouble_of self.old)) }
        ensures noted { OnErr result (IsNoted FileCall.Write (Some sector)
            (with_last sector (trouble_of self.old)) (trouble_of self.new)) }
    {
        self.dirty = true;
        self.last = Some(sector);
        if self.failures == u64::MAX {
            return Ok(());
        }
        let answer = backing::write_sector(&mut self.file, sector, from);
        self.counted(FileCall::Write, Some(sector), answer)
    }

    fn flush(&mut self) -> Result<(), ImageError>
        ensures ok { OnOk result (disk_of self.new ≡ flushed (disk_of self.old)) }
        ensures err { OnErr result (disk_of self.new ≡ failed (disk_of self.old)) }
        ensures untried { IsSpent self.old → IsOk result }
        ensures untouched { IsSpent self.old → file_of self.new ≡ file_of self.old }
        ensures synced { OnOk result (IsTried self.old → F.IsSynced (file_of self.new)) }
        ensures stays { F.held (file_of self.new) ≡ F.held (file_of self.old) }
        ensures touches { TouchesNothing F.moment F.may_leave F.left_since
            (file_of self.old) (file_of self.new) }
        ensures settled { IsTried self.old → IsSettled F.IsSynced self.old → IsSettled F.IsSynced self.new }

        // once a sync has failed each flush fails, and leaves the file alone
        ensures lost { IsTrue (trouble_of self.old).is_lost → IsTried self.old → IsErr result }
        ensures left { IsTrue (trouble_of self.old).is_lost → file_of self.new ≡ file_of self.old }
        ensures quiet { OnOk result (trouble_of self.new ≡ trouble_of self.old) }
        ensures noted { OnErr result (IsNoted FileCall.Sync (trouble_of self.old).last
            (lost (trouble_of self.old)) (trouble_of self.new)) }
    {
        if self.failures < u64::MAX {
            let answer = self.synced();
            self.counted(FileCall::Sync, self.last, answer)?;
        }
        self.dirty = false;
        Ok(())
    }

    ghost whole = { λ image. tt };

    ghost fits = { λ image. Prim.omega (arith, image.fits) };

    ghost durable = { λ image left may clean. tt };

    ghost counts_now = { λ image. F.counts_now (file_of image) };
}
