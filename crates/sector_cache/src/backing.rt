//! What an image asks of the file that holds its bytes.

ghost use Rattle.std.specs.Prelude.{◌≡◌, ◌≢◌, ◌↔◌, ◌+◌, ◌*◌, ◌<◌, ◌≤◌, ◌^◌, ℕ, List, Option, None, ⊤, IfSome, IfOk, IfErr, IsOk, OnOk, length, take, drop};
ghost use Rattle.std.specs.Io.{ReadsAtMost, WritesAtMost};
ghost use Rattle.std.specs.IoError.{error_kind};
ghost use Rattle.sector_cache.specs.Backing.{Gets, HasSector, LeavesShort, Puts, PutsSector, count_of};
ghost use Rattle.sector_cache.specs.Stop.{TouchesNothing, TouchesOnly, TouchesSector, unnumbered, unrecorded};

use crate::fault::FileImageFault;
use crate::sector::SECTOR_LEN;
use std::fs::{File, TryLockError};
use std::io;
use std::io::{ErrorKind, Seek, SeekFrom};
use std::os::unix::fs::{FileExt, FileTypeExt};

/// A file that is read and written at places that the caller names.
///
/// Nobody knows what a file of the system holds, so nothing is said of its bytes. Where a file tells what it holds, as one
/// of a test does, each call says what became of that. Its medium keeps its word: what a sync said is there after a stop.
pub trait BackingFile: Drop {
    // the bytes that the file holds, where they are known
    ghost held: { Self → Option (List ℕ) };

    // what was written has been synced, as far as that is known
    ghost IsSynced: { Self → Type 0 };

    // what a stop at this moment, as a loss of power, may leave of the bytes
    ghost may_leave: { Self → List ℕ → Type 0 };

    // the number of this moment, which doesn't fall
    ghost moment: { Self → ℕ } = { unnumbered };

    // what a stop at any moment since that number might have left, within a call too: anything, where that isn't recorded
    ghost left_since: { Self → ℕ → List ℕ → Type 0 } = { unrecorded };

    // the medium keeps what a sync said
    ghost keeps: { (file : Self) (left : List ℕ) → IsSynced file → may_leave file left → IfSome (held file) (λ bytes. left ≡ bytes) };

    // this moment is one of those since an earlier one
    ghost counts_now: { (file : Self) (since : ℕ) (left : List ℕ) → since ≤ moment file → may_leave file left → left_since file since left };

    /// Takes the file for one holder, as far as the system knows of locks, until it is closed. Refuses
    /// what can't hold an image.
    fn hold(&mut self) -> Result<(), FileImageFault>
        ensures refused { IfErr result (λ fault. fault ≢ FileImageFault.BadSize) }
        ensures synced { IsSynced self.old → IsSynced self.new }
        ensures stays { held self.new ≡ held self.old }
        ensures touches { TouchesNothing moment may_leave left_since self.old self.new };

    /// How many bytes the file has.
    fn length(&mut self) -> io::Result<u64>
        ensures length { IfOk result (λ n. IfSome (held self.old) (λ bytes. n ≡ length bytes)) }
        ensures synced { IsSynced self.old → IsSynced self.new }
        ensures stays { held self.new ≡ held self.old }
        ensures touches { TouchesNothing moment may_leave left_since self.old self.new };

    /// Reads what stands from byte `at` on into a front of `into`, and answers how much.
    fn read_from(&mut self, at: u64, into: &mut [u8]) -> io::Result<usize>
        ensures bound { ReadsAtMost result into.new }
        ensures read { Gets at into.new result (held self.old) }
        ensures synced { IsSynced self.old → IsSynced self.new }
        ensures stays { held self.new ≡ held self.old }
        ensures touches { TouchesNothing moment may_leave left_since self.old self.new };

    /// Writes a front of `from` from byte `at` on, and answers how much.
    fn write_to(&mut self, at: u64, from: &[u8]) -> io::Result<usize>
        ensures bound { WritesAtMost result from.now }
        ensures put { Puts at from.now result (held self.old) (held self.new) }
        ensures touches { TouchesOnly moment may_leave left_since at (at + length from.now) self.old self.new };

    /// Hands what was written to the medium. Where that fails, what was synced before still is.
    fn sync(&mut self) -> io::Result<()>
        ensures synced { OnOk result (IsSynced self.new) }
        ensures still { IsSynced self.old → IsSynced self.new }
        ensures stays { held self.new ≡ held self.old }
        ensures touches { TouchesNothing moment may_leave left_since self.old self.new };
}

impl BackingFile for File {
    ghost held = { λ _. None };

    ghost IsSynced = { λ _. ⊤ };

    ghost may_leave = { λ _ _. ⊤ };

    ghost keeps = { λ file left synced may. tt };

    ghost counts_now = { λ file since left reached may. tt };

    // A file system without locks, and a lock that can't be had for another cause, are no refusal.
    #[tactic(auto, using(crate::proofs::Stops::touches_unknown))]
    fn hold(&mut self) -> Result<(), FileImageFault> {
        let Ok(metadata) = self.metadata() else {
            return Err(FileImageFault::Io);
        };
        let kind = metadata.file_type();
        if !kind.is_file() && !kind.is_block_device() {
            return Err(FileImageFault::BadKind);
        }
        match self.try_lock() {
            Err(TryLockError::WouldBlock) => Err(FileImageFault::Locked),
            _ => Ok(()),
        }
    }

    #[tactic(auto, using(crate::proofs::Stops::touches_unknown))]
    fn length(&mut self) -> io::Result<u64> {
        self.seek(SeekFrom::End(0))
    }

    #[tactic(auto, using(crate::proofs::Stops::touches_unknown))]
    fn read_from(&mut self, at: u64, into: &mut [u8]) -> io::Result<usize> {
        self.read_at(into, at)
    }

    fn write_to(&mut self, at: u64, from: &[u8]) -> io::Result<usize> {
        self.write_at(from, at)
    }

    #[tactic(auto, using(crate::proofs::Stops::touches_unknown))]
    fn sync(&mut self) -> io::Result<()> {
        self.sync_data()
    }
}

/// Reads a sector at its place. One that isn't whole in the file has failed.
pub(crate) fn read_sector<F: BackingFile>(
    file: &mut F,
    sector: u64,
    into: &mut [u8; SECTOR_LEN],
) -> io::Result<()>
    requires { 512 * sector < 2 ^ 64 }
    ensures read { OnOk result (HasSector (F.held file.old) sector into.new) }
    ensures synced { F.IsSynced file.old → F.IsSynced file.new }
    ensures stays { F.held file.new ≡ F.held file.old }
    ensures touches { TouchesNothing F.moment F.may_leave F.left_since file.old file.new }
{
    let at = sector * SECTOR_LEN as u64;
    let mut done = 0;
    for _turn in 0..u64::MAX {
        if done == SECTOR_LEN {
            return Ok(());
        }
        done += moved(file.read_from(at + done as u64, &mut into[done..]))?;
    }
    Err(io::Error::from(ErrorKind::Interrupted))
}

/// Writes a sector at its place. A file that no longer has all of it is left alone, and the write has failed.
pub(crate) fn write_sector<F: BackingFile>(
    file: &mut F,
    sector: u64,
    from: &[u8; SECTOR_LEN],
) -> io::Result<()>
    requires { 512 * sector < 2 ^ 64 }
    ensures put { PutsSector sector from.now result (F.held file.old) (F.held file.new) }
    ensures short { LeavesShort sector result (F.held file.old) (F.held file.new) }
    ensures touches { TouchesSector F.moment F.may_leave F.left_since sector file.old file.new }
{
    if file.length()? / SECTOR_LEN as u64 <= sector {
        return Err(io::Error::from(ErrorKind::UnexpectedEof));
    }
    write_whole(file, sector, from)
}

// Writes a sector at its place in a file that has it.
fn write_whole<F: BackingFile>(file: &mut F, sector: u64, from: &[u8; SECTOR_LEN]) -> io::Result<()>
    requires { 512 * sector < 2 ^ 64 }
    ensures put { PutsSector sector from.now result (F.held file.old) (F.held file.new) }
    ensures touches { TouchesSector F.moment F.may_leave F.left_since sector file.old file.new }
{
    let at = sector * SECTOR_LEN as u64;
    let mut done = 0;
    for _turn in 0..u64::MAX {
        if done == SECTOR_LEN {
            return Ok(());
        }
        done += moved(file.write_to(at + done as u64, &from[done..]))?;
    }
    Err(io::Error::from(ErrorKind::Interrupted))
}

// How many bytes a call moved: none where a signal interrupted it, which is then made again. A call that moves none
// by itself has failed, since it is at the file's end.
fn moved(count: io::Result<usize>) -> io::Result<usize>
    ensures count { IfOk result (λ n. n ≡ count_of count) }
    ensures none { IfOk count (λ n. n ≢ 0 ↔ IsOk result) }
    ensures again { IfErr count (λ e. error_kind e ≡ ErrorKind.Interrupted ↔ IsOk result) }
{
    match count {
        Ok(0) => Err(io::Error::from(ErrorKind::UnexpectedEof)),
        Ok(n) => Ok(n),
        Err(error) if error.kind() == ErrorKind::Interrupted => Ok(0),
        Err(error) => Err(error),
    }
}
