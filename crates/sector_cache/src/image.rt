//! What a disk image is: the calls that the cache makes, and what each of them leaves.

ghost use Rattle.std.specs.Prelude.{◌≡◌, ◌+◌, ◌*◌, ◌^◌, ◌<◌, ◌≤◌, ℕ, Bool, List, false, length, is_some, IfSome, OnOk, OnErr};
ghost use Rattle.std.specs.Bool.{OnTrue, OnFalse};
ghost use Rattle.sector_cache.specs.Disk.{Disk, IsWhole, IsSectorContents, IsTorn, LeavesContents, Tells, failed, written, written_from, flushed};
ghost use Rattle.sector_cache.specs.Stop.{TouchesFrom, TouchesNothing, TouchesSector, unnumbered, unrecorded};

use crate::source::Source;
use thiserror::Error;

/// A call of an image failed. What stands in `into` after a failed read is left open.
#[derive(Clone, Copy, Debug, PartialEq, Eq, Hash, Error)]
#[error("the image failed")]
pub struct ImageError;

/// A disk of `sectors()` sectors of 512 bytes, numbered from 0.
///
/// Its meaning is its `disk`: its contents, the number of its failures and whether it is dirty. An image over a file tells
/// no bytes, since nobody knows what a file holds: clauses about bytes then say nothing, and all others hold. An image
/// that tells its bytes goes on to, since each call says what they are after it.
pub trait Image {
    ghost disk: { Self → Disk };

    // whether it lends its sectors where they lie
    ghost lends: { Self → Bool } = { λ _. false };

    // what a stop at this moment, as a loss of power, may leave of its bytes
    ghost may_leave: { Self → List ℕ → Type 0 };

    // the number of this moment, which doesn't fall
    ghost moment: { Self → ℕ } = { unnumbered };

    // what a stop at any moment since that number might have left, within a call too: anything, where that isn't recorded
    ghost left_since: { Self → ℕ → List ℕ → Type 0 } = { unrecorded };

    fn sectors(&self) -> u64
        ensures { result ≡ (disk self.now).sector_count };

    /// Lends the bytes of `count` sectors from sector `first` on where they lie in memory. An image that isn't there
    /// lends none.
    fn lend_sectors(&self, first: u64, count: u64) -> Option<&[u8]>
        requires { first + count ≤ (disk self.now).sector_count }
        ensures lent { is_some result ≡ lends self.now }
        ensures contents { IfSome result (λ bytes. Tells (disk self.now) first count bytes.now) };

    /// Writes sectors from sector `first` on where they lie in memory, and answers whether they do. An image that isn't
    /// there is left as it is.
    fn write_in_place<S: Source>(&mut self, first: u64, from: &S) -> bool
        requires { 512 * first + length (S.bytes from.now) ≤ 512 * (disk self.old).sector_count }
        ensures lent { result ≡ lends self.old }
        ensures written { OnTrue result (disk self.new ≡ written_from first (S.bytes from.now) (disk self.old)) }
        ensures left { OnFalse result (self.new ≡ self.old) }
        ensures touches { TouchesFrom moment may_leave left_since first (length (S.bytes from.now)) self.old self.new };

    /// After an `Err` `into` may hold any bytes.
    fn read_sector(&mut self, sector: u64, into: &mut [u8; 512]) -> Result<(), ImageError>
        requires { sector < (disk self.old).sector_count }
        ensures read { OnOk result (IsSectorContents (disk self.old) sector into.new) }
        ensures ok { OnOk result (disk self.new ≡ disk self.old) }
        ensures err { OnErr result (disk self.new ≡ failed (disk self.old)) }
        ensures touches { TouchesNothing moment may_leave left_since self.old self.new };

    /// After an `Err` the sector may hold any 512 bytes.
    fn write_sector(&mut self, sector: u64, from: &[u8; 512]) -> Result<(), ImageError>
        requires { sector < (disk self.old).sector_count }
        ensures ok { OnOk result (disk self.new ≡ written sector from.now (disk self.old)) }
        ensures err { OnErr result (IsTorn sector (disk self.old) (disk self.new)) }
        ensures touches { TouchesSector moment may_leave left_since sector self.old self.new };

    /// Hands what was written so far to the medium.
    fn flush(&mut self) -> Result<(), ImageError>
        ensures ok { OnOk result (disk self.new ≡ flushed (disk self.old)) }
        ensures err { OnErr result (disk self.new ≡ failed (disk self.old)) }
        ensures touches { TouchesNothing moment may_leave left_since self.old self.new };

    // there are 512 bytes for each sector, as far as the contents are known
    ghost whole: { (image : Self) → IsWhole (disk image) };

    // a `u64` numbers them
    ghost fits: { (image : Self) → (disk image).sector_count < 2 ^ 64 };

    // where it is clean, a stop leaves exactly its contents
    ghost durable: { (image : Self) (left : List ℕ) → may_leave image left → LeavesContents (disk image) left };

    // this moment is one of those since an earlier one
    ghost counts_now: { (image : Self) (since : ℕ) (left : List ℕ) → since ≤ moment image → may_leave image left → left_since image since left };
}
