//! The length of a sector, and sectors of a list of bytes, read and written in place.

ghost use Rattle.std.specs.Prelude.{◌≡◌, ◌↔◌, ◌+◌, ◌*◌, ◌%◌, ◌≤◌, ◌++◌, length, take, drop, IsTrue};
ghost use Rattle.sector_cache.specs.Sector.{extent_of, sector_of, with_sector, with_sectors};

use crate::source::Source;

/// The length of a sector in bytes (5.2).
pub const SECTOR_LEN: usize = 512;

/// Whether so many bytes are whole sectors.
pub fn are_whole_sectors(bytes: u64) -> bool
    ensures { IsTrue result ↔ (bytes % 512 ≡ 0) }
{
    bytes.is_multiple_of(SECTOR_LEN as u64)
}

/// So many sectors where they lie.
pub(crate) fn lend(bytes: &[u8], first: u64, count: u64) -> &[u8]
    requires { 512 * (first + count) ≤ length bytes.now }
    ensures { result.now ≡ extent_of bytes.now first count }
{
    let start = first as usize * SECTOR_LEN;
    &bytes[start..start + count as usize * SECTOR_LEN]
}

/// Copies one sector out of `bytes`.
pub(crate) fn copy_from(bytes: &[u8], sector: u64, into: &mut [u8; SECTOR_LEN])
    requires { 512 * (sector + 1) ≤ length bytes.now }
    ensures { into.new ≡ sector_of bytes.now sector }
{
    let start = sector as usize * SECTOR_LEN;
    into.copy_from_slice(&bytes[start..start + SECTOR_LEN]);
}

/// Copies one sector into `bytes`.
pub(crate) fn copy_into(bytes: &mut [u8], sector: u64, from: &[u8; SECTOR_LEN])
    requires { 512 * (sector + 1) ≤ length bytes.old }
    ensures { bytes.new ≡ with_sector bytes.old sector from.now }
{
    let start = sector as usize * SECTOR_LEN;
    bytes[start..start + SECTOR_LEN].copy_from_slice(from);
}

/// Copies sectors into `bytes`, from sector `first` on.
pub(crate) fn copy_all_into<S: Source>(bytes: &mut [u8], first: u64, from: &S)
    requires { 512 * first + length (S.bytes from.now) ≤ length bytes.old }
    ensures { bytes.new ≡ with_sectors bytes.old first (S.bytes from.now) }
{
    let start = first as usize * SECTOR_LEN;
    from.copy_to(&mut bytes[start..start + from.len() as usize]);
}

/// Copies the first half of one sector over that of another.
pub(crate) fn copy_half(into: &mut [u8; SECTOR_LEN], from: &[u8; SECTOR_LEN])
    ensures { into.new ≡ take 256 from.now ++ drop 256 into.old }
{
    into[..SECTOR_LEN / 2].copy_from_slice(&from[..SECTOR_LEN / 2]);
}
