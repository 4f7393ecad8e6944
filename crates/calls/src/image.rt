//! The image that a trace is replayed over.

ghost use Rattle.std.specs.Prelude.{◌≡◌, ◌≢◌, ◌%◌, IfOk, IfErr, IfSome, IsErrOf, OnOk, length, replicate};
ghost use Rattle.std.specs.Io.KnownBytes.{IsAtEnd};
ghost use Rattle.sector_cache.specs.Disk.{new_disk};
ghost use Rattle.sector_cache.specs.MemoryImage.{disk_of};

use replay::{ReplayFault, gather};
use sector_cache::{ImageFault, MemoryImage, SECTOR_LEN};
use std::alloc::{AllocError, Allocator};
use std::io::Read;

/// Why there is no image of what was read.
#[derive(Clone, Copy)]
pub enum NoImage {
    Unread,
    /// What was read isn't whole sectors.
    Ragged,
    NoMemory,
}

/// The bytes of the image of a call without words: eight sectors.
const ZERO_BYTES: usize = 8 * SECTOR_LEN;

/// An image of eight zero sectors.
pub fn zero_image<A: Allocator>(alloc: A) -> Result<MemoryImage<A>, ReplayFault>
    ensures zeros { IfOk result (λ image. disk_of image ≡ new_disk (replicate 4096 0)) }
    ensures fault { IfErr result (λ fault. fault ≡ ReplayFault.NoMemory) }
{
    let Ok(bytes) = zeros(alloc) else {
        return Err(ReplayFault::NoMemory);
    };
    match MemoryImage::new(bytes) {
        Ok(image) => Ok(image),
        Err(ImageFault::BadSize) => unreachable!(),
    }
}

// The bytes of eight zero sectors.
fn zeros<A: Allocator>(alloc: A) -> Result<Vec<u8, A>, AllocError>
    ensures { IfOk result (λ bytes. bytes.items ≡ replicate 4096 0) }
{
    vec![in alloc; 0; ZERO_BYTES]
}

/// Reads an image to the reader's end. Its bytes must be whole sectors.
pub fn read_image<A: Allocator, T: Read>(
    alloc: A,
    reader: &mut T,
) -> Result<MemoryImage<A>, NoImage>
    ensures all { IfOk result (λ image. IfSome (T.remaining reader.old) (λ bytes. disk_of image ≡ new_disk bytes)) }
    ensures whole { OnOk result (IfSome (T.remaining reader.old) (λ bytes. length bytes % 512 ≡ 0)) }
    ensures end { OnOk result (IsAtEnd (T.remaining reader.new)) }
    ensures ragged { IsErrOf result NoImage.Ragged → IfSome (T.remaining reader.old) (λ bytes. length bytes % 512 ≢ 0) }
{
    let gathered = match gather(alloc, reader) {
        Ok(gathered) => gathered,
        Err(ReplayFault::NoMemory) => return Err(NoImage::NoMemory),
        Err(_) => return Err(NoImage::Unread),
    };
    match MemoryImage::new(gathered) {
        Ok(image) => Ok(image),
        Err(ImageFault::BadSize) => Err(NoImage::Ragged),
    }
}
