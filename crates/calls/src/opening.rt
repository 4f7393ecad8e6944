//! The files that a call names: opened, and read.

ghost use Rattle.std.specs.Prelude.{◌≡◌, ◌⊎◌, IfErr, true, false};
ghost use Rattle.replay.specs.declared.fault.ReplayFault.{ReplayFault};
ghost use Rattle.std.specs.Fs.{asks_append, asks_create, asks_create_new, asks_read, asks_truncate, asks_write};

use crate::advice::{Advice, refuse};
use crate::image::{NoImage, read_image};
use replay::{ReplayFault, gather};
use sector_cache::MemoryImage;
use std::alloc::Allocator;
use std::fs::OpenOptions;
use std::rt::Files;

/// The image of a file's bytes.
pub fn image_in<A: Allocator, R: Eprint + Files>(
    rt: &R,
    alloc: A,
    path: &str,
) -> Result<MemoryImage<A>, ReplayFault>
    ensures fault { IfErr result (λ fault. (fault ≡ ReplayFault.Read) ⊎ (fault ≡ ReplayFault.NoMemory)) }
{
    let read = read_image(alloc, &mut open(rt, path, false)?);
    match read {
        Ok(image) => Ok(image),
        Err(NoImage::Unread) => refuse(rt, ReplayFault::Read, Advice::Unread(path)),
        Err(NoImage::Ragged) => refuse(rt, ReplayFault::Read, Advice::Ragged(path)),
        Err(NoImage::NoMemory) => refuse(rt, ReplayFault::NoMemory, Advice::Memory("the image")),
    }
}

/// The text of a file.
pub fn text_in<A: Allocator, R: Eprint + Files>(
    rt: &R,
    alloc: A,
    path: &str,
) -> Result<Vec<u8, A>, ReplayFault>
    ensures fault { IfErr result (λ fault. (fault ≡ ReplayFault.Read) ⊎ (fault ≡ ReplayFault.NoMemory)) }
{
    let gathered = gather(alloc, &mut open(rt, path, false)?);
    match gathered {
        Ok(text) => Ok(text),
        Err(fault) => refuse(rt, fault, Advice::on_reading(fault, path)),
    }
}

/// Opens a file that is there, to be read and perhaps to be written too.
pub fn open<R: Eprint + Files>(rt: &R, path: &str, writes: bool) -> Result<R::File, ReplayFault>
    ensures fault { IfErr result (λ fault. fault ≡ ReplayFault.Read) }
{
    match access(writes).open(rt, path) {
        Ok(file) => Ok(file),
        Err(error) => refuse(rt, ReplayFault::Read, Advice::Unopened(path, error)),
    }
}

// How a file is opened that is there: it is neither made nor cut.
fn access(writes: bool) -> OpenOptions
    ensures reads { asks_read result ≡ true }
    ensures writes { asks_write result ≡ writes }
    ensures whole { (asks_truncate result ≡ false) × (asks_append result ≡ false) }
    ensures there { (asks_create result ≡ false) × (asks_create_new result ≡ false) }
{
    let mut options = OpenOptions::new();
    options.read(true).write(writes);
    options
}
