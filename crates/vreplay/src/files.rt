//! A replay over files.

ghost use Rattle.std.specs.Prelude.{◌≡◌, IfOk, IfErr, OnOk, is_some};
ghost use Rattle.std.specs.Io.KnownBytes.{Appends};
ghost use Rattle.trace.specs.Sends.{AppendsFront};
ghost use Rattle.vreplay.specs.Words.{saved_to};

use crate::words::{Call, Keeping};
use calls::{Advice, image_in, open, refuse, replayed, tell_failures, text_in, told};
use replay::{ReplayFault, replay_text};
use sector_cache::{BackingFile, FileImage, FileImageFault, MemoryImage};
use std::alloc::Allocator;
use std::fs;
use std::io::Write;
use std::rt::Files;
use trace::write_whole;

/// Replays the call's trace over its image. Where the call asks for it the image's bytes are then saved, or
/// else the image is served in place. The answer is the file that was saved to. A person is told of each fault.
pub fn replay_files<A: Allocator + Copy, R: Eprint + Files, W: Write>(
    rt: &R,
    alloc: A,
    call: &Call<'_>,
    out: &mut W,
) -> Result<Option<R::File>, ReplayFault>
where
    R::File: BackingFile,
    ensures saved { IfOk result (λ file. is_some file ≡ is_some (saved_to call.now.keeping)) }
{
    match call.keeping {
        Keeping::Unchanged => {
            replay_whole(rt, alloc, call, out)?;
            Ok(None)
        }
        Keeping::Saved(path) => Ok(Some(replay_and_save(rt, alloc, call, path, out)?)),
        Keeping::InPlace => {
            let image = image_at(rt, call.image)?;
            replay_in_place(rt, alloc, call, image, out)?;
            Ok(None)
        }
    }
}

// Replays the trace over an image that is read whole, and saves its bytes.
fn replay_and_save<A: Allocator + Copy, R: Eprint + Files, W: Write>(
    rt: &R,
    alloc: A,
    call: &Call<'_>,
    path: &str,
    out: &mut W,
) -> Result<R::File, ReplayFault> {
    let image = replay_whole(rt, alloc, call, out)?;
    save(rt, path, image.bytes())
}

// Replays the trace over an image that is read whole. The image's own file is only read.
fn replay_whole<A: Allocator + Copy, R: Eprint + Files, W: Write>(
    rt: &R,
    alloc: A,
    call: &Call<'_>,
    out: &mut W,
) -> Result<MemoryImage<A>, ReplayFault> {
    let image = image_in(rt, alloc, call.image)?;
    let text = text_in(rt, alloc, call.trace)?;
    told(rt, &text, replayed(alloc, &text, out, image))
}

// Replays the trace over the image's own file. A person is told where calls of that failed.
fn replay_in_place<A: Allocator + Copy, R: Eprint + Files, F: BackingFile, W: Write>(
    rt: &R,
    alloc: A,
    call: &Call<'_>,
    image: FileImage<F>,
    out: &mut W,
) -> Result<FileImage<F>, ReplayFault> {
    let text = text_in(rt, alloc, call.trace)?;
    let (image, outcome) = replay_text(alloc, &text, out, image);
    tell_failures(rt, alloc, &text, call.image, &image);
    told(rt, &text, outcome)?;
    Ok(image)
}

// The image that a file is.
fn image_at<R: Eprint + Files>(rt: &R, path: &str) -> Result<FileImage<R::File>, ReplayFault>
where
    R::File: BackingFile,
{
    let file = open(rt, path, true)?;
    match FileImage::new(file) {
        Ok(image) => Ok(image),
        Err(FileImageFault::Io) => refuse(rt, ReplayFault::Read, Advice::Unread(path)),
        Err(FileImageFault::BadSize) => refuse(rt, ReplayFault::Read, Advice::Ragged(path)),
        Err(FileImageFault::BadKind) => refuse(rt, ReplayFault::Read, Advice::NoFile(path)),
        Err(FileImageFault::Locked) => refuse(rt, ReplayFault::Read, Advice::Locked(path)),
    }
}

// Makes the file anew, and writes the bytes to it.
fn save<R: Eprint + Files>(rt: &R, path: &str, bytes: &[u8]) -> Result<R::File, ReplayFault>
    ensures { IfErr result (λ fault. fault ≡ ReplayFault.Write) }
{
    let mut file = match fs::create(rt, path) {
        Ok(file) => file,
        Err(error) => return refuse(rt, ReplayFault::Write, Advice::Unmade(path, error)),
    };
    match send(&mut file, bytes) {
        Ok(()) => Ok(file),
        Err(fault) => refuse(rt, fault, Advice::Unsaved(path)),
    }
}

// Writes the bytes to the file, whole, or a front of them.
fn send<W: Write>(file: &mut W, bytes: &[u8]) -> Result<(), ReplayFault>
    ensures whole { OnOk result (Appends (W.contents file.old) (W.contents file.new) bytes.now) }
    ensures front { AppendsFront (W.contents file.old) (W.contents file.new) bytes.now }
    ensures fault { IfErr result (λ fault. fault ≡ ReplayFault.Write) }
{
    if write_whole(file, bytes) {
        Ok(())
    } else {
        Err(ReplayFault::Write)
    }
}
