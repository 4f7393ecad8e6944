//! A trace replayed over an image in memory whose listed calls fail, as no file is.

use replay::{ReplayFault, finish, replay};
use sector_cache::{Image, ScriptedImage};
use std::alloc::{AllocError, Global};
use std::io::{Read, Write};
use std::rt::Files;
use std::{fs, io};

/// Replays the trace of a file over the image of another one, of which the calls of these numbers fail. Behind the records
/// stand the status, how often the image was flushed, and its bytes. The answer is whether it could be replayed.
pub(crate) fn replay_scripted<R: Files + AllocGlobal, W: Write>(
    rt: &R,
    trace: &str,
    image: &str,
    failing: &[String],
    out: &mut W,
) -> io::Result<bool> {
    let alloc = rt.alloc();
    let text = fs::read(rt, trace)?;
    let Some(calls) = numbers_of(alloc, failing)? else {
        return Ok(false);
    };
    let Ok(image) = ScriptedImage::new(fs::read(rt, image)?, calls) else {
        return Ok(false);
    };
    let (image, outcome) = replay_any(alloc, &mut text.as_slice(), out, image);
    let (status, flushes) = (finish(&outcome, out), image.flushes());
    write!(out, "status {status}\nflushes {flushes}\n")?;
    out.write_all(image.bytes())?;
    Ok(true)
}

// The numbers that words are, none where one isn't a number.
fn numbers_of(alloc: Global, words: &[String]) -> Result<Option<Vec<u64>>, AllocError> {
    let mut numbers = Vec::new(alloc);
    for word in words {
        let Ok(number) = word.parse::<u64>() else {
            return Ok(None);
        };
        numbers.push(number)?;
    }
    Ok(Some(numbers))
}

// Replays over any streams and any image. What `replay` promises of them isn't needed here, and is dear to prove of these.
fn replay_any<R: Read, W: Write, I: Image>(
    alloc: Global,
    reader: &mut R,
    writer: &mut W,
    image: I,
) -> (I, Result<(), ReplayFault>) {
    replay(alloc, reader, writer, image)
}
