//! The page of a replay, in a file.

ghost use Rattle.std.specs.Prelude.{◌<◌, IfSome, length};

use crate::page_text::{HEAD, TAIL};
use crate::replaying::{show, try_replay};
use crate::weave::Text;
use calls::{Advice, refuse, told};
use replay::ReplayFault;
use sector_cache::MemoryImage;
use std::alloc::Global;
use std::io::{ErrorKind, Write};
use std::rt::Files;
use std::{fs, io};
use trace::write_whole;

/// Makes the file anew, and writes the page of a replay of this text to it. A replay that comes to no end leaves the file
/// as it is.
pub fn save_page<R: Eprint + Files>(
    rt: &R,
    alloc: Global,
    text: &[u8],
    image: MemoryImage,
    path: &str,
) -> Result<(), ReplayFault> {
    told(rt, text, try_replay(alloc, text, &image))?;
    let file = match fs::create(rt, path) {
        Ok(file) => file,
        Err(error) => return refuse(rt, ReplayFault::Write, Advice::Unmade(path, error)),
    };
    match write_page(alloc, text, image, file) {
        Err(ReplayFault::Write) => refuse(rt, ReplayFault::Write, Advice::Unsaved(path)),
        Err(ReplayFault::NoMemory) => {
            refuse(rt, ReplayFault::NoMemory, Advice::Memory("the page"))
        }
        outcome => outcome,
    }
}

// Writes the page of a replay of this text.
fn write_page<W: Write + Drop>(
    alloc: Global,
    text: &[u8],
    image: MemoryImage,
    out: W,
) -> Result<(), ReplayFault> {
    let mut page = Page::new(alloc, out);
    if !page.put(HEAD) {
        return Err(ReplayFault::Write);
    }
    let (mut page, outcome) = show(alloc, text, image, page);
    outcome?;
    if page.put(TAIL) {
        Ok(())
    } else {
        Err(ReplayFault::Write)
    }
}

// What stands before the first sign that means something in a page, the sign, and what follows it.
fn take_to_sign(text: &[u8]) -> Option<(&[u8], u8, &[u8])>
    ensures { IfSome result (λ cut. length cut.2.now < length text.now) }
{
    match memchr::memchr2(b'<', b'&', text) {
        Some(i) => Some((&text[..i], text[i], &text[i + 1..])),
        None => None,
    }
}

/// A writer of text into a page: signs that mean something there are written by their names.
#[derive(Drop)]
struct Page<W: Write + Drop> {
    out: W,
    text: Text,
}

impl<W: Write + Drop> Page<W> {
    // One in front of a writer.
    fn new(alloc: Global, out: W) -> Page<W> {
        Page {
            out,
            text: Text::new(alloc),
        }
    }

    // Writes what is a page's own, and answers whether all went out.
    fn put(&mut self, page: &str) -> bool {
        write_whole(&mut self.out, page.as_bytes())
    }
}

impl<W: Write + Drop> Write for Page<W> {
    fn write(&mut self, bytes: &[u8]) -> io::Result<usize> {
        self.text.clear();
        let mut rest = bytes;
        while let Some((before, sign, after)) = take_to_sign(rest) {
            self.text.put(before);
            self.text.say(if sign == b'<' { "&lt;" } else { "&amp;" });
            rest = after;
        }
        self.text.put(rest);
        if self.text.is_full() {
            Err(io::Error::from(ErrorKind::OutOfMemory))
        } else if write_whole(&mut self.out, self.text.bytes()) {
            Ok(bytes.len())
        } else {
            Err(io::Error::from(ErrorKind::Other))
        }
    }

    fn flush(&mut self) -> io::Result<()> {
        self.out.flush()
    }
}
