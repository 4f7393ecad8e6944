//! The program's work, over a runtime that tests can replace.

use crate::page::save_page;
use crate::replaying::show;
use crate::words::{Call, read_words};
use calls::{Advice, Fault, Manual, end, image_in, refuse, text_in, told, zero_image};
use replay::ReplayFault;
use sector_cache::MemoryImage;
use std::alloc::Global;
use std::io;
use std::rt::Files;

/// What the program says of itself.
const MANUAL: Manual = Manual {
    name: "vshow",
    call: "vshow TRACE, or vshow TRACE IMAGE, with --page FILE",
    help: HELP,
};

const HELP: &str =
    "vshow replays a trace, and says in the standard's names what happened, as a text or as a page.

Usage: vshow TRACE [IMAGE] [--page FILE]

  TRACE          the trace's file, a text
  IMAGE          the image's file, whole sectors of 512 bytes, which is only read; without it, eight sectors of zeros
  --page FILE    writes one HTML page to FILE, and no text to standard output
  --             what follows is a file's name, whatever it begins with
  -h, --help     prints this, to standard error
  -V, --version  prints the version, to standard error

Example: vshow broken-driver.trace --page page.html

Status: 0  the trace was replayed
        1  the trace or its board is refused
        2  the words name no call; so also after --help and --version
        3  a file, a stream or memory failed";

/// Does what the words after the program's name ask for, and answers the status.
pub fn program<R: Print + Eprint + Files + AllocGlobal>(rt: &R, words: &[String]) -> u8 {
    end(&carry_out(rt, words), &mut io::writer(rt))
}

// Does what the words ask for, all but the last line.
fn carry_out<R: Print + Eprint + Files + AllocGlobal>(
    rt: &R,
    words: &[String],
) -> Result<(), Fault> {
    let call = match read_words(rt.alloc(), words) {
        Ok(call) => call,
        Err(fault) => return refuse(rt, fault, Advice::on_words(fault, MANUAL, words)),
    };
    show_files(rt, rt.alloc(), &call)?;
    Ok(())
}

// Shows the call's trace over its image.
fn show_files<R: Print + Eprint + Files>(
    rt: &R,
    alloc: Global,
    call: &Call<'_>,
) -> Result<(), ReplayFault> {
    let image = image_of(rt, alloc, call)?;
    let text = text_in(rt, alloc, call.trace)?;
    match call.page {
        Some(path) => save_page(rt, alloc, &text, image, path),
        None => {
            let (_, outcome) = show(alloc, &text, image, io::writer(rt));
            told(rt, &text, outcome)
        }
    }
}

// The image of a call.
fn image_of<R: Eprint + Files>(
    rt: &R,
    alloc: Global,
    call: &Call<'_>,
) -> Result<MemoryImage, ReplayFault> {
    if let Some(path) = call.image {
        return image_in(rt, alloc, path);
    }
    match zero_image(alloc) {
        Ok(image) => Ok(image),
        Err(fault) => refuse(rt, fault, Advice::Memory("the image")),
    }
}
