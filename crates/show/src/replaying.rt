//! A trace replayed as `vreplay` does it, with what happened said between the records.
//!
//! The records are those of a replay over the image, as they are written. A second board over a copy of the image goes
//! along with them, event by event, to say what each was.

ghost use Rattle.std.specs.Prelude.{OnOk, false};
ghost use Rattle.std.specs.Global.{Global};
ghost use Rattle.std.specs.Io.KnownBytes.{Keeps};
ghost use Rattle.sector_cache.specs.MemoryImage.{disk_of};
ghost use Rattle.show.specs.Weaver.{weaver_records};
ghost use Rattle.show.specs.Woven.{records_of};
ghost use Rattle.show.specs.Replaying.{ShowsRun};

use crate::teller::Teller;
use crate::weave::Weaver;
use calls::replayed;
use replay::ReplayFault;
use sector_cache::MemoryImage;
use std::alloc::Global;
use std::io;
use std::io::{ErrorKind, Write};

/// Replays a trace's text over an image, and writes the records, each behind what is said of its event and before what came
/// of that.
pub fn show<W: Write + Drop>(
    alloc: Global,
    text: &[u8],
    image: MemoryImage,
    out: W,
) -> (W, Result<(), ReplayFault>)
    ensures { OnOk result.1 (ShowsRun Global text.now (W.contents out) (W.contents result.0) (disk_of image)) }
{
    let Some(before) = copied(alloc, &image) else {
        return (out, Err(ReplayFault::NoMemory));
    };
    let teller = Teller::new(alloc, text, before);
    let mut weaver = Weaver::new(alloc, teller, out);
    match replayed(alloc, text, &mut weaver, image) {
        Ok(_) => end(weaver),
        Err(fault) => {
            let (out, fault) = give_up(weaver, fault);
            (out, Err(fault))
        }
    }
}

// Ends what was woven of a replay that came to its end.
fn end<W: Write + Drop>(weaver: Weaver<Teller<'_>, W>) -> (W, Result<(), ReplayFault>)
    ensures { OnOk result.1 (Keeps (weaver_records W.contents weaver.entry) (records_of false (W.contents result.0))) }
{
    let (out, outcome) = weaver.end();
    match outcome {
        Ok(()) => (out, Ok(())),
        Err(error) if error.kind() == ErrorKind::OutOfMemory => (out, Err(ReplayFault::NoMemory)),
        Err(_) => (out, Err(ReplayFault::Write)),
    }
}

// The writer after a replay that didn't come to its end, and the fault: where it is that of the output, but there was no
// memory for that, it is that.
fn give_up<W: Write + Drop>(weaver: Weaver<Teller<'_>, W>, fault: ReplayFault) -> (W, ReplayFault) {
    let (out, is_full) = weaver.give_up();
    match fault {
        ReplayFault::Write if is_full => (out, ReplayFault::NoMemory),
        other => (out, other),
    }
}

/// Replays a trace's text over a copy of the image, and keeps nothing: whether there is anything to show.
pub fn try_replay(alloc: Global, text: &[u8], image: &MemoryImage) -> Result<(), ReplayFault> {
    let Some(copy) = copied(alloc, image) else {
        return Err(ReplayFault::NoMemory);
    };
    replayed(alloc, text, &mut io::sink(), copy)?;
    Ok(())
}

// The same image once more.
fn copied(alloc: Global, image: &MemoryImage) -> Option<MemoryImage> {
    let Ok(bytes) = image.bytes().to_vec(alloc) else {
        return None;
    };
    MemoryImage::new(bytes).ok()
}
