//! A replay of which the image is wanted afterwards.

ghost use Rattle.std.specs.Prelude.{Some, IfOk};
ghost use Rattle.sector_cache.specs.MemoryImage.{disk_of};
ghost use Rattle.board.specs.Image.{Tells};
ghost use Rattle.calls.specs.Replayed.{ComesTo, HasRun};

use replay::{ReplayFault, replay_text};
use sector_cache::MemoryImage;
use std::alloc::Allocator;
use std::io::Write;

/// Replays a trace's text over the image and writes its records. The image is handed back after a replay that
/// came to its end.
pub fn replayed<A: Allocator + Copy, W: Write>(
    alloc: A,
    text: &[u8],
    out: &mut W,
    image: MemoryImage<A>,
) -> Result<MemoryImage<A>, ReplayFault>
    ensures comes_to { ComesTo A disk_of (Some text.now) (W.contents out.old) (W.contents out.new) image result }
    ensures tells { Tells (disk_of image) }
    ensures run { IfOk result (λ after. HasRun A (Some text.now) (W.contents out.old) (W.contents out.new) (disk_of image) (disk_of after)) }
{
    match replay_text(alloc, text, out, image) {
        (image, Ok(())) => Ok(image),
        (_, Err(fault)) => Err(fault),
    }
}
