//! Replays of a text of which a request for memory is refused.

use super::{Guests, Refusing};
use crate::calls::answer::put_result;
use crate::calls::subject::{Answered, Stuck};
use crate::calls::words::Words;
use replay::{ReplayFault, replay};
use sector_cache::{Image, ScriptedImage};
use std::alloc::Allocator;
use std::io::{Read, Write};

impl<H: Refusing> Guests<H> {
    /// Replays a text over the image that was asked for, with the nth request for memory refused, and those behind it: what it
    /// came to.
    pub(super) fn replay(&self, words: &mut Words<'_>, answer: &mut String) -> Answered {
        let n = words.u64();
        let mut text = words.rest().as_bytes();
        let mut output = Vec::new(self.alloc);
        let bytes = self.image.to_vec(self.alloc)?;
        let Ok(image) = ScriptedImage::new(bytes, Vec::new(self.alloc)) else {
            return Err(Stuck::Conditions);
        };
        self.heap.refuse_from(n);
        let (_, outcome) = replay_any(self.heap, &mut text, &mut output, image);
        self.heap.refuse_from(0);
        put_result(answer, outcome)
    }
}

// Replays over any streams and any image. What `replay` promises of them isn't needed here, and is dear to prove of these.
fn replay_any<R: Read, W: Write, I: Image, A: Allocator + Copy>(
    heap: A,
    reader: &mut R,
    writer: &mut W,
    image: I,
) -> (I, Result<(), ReplayFault>) {
    replay(heap, reader, writer, image)
}
