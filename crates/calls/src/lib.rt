//! What the programs over traces share: the files of a call, the replay of its trace, and what is told of a refusal.
//!
//! `opening` opens and reads the files that a call names, `image` makes the image, `replaying` replays and keeps it.
//! `fault` and `last_line` tell why a call did not come to its end. `advice` and `lines` tell a person more of it on
//! standard error, with the slot that `whose` finds, and `manual` what a program says of itself. `streams` holds the numbers of the
//! standard streams, and `words` begins a call and takes the words after the program's name.
#![tactic(auto)]

mod advice;
mod fault;
mod image;
mod last_line;
mod lines;
mod manual;
mod opening;
mod replaying;
mod streams;
mod whose;
mod words;

pub use advice::{Advice, refuse, tell, tell_failures, told};
pub use fault::Fault;
pub use image::{NoImage, read_image, zero_image};
pub use last_line::end;
pub use manual::Manual;
pub use opening::{image_in, open, text_in};
pub use replaying::replayed;
pub use words::{Started, refuse_words, start};
