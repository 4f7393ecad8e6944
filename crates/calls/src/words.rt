//! The words after a program's name, and what is told where there are none to be had.

ghost use Rattle.std.specs.Prelude.{◌≡◌, ◌<ℤ◌, pos, IfErr, IfOk};
ghost use Rattle.std.specs.Fd.{file_raw_fd};

use crate::advice::{Advice, tell};
use crate::streams::hold;
use replay::{ReplayFault, finish};
use std::fs::File;
use std::io::ErrorKind;
use std::rt::Env;
use std::{env, io};

/// A call of a program.
#[derive(Drop)]
pub struct Started {
    /// The words after the program's own name.
    pub words: Vec<String>,
    /// What keeps the numbers of the standard streams, up to the call's end.
    pub held: File,
}

/// Begins a call, before any other file is opened. Where that fails a person is told, the last line is written, and the
/// answer is the status.
pub fn start(rt: &HostRuntime) -> Result<Started, u8>
    ensures behind { IfOk result (λ call. pos 2 <ℤ file_raw_fd call.held) }
    ensures status { IfErr result (λ status. status ≡ 3) }
{
    let held = match hold(rt) {
        Ok(held) => held,
        Err(error) => return Err(refuse_streams(rt, error)),
    };
    match words_of(rt) {
        Ok(words) => Ok(Started { words, held }),
        Err(error) => Err(refuse_words(rt, &error)),
    }
}

// The words after the program's own name.
fn words_of(rt: &(impl Env + AllocGlobal)) -> io::Result<Vec<String>> {
    Ok(env::args(rt)?.skip(1).collect(rt.alloc())?)
}

/// Writes the last line for words that are no text, or for which there is no memory, and answers the status.
pub fn refuse_words<R: Print + Eprint>(rt: &R, error: &io::Error) -> u8
    ensures { result ≡ 3 }
{
    let (fault, advice) = match error.kind() {
        ErrorKind::OutOfMemory => (ReplayFault::NoMemory, Advice::Memory("the words")),
        _ => (ReplayFault::Read, Advice::NoText),
    };
    tell(rt, advice);
    finish(&Err(fault), &mut io::writer(rt))
}

// Writes the last line where the numbers of the standard streams can't be held, and answers the status.
fn refuse_streams<R: Print + Eprint>(rt: &R, error: io::Error) -> u8
    ensures { result ≡ 3 }
{
    tell(rt, Advice::Streams(error));
    finish(&Err(ReplayFault::Read), &mut io::writer(rt))
}
