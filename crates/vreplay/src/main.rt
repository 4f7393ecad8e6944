//! `vreplay`: replays a trace of guests' events over a board, and prints a record for each.
//!
//! `vreplay TRACE IMAGE [--save FILE]` takes the trace from one file and the image's bytes from another,
//! and writes the image's bytes to FILE after a replay that succeeded. Called without words it takes the
//! trace from standard input, over an image of eight zero sectors in memory. The records go to standard
//! output, and where something was refused one last line says what. The status says it too.
//!
//! `words` reads what a call asks for, `files` replays over files, and `program` puts that in its order. What it shares
//! with other programs over traces is in `calls`. `laws` says of the words what callers may rely on.
#![tactic(auto)]

mod files;
mod laws;
mod program;
mod words;

use calls::start;
use program::program;
use std::process::ExitCode;

fn main(rt: HostRuntime) -> ExitCode {
    let status = match start(&rt) {
        Ok(call) => program(&rt, rt.alloc(), call.words.as_slice()),
        Err(status) => status,
    };
    ExitCode::from(status)
}
