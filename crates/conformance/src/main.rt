//! `conformance`: makes worked calls, and tells of each file whether they answer as it says; or replays a trace over an image
//! whose calls fail.
//!
//! `conformance FILE.calls ..` makes the calls of each file (`calls`). `conformance TRACE IMAGE CALL ..` replays a trace over an
//! image of which the calls of these numbers fail (`scripted`).
#![tactic(auto)]

mod calls;
mod scripted;

use calls::check_file;
use scripted::replay_scripted;
use std::process::ExitCode;
use std::rt::{Env, Files};
use std::{env, io};

fn main(rt: HostRuntime) -> ExitCode {
    match run(&rt) {
        Ok(true) => ExitCode::SUCCESS,
        _ => ExitCode::FAILURE,
    }
}

/// Does what the words ask for. The answer is whether all is well.
fn run(rt: &(impl Env + Files + Print + AllocGlobal + Clone + Drop)) -> io::Result<bool> {
    let words: Vec<String> = env::args(rt)?.skip(1).collect(rt.alloc())?;
    let mut out = io::writer(rt);
    match words.as_slice() {
        [trace, image, failing @ ..] if !trace.ends_with(".calls") => {
            replay_scripted(rt, trace.as_str(), image.as_str(), failing, &mut out)
        }
        files => check_files(rt, files, &mut out),
    }
}

// Makes the calls of files. The answer is whether there is one, and all is well.
fn check_files<R: Files + AllocGlobal + Clone + Drop, W: io::Write>(
    rt: &R,
    files: &[String],
    out: &mut W,
) -> io::Result<bool> {
    let mut all_well = !files.is_empty();
    for file in files {
        if !check_file(rt, file.as_str(), out)? {
            all_well = false;
        }
    }
    Ok(all_well)
}
