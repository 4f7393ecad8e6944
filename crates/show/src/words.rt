//! What the words of the command line ask for.

use calls::Fault;
use clap::error::ErrorKind;
use clap::{Arg, ArgMatches, Command, Error};
use replay::ReplayFault;
use std::alloc::Global;

/// The files that a call names.
#[derive(Clone, Copy)]
pub struct Call<'a> {
    /// The trace that is shown.
    pub trace: &'a str,
    /// The image that it is replayed over, which isn't changed.
    pub image: Option<&'a str>,
    /// The file of the page, where one is wanted.
    pub page: Option<&'a str>,
}

/// Reads the words after the program's name.
pub fn read_words<'a>(alloc: Global, words: &'a [String]) -> Result<Call<'a>, Fault> {
    let matches = match parse(alloc, words) {
        Ok(matches) => matches,
        Err(error) => return Err(fault_for(&error)),
    };
    let Some(trace) = matches.get_str("trace") else {
        return Err(Fault::Usage);
    };
    Ok(Call {
        trace,
        image: matches.get_str("image"),
        page: matches.get_str("page"),
    })
}

// Parses the words by the program's command.
fn parse<'a>(alloc: Global, words: &'a [String]) -> Result<ArgMatches<'a>, Error> {
    Command::new(alloc, "vshow")
        .no_binary_name(true)
        .arg(Arg::new(alloc, "trace"))?
        .arg(Arg::new(alloc, "image"))?
        .arg(Arg::new(alloc, "page").long("page"))?
        .try_get_matches_from(words)
}

// The fault for words that the parser refused.
fn fault_for(error: &Error) -> Fault {
    match error.kind() {
        ErrorKind::OutOfMemory => Fault::Replay(ReplayFault::NoMemory),
        _ => Fault::Usage,
    }
}
