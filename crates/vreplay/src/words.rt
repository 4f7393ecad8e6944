//! What the words of the command line ask for.

ghost use Rattle.std.specs.Prelude.{◌≡◌, ◌↔◌, None, Some, IfOk, IfErr, IfSome, IsErr, IsNone, IsSome, IsTrue, codes};
ghost use Rattle.clap.specs.Words.{FailsBy, HasMatchesOf, fault_of, first_value, found_of, kind_of};
ghost use Rattle.vreplay.specs.Words.{IsCall, RefusesBy, is_in_place, saved_to, texts_of, vreplay};

use calls::Fault;
use clap::error::ErrorKind;
use clap::{Arg, ArgAction, ArgMatches, Command, Error};
use replay::ReplayFault;
use std::alloc::Global;

/// The files that a call with words names, and what is to become of the image.
#[derive(Clone, Copy)]
pub struct Call<'a> {
    /// The trace that is replayed.
    pub trace: &'a str,
    /// The image that it is replayed over.
    pub image: &'a str,
    pub keeping: Keeping<'a>,
}

/// What is to become of an image.
#[derive(Clone, Copy)]
pub enum Keeping<'a> {
    /// It is read whole, and isn't changed.
    Unchanged,
    /// The same, and after the replay its bytes are written to this file.
    Saved(&'a str),
    /// It is read and written in place.
    InPlace,
}

/// Reads the words after the program's name.
pub fn read_words<'a>(alloc: Global, words: &'a [String]) -> Result<Call<'a>, Fault>
    ensures call { IfOk result (IsCall (texts_of words.now)) }
    ensures refused { IfErr result (RefusesBy (texts_of words.now)) }
{
    let matches = match parse(alloc, words) {
        Ok(matches) => matches,
        Err(error) => return Err(fault_for(&error)),
    };
    let trace = file_of(&matches, "trace")?;
    let image = file_of(&matches, "image")?;
    let Some(keeping) = keeping_of(&matches) else {
        return Err(Fault::Usage);
    };
    Ok(Call {
        trace,
        image,
        keeping,
    })
}

// The file that the words name by this argument.
fn file_of<'a>(matches: &ArgMatches<'a>, id: &str) -> Result<&'a str, Fault>
    ensures file { IfOk result (λ file. first_value (found_of matches.now) id.now ≡ Some file.now) }
    ensures missing { IfErr result (λ fault. fault ≡ Fault.Usage) }
    ensures none { IsErr result → first_value (found_of matches.now) id.now ≡ None }
{
    matches.get_str(id).ok_or(Fault::Usage)
}

// What is to become of the image, where not both options were given.
fn keeping_of<'a>(matches: &ArgMatches<'a>) -> Option<Keeping<'a>>
    ensures save { IfSome result (λ keeping. first_value (found_of matches.now) (codes "save") ≡ saved_to keeping) }
    ensures in_place { IfSome result (λ keeping. IsTrue (is_in_place keeping) ↔ first_value (found_of matches.now) (codes "in-place") ≡ Some (codes "true")) }
    ensures flag { IsNone result → first_value (found_of matches.now) (codes "in-place") ≡ Some (codes "true") }
    ensures file { IsNone result → IsSome (first_value (found_of matches.now) (codes "save")) }
{
    match (matches.get_str("save"), is_given(matches, "in-place")) {
        (None, false) => Some(Keeping::Unchanged),
        (Some(file), false) => Some(Keeping::Saved(file)),
        (None, true) => Some(Keeping::InPlace),
        (Some(_), true) => None,
    }
}

// Whether a flag was given.
fn is_given(matches: &ArgMatches<'_>, flag: &str) -> bool
    ensures { IsTrue result ↔ first_value (found_of matches.now) flag.now ≡ Some (codes "true") }
{
    matches.get_str(flag) == Some("true")
}

// Parses the words by the program's command.
fn parse<'a>(alloc: Global, words: &'a [String]) -> Result<ArgMatches<'a>, Error>
    ensures matches { IfOk result (HasMatchesOf vreplay (texts_of words.now)) }
    ensures kinds { FailsBy (fault_of vreplay (texts_of words.now)) result }
{
    Command::new(alloc, "vreplay")
        .no_binary_name(true)
        .arg(Arg::new(alloc, "trace"))?
        .arg(Arg::new(alloc, "image"))?
        .arg(Arg::new(alloc, "save").long("save"))?
        .arg(
            Arg::new(alloc, "in-place")
                .long("in-place")
                .action(ArgAction::SetTrue),
        )?
        .try_get_matches_from(words)
}

// The fault for words that the parser refused.
fn fault_for(error: &Error) -> Fault
    ensures memory { kind_of error.now ≡ ErrorKind.OutOfMemory → result ≡ Fault.Replay ReplayFault.NoMemory }
    ensures other { (kind_of error.now ≡ ErrorKind.OutOfMemory → ⊥) → result ≡ Fault.Usage }
{
    match error.kind() {
        ErrorKind::OutOfMemory => Fault::Replay(ReplayFault::NoMemory),
        _ => Fault::Usage,
    }
}
