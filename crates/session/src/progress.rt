//! What a call came to.

ghost use Rattle.std.specs.Prelude.{◌≡◌, ◌≢◌, ◌↔◌, ◌+◌, ◌^◌, IfOk, IsTrue};
ghost use Rattle.std.specs.Option.{option_map};
ghost use Rattle.session.specs.declared.progress.Progress.{Progress};
ghost use Rattle.session.specs.declared.response.Response.{Response};
ghost use Rattle.session.specs.Answering.{IsServing, Means, served_response};
ghost use Rattle.session.specs.Operations.{AskedBy};

use crate::refusal::Refusal;
use crate::response::Response;
use board::{HostEvent, Reply};
use std::alloc::Allocator;

/// What a call came to.
#[derive(Clone, Copy, Debug, PartialEq, Eq)]
pub enum Progress {
    /// It is done.
    Done,
    /// The service is paused: `go_on` goes on with it.
    More,
    /// It is done, and operations began with it, which is told this once: `disk` says which tags are in flight, and what the host is
    /// asked.
    Asks,
}

/// What a write or what the host says of its disk is answered, by whether an operation began with it.
#[inline(always)]
pub(crate) fn served<A: Allocator>(response: Response<A>, asks: bool) -> Result<Progress, Refusal>
    requires { IsServing response }
    ensures told { Means served_response result response }
    ensures asks { IfOk result (λ progress.
        (progress ≡ Progress.Asks) ↔ (IsTrue asks × (response ≢ Response.More))) }
{
    match response {
        Response::Answered(Reply::Done) => Ok(ended(asks)),
        Response::More => Ok(Progress::More),
        response => Err(Refusal::of(&response)),
    }
}

/// Whether an operation began with a call that ends none, by the tags in flight before and after it.
#[inline(always)]
pub(crate) fn has_asked(before: Option<u64>, after: Option<u64>) -> bool
    ensures { IsTrue result ↔ (after ≢ before) }
{
    after != before
}

// Whether an operation began with the completion of a tag, by the tags in flight before and after it.
#[inline(always)]
fn has_asked_beside(tag: u8, before: Option<u64>, after: Option<u64>) -> bool
    ensures { IsTrue result ↔ (option_map (λ taken. taken + 2 ^ tag) after ≢ before) }
{
    match (before, after) {
        (Some(before), Some(after)) => !is_with(after, tag, before),
        (None, None) => false,
        _ => true,
    }
}

/// Whether an operation began with what the host says, by the tags in flight before and after it.
#[inline(always)]
pub(crate) fn has_asked_by(told: HostEvent, before: Option<u64>, after: Option<u64>) -> bool
    ensures { IsTrue result ↔ AskedBy told before after }
{
    match told {
        HostEvent::Complete { tag, verdict: _ } => has_asked_beside(tag, before, after),
        HostEvent::Drop | HostEvent::Hold => false,
        HostEvent::Release => has_asked(before, after),
    }
}

// Whether these tags and one more are those.
#[inline(always)]
fn is_with(taken: u64, tag: u8, all: u64) -> bool
    ensures { IsTrue result ↔ (taken + 2 ^ tag ≡ all) }
{
    tag < 64 && all.checked_sub(1 << tag) == Some(taken)
}

// What a call that is done came to, by whether an operation began with it.
#[inline(always)]
fn ended(asks: bool) -> Progress
    ensures asks { (result ≡ Progress.Asks) ↔ IsTrue asks }
    ensures never_paused { result ≢ Progress.More }
{
    if asks { Progress::Asks } else { Progress::Done }
}
