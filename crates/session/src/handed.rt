//! What became of bytes that were handed to a device, or over to its host: typed, random ones, a frame, or what a driver sent.

ghost use Rattle.std.specs.Prelude.{◌≡◌, ◌≢◌, IfOk, IsSome, Some};
ghost use Rattle.session.specs.declared.progress.Progress.{Progress};
ghost use Rattle.session.specs.declared.response.Response.{Response};
ghost use Rattle.session.specs.Answering.{IsHanding, Means, handed_response};

use crate::progress::Progress;
use crate::refusal::Refusal;
use crate::response::Response;
use board::Reply;
use std::alloc::Allocator;

/// What became of bytes that were handed to a device, typed to a console, random ones or a frame, or over to its host.
#[derive(Clone, Copy, Debug, PartialEq, Eq)]
pub struct Handed {
    /// How many were taken: the first ones. A frame is taken whole, or none of it is, and what a driver sent is.
    pub taken: usize,
    /// Whether the service of the queue that waits for them, or for room, is done, or paused.
    pub progress: Progress,
}

/// What is answered to who handed in bytes, or took them, of which so many were taken where the service is paused.
pub(crate) fn handing<A: Allocator>(
    response: Response<A>,
    taken: Option<usize>,
) -> Result<Handed, Refusal>
    requires handing { IsHanding response }
    requires taken { response ≡ Response.More → IsSome taken }
    ensures told { Means handed_response result response }
    ensures taken { IfOk result (λ handed. handed.progress ≡ Progress.More → taken ≡ Some handed.taken) }
    ensures never_asks { IfOk result (λ handed. handed.progress ≢ Progress.Asks) }
{
    match response {
        Response::Answered(Reply::Took(taken)) => Ok(Handed {
            taken,
            progress: Progress::Done,
        }),
        Response::More => {
            let Some(taken) = taken else { unreachable!() };
            Ok(Handed {
                taken,
                progress: Progress::More,
            })
        }
        response => Err(Refusal::of(&response)),
    }
}
