//! What a call comes to.

ghost use Rattle.std.specs.Prelude.{◌≡◌};
ghost use Rattle.session.specs.Pacing.{paused_by, response_to};

use crate::told::Waits;
use board::{Pause, Reply, Turn};
use std::alloc::{Allocator, Global};

/// What a call comes to.
#[derive(Drop)]
#[derive_where(Debug, PartialEq, Eq)]
pub enum Response<A: Allocator = Global> {
    /// The event is done, and answered.
    Answered(Reply<A>),
    /// The service of the event is paused: `go_on` goes on with it.
    More,
    /// A service of the slot is paused. Nothing has changed.
    Busy,
    /// No service of the slot is paused, so none goes on. Nothing has changed.
    Idle,
}

/// Keeps what a turn leaves paused, and answers what the caller is told of it.
#[inline(always)]
pub(crate) fn note<A: Allocator>(paused: &mut Option<Pause>, turn: Turn<A>) -> Response<A>
    ensures told { result ≡ response_to turn }
    ensures paused { paused.new ≡ paused_by turn }
{
    match turn {
        Turn::Answered(reply) => {
            if paused.is_some() {
                *paused = None;
            }
            Response::Answered(reply)
        }
        Turn::More(pause) => {
            *paused = Some(pause);
            Response::More
        }
    }
}

/// What a turn comes to, and what then waits for its slot, where there is such a slot.
#[derive(Drop)]
pub(crate) struct Turned<A: Allocator = Global> {
    pub response: Response<A>,
    pub waits: Option<Waits>,
}
