//! What a slot of a board is asked to do whose services may pause.

ghost use Rattle.std.specs.Prelude.{◌≡◌};
ghost use Rattle.session.specs.Pacing.{work_in};

use crate::response::Response;
use board::{EventKind, InPlace, Pause, Work};
use std::alloc::{Allocator, Global};

/// What a slot is asked to do in a turn.
#[derive(Drop)]
pub(crate) enum TurnKind<'a, A: Allocator = Global> {
    /// An event is to begin.
    Begin(&'a EventKind<A>),
    /// One whose bytes the caller has in a slice.
    InPlace(InPlace<'a>),
    /// The service that is paused is to go on.
    Resume,
}

impl<'a, A: Allocator> TurnKind<'a, A> {
    /// What the board is to do, by the service of the slot that is paused, if one is, or what the caller is told.
    #[inline(always)]
    pub(crate) fn work(self, paused: Option<Pause>) -> Result<Work<'a, A>, Response<A>>
        ensures { result ≡ work_in self.entry paused }
    {
        match (self, paused) {
            (TurnKind::Begin(what), None) => Ok(Work::Begin(what)),
            (TurnKind::InPlace(what), None) => Ok(Work::InPlace(what)),
            (TurnKind::Begin(_) | TurnKind::InPlace(_), Some(_)) => Err(Response::Busy),
            (TurnKind::Resume, None) => Err(Response::Idle),
            (TurnKind::Resume, Some(pause)) => Ok(Work::Resume(pause)),
        }
    }
}
