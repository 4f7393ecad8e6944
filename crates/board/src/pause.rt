//! A turn of a slot: what it is to do, the service that pauses in it, and what it comes to.

ghost use Rattle.std.specs.Prelude.{◌≡◌, None};
ghost use Rattle.board.specs.Pausing.{reply_of, turn_of};

use crate::event::EventKind;
use crate::in_place::InPlace;
use crate::reply::Reply;
use chain::Progress;
use std::alloc::{Allocator, Global};

/// A queue that one of a slot's devices serves.
#[derive(Clone, Copy, Debug, PartialEq, Eq)]
pub enum Service {
    /// The block device's requests (5.2.2).
    Block,
    /// The console's receiveq (5.3.2).
    Receive,
    /// The console's transmitq (5.3.2).
    Transmit,
    /// A queue of a further device.
    Further { device: u8, queue: u16 },
}

/// A service that paused before a chain that is on offer. Its queue stands open.
#[derive(Clone, Copy, Debug, PartialEq, Eq)]
pub struct Pause {
    pub service: Service,
    /// Where the event that it serves handed bytes to a device, typed ones, random ones or a frame: how many were taken.
    pub taken: Option<usize>,
}

impl Pause {
    // The service of an event that handed nothing in.
    #[inline(always)]
    pub(crate) fn of(service: Service) -> Pause
        ensures { result ≡ record { service = service; taken = None } }
    {
        Pause {
            service,
            taken: None,
        }
    }

    // What the event is answered at the end of its service.
    #[inline(always)]
    pub(crate) fn reply<A: Allocator>(self) -> Reply<A>
        ensures { result ≡ reply_of self }
    {
        match self.taken {
            Some(taken) => Reply::Took(taken),
            None => Reply::Done,
        }
    }

    // What a piece of its service comes to.
    #[inline(always)]
    pub(crate) fn turn<A: Allocator>(self, progress: Progress) -> Turn<A>
        ensures { result ≡ turn_of self progress }
    {
        match progress {
            Progress::More => Turn::More(self),
            Progress::Done => Turn::Answered(self.reply()),
        }
    }
}

/// What a slot is to do in a turn.
#[derive(Drop)]
pub enum Work<'a, A: Allocator = Global> {
    /// An event begins.
    Begin(&'a EventKind<A>),
    /// An event begins whose bytes the caller has in a slice.
    InPlace(InPlace<'a>),
    /// A service that paused goes on.
    Resume(Pause),
}

/// What an event came to, or a piece of its service.
#[derive(Drop)]
#[derive_where(Debug, PartialEq, Eq)]
pub enum Turn<A: Allocator = Global> {
    /// The event is done, and answered.
    Answered(Reply<A>),
    /// Its service pauses, and goes on later.
    More(Pause),
}
