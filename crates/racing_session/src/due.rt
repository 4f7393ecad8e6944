//! Which queues are to be served once more.

ghost use Rattle.std.specs.Prelude.{◌≡◌};
ghost use Rattle.racing_session.specs.Due.{due_after, due_by, is_any_due, is_due, none_due, with_due};

use chain::Progress;
use racing_guest::{GuestQueue, Reply};

/// The queues that are to be served once more, though their driver may not notify again: a call went as far in them as its
/// limits, or what the console would put out found no room.
#[derive(Clone, Copy, Debug, PartialEq, Eq)]
pub struct Due {
    /// That of the block device.
    pub block: bool,
    /// That of the console for input.
    pub receive: bool,
    /// That of the console for output.
    pub transmit: bool,
}

impl Due {
    /// No queue is.
    pub(crate) fn none() -> Due
        ensures { result ≡ none_due }
    {
        Due {
            block: false,
            receive: false,
            transmit: false,
        }
    }

    /// Whether any queue is.
    pub fn is_any(self) -> bool
        ensures { result ≡ is_any_due self }
    {
        self.block | self.receive | self.transmit
    }

    /// Whether this queue is.
    pub(crate) fn has(self, queue: GuestQueue) -> bool
        ensures { result ≡ is_due queue self }
    {
        match queue {
            GuestQueue::Block => self.block,
            GuestQueue::Receive => self.receive,
            GuestQueue::Transmit => self.transmit,
        }
    }

    /// Those behind a call that is answered so.
    pub(crate) fn after(self, reply: Reply) -> Due
        ensures { result ≡ due_after reply self }
    {
        match reply {
            Reply::More(queue) => self.with(queue),
            Reply::NoMemory => self.with(GuestQueue::Transmit),
            Reply::Done | Reply::Busy => self,
        }
    }

    /// Those behind a service of this queue that came so far.
    pub(crate) fn by(self, queue: GuestQueue, progress: Progress) -> Due
        ensures { result ≡ due_by queue progress self }
    {
        match progress {
            Progress::Done => self,
            Progress::More => self.with(queue),
        }
    }

    // And this queue.
    fn with(self, queue: GuestQueue) -> Due
        ensures { result ≡ with_due queue self }
    {
        match queue {
            GuestQueue::Block => Due {
                block: true,
                ..self
            },
            GuestQueue::Receive => Due {
                receive: true,
                ..self
            },
            GuestQueue::Transmit => Due {
                transmit: true,
                ..self
            },
        }
    }
}
