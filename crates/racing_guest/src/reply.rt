//! What a guest's driver reaches, and what it is answered.

ghost use Rattle.std.specs.Prelude.{◌≡◌, false};
ghost use Rattle.racing_guest.specs.Reply.{is_busy, reply_of};

use chain::Progress;

/// A window of a guest.
#[derive(Clone, Copy, Debug, PartialEq, Eq)]
pub enum GuestWindow {
    /// That of its block device.
    Block,
    /// That of its console.
    Console,
}

/// A queue of a guest.
#[derive(Clone, Copy, Debug, PartialEq, Eq)]
pub enum GuestQueue {
    /// That of its block device.
    Block,
    /// That of its console for input.
    Receive,
    /// That of its console for output.
    Transmit,
}

/// What a call comes to.
#[derive(Clone, Copy, Debug, PartialEq, Eq)]
pub enum Reply {
    /// It is done.
    Done,
    /// It is done as far as its limits went. More may be on offer in this queue, of which the driver doesn't notify again: the
    /// caller serves it once more.
    More(GuestQueue),
    /// It waits for what is in flight of the disk: nothing has changed.
    Busy,
    /// There is no room for what the console puts out. A chain that it would put out stays on offer.
    NoMemory,
}

impl Reply {
    /// That of a service of this queue.
    pub(crate) fn of(queue: GuestQueue, progress: Progress) -> Reply
        ensures reply { result ≡ reply_of queue progress }
        ensures at_once { is_busy result ≡ false }
    {
        match progress {
            Progress::Done => Reply::Done,
            Progress::More => Reply::More(queue),
        }
    }
}
