//! What a call comes to.

ghost use Rattle.std.specs.Prelude.{◌≡◌, ◌+◌, ◌^◌, ◌↔◌, IsTrue};
ghost use Rattle.racing_session.specs.Answering.{answer_by, has_asked, has_asked_by, progress_by};

use block_device::HostEvent;
use racing_guest::Reply;
use thiserror::Error;

/// What a call comes to that isn't refused.
#[derive(Clone, Copy, Debug, PartialEq, Eq)]
pub enum Progress {
    /// It is done.
    Done,
    /// A queue is due: `go_on` serves it once more, though its driver may not notify again. Operations of the disk may have begun
    /// with the call too.
    More,
    /// Nothing is due, and operations of the disk began with the call, which is told this once: `in_flight` says which tags are
    /// in flight, and `operation` what the host is asked.
    Asks,
}

/// A call that was refused.
#[derive(Clone, Copy, Debug, Error, PartialEq, Eq)]
pub enum Refusal {
    /// What the console puts out next doesn't fit behind what waits. What came before it was put out. Its queue is due: once some
    /// output is taken `go_on` serves it. An emergency write is made again. Operations of the disk may have begun with `go_on`.
    #[error("the guest's output has no room until some of it is taken")]
    NoRoom,
    /// The write waits for what is in flight of the disk. Nothing has changed.
    #[error("the guest's disk is at work")]
    Busy,
    /// There was nothing to do for what the host says of the disk: nothing is in flight, or not with this tag, the disk is on
    /// hold already, or isn't. Nothing has changed.
    #[error("there was nothing to do for what the host says of the guest's disk")]
    Idle,
}

/// What a call came to, by whether a queue is due and whether operations began.
pub(crate) fn progress_by(due: bool, asks: bool) -> Progress
    ensures { result ≡ progress_by due asks }
{
    match (due, asks) {
        (true, _) => Progress::More,
        (false, true) => Progress::Asks,
        (false, false) => Progress::Done,
    }
}

/// What a call is answered, by what its guest was.
pub(crate) fn answer_by(reply: Reply, progress: Progress) -> Result<Progress, Refusal>
    ensures { result ≡ answer_by reply progress }
{
    match reply {
        Reply::Done | Reply::More(_) => Ok(progress),
        Reply::Busy => Err(Refusal::Busy),
        Reply::NoMemory => Err(Refusal::NoRoom),
    }
}

/// Whether an operation began with a call that ends none, by the tags in flight before and after it.
pub(crate) fn has_asked(before: u64, after: u64) -> bool
    ensures { result ≡ has_asked before after }
{
    before != after
}

/// Whether an operation began with what the host says, by the tags in flight before and after it.
pub(crate) fn has_asked_by(said: HostEvent, before: u64, after: u64) -> bool
    ensures { result ≡ has_asked_by said before after }
{
    match said {
        HostEvent::Complete { tag, verdict: _ } => !is_with(after, tag, before),
        HostEvent::Drop | HostEvent::Hold => false,
        HostEvent::Release => has_asked(before, after),
    }
}

// Whether these tags and one more are those.
fn is_with(taken: u64, tag: u8, all: u64) -> bool
    ensures { IsTrue result ↔ (taken + 2 ^ tag ≡ all) }
{
    tag < 64 && all.checked_sub(1 << tag) == Some(taken)
}
