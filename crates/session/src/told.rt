//! What a call tells: what it is answered, and what then waits.

ghost use Rattle.session.specs.Answering.{IsDoneOrRefusing, Means, done_response};

use crate::refusal::Refusal;
use crate::response::Response;
use board::Reply;
use std::alloc::Allocator;

/// What waits for a guest and for its host once a call is answered.
#[derive(Clone, Copy, Debug, PartialEq, Eq)]
pub struct Waits {
    /// InterruptStatus of the block window (4.2.2).
    pub block_irq: u8,
    /// InterruptStatus of the console window.
    pub console_irq: u8,
    /// How many bytes of the console's output wait to be taken.
    pub output: usize,
}

/// What waits for a further device's driver and for its host.
#[derive(Clone, Copy, Debug, PartialEq, Eq)]
pub struct DeviceWaits {
    /// InterruptStatus of its window (4.2.2).
    pub irq: u8,
    /// Whether its driver waits for what the host supplies or sends: a chain is on offer for it.
    pub starved: bool,
    /// How many bytes the oldest frame has that its driver sent and the host hasn't taken, where one waits.
    pub sent: Option<usize>,
    /// What is in flight of a disk: bit n is set where tag n is. It is 0 of another device.
    pub tags: u64,
}

/// What a call of a slot is answered, and what then waits for the slot. Of a slot that isn't there nothing waits.
#[derive(Clone, Copy, Debug, PartialEq, Eq)]
pub struct Told<T> {
    pub answer: Result<T, Refusal>,
    pub waits: Option<Waits>,
}

/// What an event is answered that has nothing to tell.
#[inline(always)]
pub(crate) fn done<A: Allocator>(response: Response<A>) -> Result<(), Refusal>
    requires { IsDoneOrRefusing response }
    ensures { Means done_response result response }
{
    match response {
        Response::Answered(Reply::Done) => Ok(()),
        response => Err(Refusal::of(&response)),
    }
}
