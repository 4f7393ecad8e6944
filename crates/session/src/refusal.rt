//! Why a call was refused.

ghost use Rattle.std.specs.Prelude.{◌≡◌, nat_lt, if◌then◌else◌};
ghost use Rattle.session.specs.declared.refusal.Refusal.{Refusal};
ghost use Rattle.session.specs.Answering.{IsRefusing, RefusalMeans};

use crate::response::Response;
use board::Reply;
use std::alloc::Allocator;
use thiserror::Error;

/// A call that was refused.
#[derive(Clone, Copy, Debug, Error, PartialEq, Eq)]
pub enum Refusal {
    /// The board has no such slot. Nothing has changed.
    #[error("the board has no such slot")]
    BadSlot,
    /// Not all of the range lies inside the slot's memory. Nothing has changed.
    #[error("not all of the range lies inside the guest's memory")]
    BadRange,
    /// The slot has no such device, or it takes no such thing. Nothing has changed.
    #[error("the guest has no such device, or it takes no such thing")]
    BadDevice,
    /// What the guest's console puts out next doesn't fit behind what waits. What came before it was put out.
    #[error("the guest's output has no room until some of it is taken")]
    NoRoom,
    /// A service of the slot is paused, or the event waits for what is in flight of it. Nothing has changed.
    #[error("a service of the guest is paused, or one of its disks is at work")]
    Busy,
    /// There was nothing to do for what the host says of a disk of the slot: nothing is in flight, or not with this tag, the disk
    /// is on hold already, or isn't, or it is of the image. Nothing has changed.
    #[error("there was nothing to do for what the host says of the guest's disk")]
    Idle,
}

impl Refusal {
    /// Why a range isn't inside a slot's memory, where there are so many slots.
    pub(crate) fn of_range(slot: u8, slots: usize) -> Refusal
        ensures { result ≡ (if nat_lt slot slots then Refusal.BadRange else Refusal.BadSlot) }
    {
        if usize::from(slot) < slots {
            Refusal::BadRange
        } else {
            Refusal::BadSlot
        }
    }

    /// The refusal that a response of the board says.
    #[inline(always)]
    pub(crate) fn of<A: Allocator>(response: &Response<A>) -> Refusal
        requires { IsRefusing response.now }
        ensures { RefusalMeans result response.now }
    {
        match response {
            Response::Answered(Reply::NoMemory) => Refusal::NoRoom,
            Response::Answered(Reply::BadRange) => Refusal::BadRange,
            Response::Answered(Reply::BadDevice) => Refusal::BadDevice,
            Response::Answered(Reply::Busy) | Response::Busy => Refusal::Busy,
            Response::Answered(Reply::Idle) => Refusal::Idle,
            _ => Refusal::BadSlot,
        }
    }
}
