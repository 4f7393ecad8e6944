//! Why there is no session, and why one keeps its memory.

use guest_memory::MemoryFault;
use thiserror::Error;

/// A session that was refused. Where several hold, it is the first in this order.
#[derive(Clone, Copy, Debug, Error, PartialEq, Eq)]
pub enum RacingFault {
    /// The lent words aren't one run for each region, as long as it is.
    #[error("lent words have another number or length than the regions")]
    BadLoan,
    /// More output may wait than 2^24 bytes.
    #[error("an outlet keeps 16777216 bytes at most")]
    BadOutlet,
    /// The limits have no chain or no byte, fewer than two rounds or no look, so a service would never be done.
    #[error("limits need one chain, one byte, two rounds and one look at least")]
    SpentLimits,
    /// Its memory can't be had: the place of the region at fault, 0 where there is none, and why.
    #[error("the guest's memory: {fault}")]
    Memory { region: usize, fault: MemoryFault },
    /// No operation of the disk may be in flight, or more than 64.
    #[error("a disk that the host serves has 1 to 64 operations in flight")]
    BadDepth,
    /// The disk has 2^55 sectors or more.
    #[error("a disk has fewer than 2^55 sectors")]
    BadDisk,
    /// There was no memory for the session.
    #[error("no memory for the session")]
    NoMemory,
}

/// Other memory that a session was refused. Where several hold, it is the first in this order.
#[derive(Clone, Copy, Debug, Error, PartialEq, Eq)]
pub enum MemoryRefusal {
    /// A queue is due, or an operation of the disk is in flight.
    #[error("a queue of the guest is due, or its disk is at work")]
    Busy,
    /// The lent words aren't one run for each region, as long as it is.
    #[error("lent words have another number or length than the regions")]
    BadLoan,
    /// There is no such memory: the place of the region at fault, 0 where there is none, and why.
    #[error("the guest's memory: {fault}")]
    Memory { region: usize, fault: MemoryFault },
    /// A ready queue doesn't lie in it.
    #[error("a ready queue of the guest lies outside the memory")]
    QueueOutside,
}
