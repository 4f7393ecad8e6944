//! Why a board can't be made.

ghost use Rattle.std.specs.Prelude.{◌≡◌};
ghost use Rattle.board.specs.Fault.{is_want_of_memory};

use guest_memory::MemoryFault;
use sector_cache::CacheFault;
use thiserror::Error;

/// A board that was refused. Where several hold, it is the first in this order; the slots are judged in theirs.
#[derive(Clone, Copy, Debug, Error, PartialEq, Eq)]
pub enum BoardFault {
    /// There is no slot.
    #[error("a board needs a slot")]
    NoSlots,
    /// There are more than sixty-four slots.
    #[error("a board has sixty-four slots at most")]
    TooManySlots,
    /// The first slot that can't be had, and why.
    #[error("{fault}")]
    Slot { slot: u8, fault: SlotFault },
    /// The cache has a bad capacity.
    #[error("the cache: {0}")]
    Cache(CacheFault),
    /// There was no memory for the slots, a guest's memory or the cache.
    #[error("no memory for the board")]
    NoMemory,
}

/// A slot that can't be had beside those before it. Where several hold, it is the first in this order.
#[derive(Clone, Copy, Debug, Error, PartialEq, Eq)]
pub enum SlotFault {
    /// Its memory can't be had: the place of the region at fault, 0 where there is none, and why.
    #[error("a guest's memory: {fault}")]
    Memory { region: usize, fault: MemoryFault },
    /// The host serves its disk, with no operation in flight or with more than 64.
    #[error("a disk that the host serves has 1 to 64 operations in flight")]
    BadDepth,
    /// Its extent passes the end of the image.
    #[error("an extent passes the end of the image")]
    ExtentOutside,
    /// Its extent has a sector of an earlier slot's extent. An empty extent has none.
    #[error("two extents share a sector")]
    ExtentsOverlap,
}

impl BoardFault {
    /// Whether there was no memory, whatever it was wanted for.
    pub fn lacks_memory(self) -> bool
        ensures { result ≡ is_want_of_memory self }
    {
        matches!(
            self,
            BoardFault::NoMemory
                | BoardFault::Slot {
                    slot: _,
                    fault: SlotFault::Memory {
                        region: _,
                        fault: MemoryFault::NoMemory
                    }
                }
                | BoardFault::Cache(CacheFault::NoMemory)
        )
    }
}
