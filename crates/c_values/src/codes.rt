//! The numbers of answers, which have their names in the header.

ghost use Rattle.std.specs.Prelude.{◌≡◌, ◌≢◌, IsFalse, ◌==◌, ◌||◌};
ghost use Rattle.c_values.specs.Codes.{memory_code};

use guest_memory::MemoryFault;

/// The call is done.
pub const DONE: u32 = 0;

/// The handle is empty.
pub const NO_BOARD: u32 = 1;

/// The handle holds something already, and goes on holding it.
pub const HAS_BOARD: u32 = 2;

/// No region, nor the image, holds all of the range.
pub const BAD_RANGE: u32 = 4;

/// The heap refused.
pub const NO_MEMORY: u32 = 5;

/// There is no such window, or no device there takes this.
pub const BAD_WINDOW: u32 = 6;

/// A region has a size that none may have.
pub const BAD_MEMORY_SIZE: u32 = 10;

/// A region begins where none may.
pub const BAD_MEMORY_BASE: u32 = 11;

/// An extent passes the end of its image, or a disk 2^64 bytes.
pub const EXTENT_OUTSIDE: u32 = 12;

/// The console's next output doesn't fit behind what waits.
pub const NO_ROOM: u32 = 15;

/// An outlet is larger than it may be.
pub const BAD_OUTLET: u32 = 16;

/// A struct says another size than this version's.
pub const BAD_SIZE: u32 = 17;

/// A service pauses, or is due once more.
pub const MORE: u32 = 18;

/// A service is paused, or a disk is at work.
pub const BUSY: u32 = 19;

/// The call is done, and operations of a disk began.
pub const IO: u32 = 20;

/// There is nothing to complete, drop, hold or release.
pub const IDLE: u32 = 21;

/// A slot has no region of memory.
pub const NO_REGIONS: u32 = 27;

/// A region doesn't begin behind a gap after the one before it.
pub const REGIONS_NOT_APART: u32 = 28;

/// The loans have another number or length than the regions.
pub const BAD_LOAN: u32 = 29;

/// A disk that the host serves has a depth that none may have.
pub const BAD_DEPTH: u32 = 30;

/// A further device is none that a guest may have.
pub const BAD_DEVICE: u32 = 32;

/// The number of a guest's memory that was refused.
pub fn of_memory_fault(why: MemoryFault) -> u32
    ensures number { result ≡ memory_code why }
    ensures refused { result ≢ 0 }
    ensures others { IsFalse ((result == 2) || (result == 16) || (result == 17) || (result == 32) || (result == 33)) }
{
    match why {
        MemoryFault::NoRegions => NO_REGIONS,
        MemoryFault::BadSize => BAD_MEMORY_SIZE,
        MemoryFault::BadBase => BAD_MEMORY_BASE,
        MemoryFault::NotApart => REGIONS_NOT_APART,
        MemoryFault::NoMemory => NO_MEMORY,
    }
}

/// What a handle holds. Where that is nothing, the call that asks for it answers NO_BOARD.
#[macro_export]
macro_rules! session_of {
    ($handle:ident) => {
        match $handle.session() {
            Some(session) => session,
            None => return $crate::NO_BOARD,
        }
    };
}
