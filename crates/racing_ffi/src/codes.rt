//! The number of each answer, which has its name in the header.

ghost use Rattle.std.specs.Prelude.{◌≡◌, ◌≢◌, ◌↔◌, IsErrOf, IsFalse, IsTrue, ◌==◌, ◌||◌};
ghost use Rattle.racing_session.specs.declared.fault.MemoryRefusal.{MemoryRefusal};
ghost use Rattle.racing_session.specs.declared.fault.RacingFault.{RacingFault};
ghost use Rattle.racing_session.specs.declared.progress.Refusal.{Refusal};
ghost use Rattle.racing_ffi.specs.Codes.{answer_code, fault_code, kept_code, progress_code, refusal_code};

use c_values::of_memory_fault;
pub(crate) use c_values::{
    BAD_DEPTH, BAD_DEVICE, BAD_LOAN, BAD_OUTLET, BAD_RANGE, BAD_SIZE, BAD_WINDOW, BUSY, DONE,
    EXTENT_OUTSIDE, HAS_BOARD, IDLE, IO, MORE, NO_BOARD, NO_MEMORY, NO_ROOM,
};
use racing_session::{MemoryRefusal, Progress, RacingFault, Refusal};

/// The number where what a driver sent doesn't fit into the buffer.
pub(crate) const SHORT_BUFFER: u32 = 26;

/// The number where the host doesn't serve the disk.
pub(crate) const NOT_HOSTED: u32 = 33;

/// The number of what a call is answered.
pub(crate) fn of_answer(answer: Result<Progress, Refusal>) -> u32
    ensures number { result ≡ answer_code answer }
    ensures busy { (result ≡ 19) ↔ IsErrOf answer Refusal.Busy }
    ensures idle { (result ≡ 21) ↔ IsErrOf answer Refusal.Idle }
{
    match answer {
        Ok(progress) => of_progress(progress),
        Err(why) => of_refusal(why),
    }
}

/// The number of what a call came to.
pub(crate) fn of_progress(progress: Progress) -> u32
    ensures { result ≡ progress_code progress }
{
    match progress {
        Progress::Done => DONE,
        Progress::More => MORE,
        Progress::Asks => IO,
    }
}

/// The number of a call that was refused.
pub(crate) fn of_refusal(why: Refusal) -> u32
    ensures { result ≡ refusal_code why }
{
    match why {
        Refusal::NoRoom => NO_ROOM,
        Refusal::Busy => BUSY,
        Refusal::Idle => IDLE,
    }
}

/// The number of a guest that was refused.
pub(crate) fn of_fault(why: RacingFault) -> u32
    requires { why ≢ RacingFault.SpentLimits }
    ensures number { result ≡ fault_code why }
    ensures refused { result ≢ 0 }
    ensures last { IsFalse ((result == 2) || (result == 17) || (result == 32) || (result == 33)) }
{
    match why {
        RacingFault::BadLoan => BAD_LOAN,
        RacingFault::BadOutlet => BAD_OUTLET,
        RacingFault::SpentLimits => unreachable!(),
        RacingFault::Memory { region: _, fault } => of_memory_fault(fault),
        RacingFault::BadDepth => BAD_DEPTH,
        RacingFault::BadDisk => EXTENT_OUTSIDE,
        RacingFault::NoMemory => NO_MEMORY,
    }
}

/// The number of other memory that a guest was refused.
pub(crate) fn of_kept(why: MemoryRefusal) -> u32
    ensures number { result ≡ kept_code why }
    ensures refused { result ≢ 0 }
    ensures guest { result ≢ 1 }
    ensures busy { (result ≡ 19) ↔ (why ≡ MemoryRefusal.Busy) }
{
    match why {
        MemoryRefusal::Busy => BUSY,
        MemoryRefusal::BadLoan => BAD_LOAN,
        MemoryRefusal::Memory { region: _, fault } => of_memory_fault(fault),
        MemoryRefusal::QueueOutside => BAD_RANGE,
    }
}
