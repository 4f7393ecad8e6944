//! The number of each answer, which has its name in the header.

ghost use Rattle.std.specs.Prelude.{◌≡◌, ◌≢◌, ◌↔◌, IfOk, IsErr, IsErrOf, IsOk, IsTrue, Ok, OnErr};
ghost use Rattle.board.specs.declared.saved.RestoreRefusal.{RestoreRefusal};
ghost use Rattle.board.specs.declared.saved.SaveRefusal.{SaveRefusal};
ghost use Rattle.session.specs.declared.refusal.Refusal.{Refusal};
ghost use Rattle.board_ffi.specs.Codes.{board_code, code_at, code_by, fault_code, handed_code, is_saving, progress_code, refusal_code, restore_code, restore_fault_code, save_code, slot_fault_code, went_on_code};

use c_values::of_memory_fault;
pub(crate) use c_values::{
    BAD_DEPTH, BAD_DEVICE, BAD_LOAN, BAD_OUTLET, BAD_RANGE, BAD_SIZE, BAD_WINDOW, BUSY, DONE,
    EXTENT_OUTSIDE, HAS_BOARD, IDLE, IO, MORE, NO_BOARD, NO_MEMORY, NO_ROOM,
};
use session::{
    BoardFault, CacheFault, Handed, Progress, Refusal, RestoreFault, RestoreRefusal, SaveRefusal,
    SessionFault, SlotFault,
};

pub(crate) const BAD_SLOT: u32 = 3;

pub(crate) const BAD_IMAGE: u32 = 7;

pub(crate) const NO_SLOTS: u32 = 8;

pub(crate) const TOO_MANY_SLOTS: u32 = 9;

pub(crate) const EXTENTS_OVERLAP: u32 = 13;

pub(crate) const BAD_CACHE: u32 = 14;

pub(crate) const NO_IMAGE: u32 = 22;

pub(crate) const BAD_SNAPSHOT: u32 = 23;

pub(crate) const OTHER_SLOT: u32 = 24;

pub(crate) const BAD_STATE: u32 = 25;

pub(crate) const SHORT_BUFFER: u32 = 26;

pub(crate) const OTHER_DEVICES: u32 = 31;

pub(crate) const RUNS_ON: u32 = 34;

pub(crate) const BAD_EXTENT: u32 = 35;

pub(crate) const BAD_WAITING: u32 = 36;

/// The number of a call that was refused.
pub(crate) fn of_refusal(why: Refusal) -> u32
    ensures { result ≡ refusal_code why }
{
    match why {
        Refusal::BadSlot => BAD_SLOT,
        Refusal::BadRange => BAD_RANGE,
        Refusal::BadDevice => BAD_WINDOW,
        Refusal::NoRoom => NO_ROOM,
        Refusal::Busy => BUSY,
        Refusal::Idle => IDLE,
    }
}

/// The number of a call that has nothing to tell.
pub(crate) fn of_done(answer: Result<(), Refusal>) -> u32
    ensures { result ≡ code_by answer }
{
    match answer {
        Ok(()) => DONE,
        Err(why) => of_refusal(why),
    }
}

/// The number of a call that tells a value, and the value where there is one.
pub(crate) fn told<T: Copy>(answer: Result<T, Refusal>, value: &mut T) -> u32
    ensures number { result ≡ code_by answer }
    ensures value { IfOk answer (λ found. value.new ≡ found) }
    ensures kept { OnErr answer (value.new ≡ value.old) }
{
    match answer {
        Ok(found) => {
            *value = found;
            DONE
        }
        Err(why) => of_refusal(why),
    }
}

/// The number of a call whose service may pause, or ask the host for something.
pub(crate) fn of_served(answer: Result<Progress, Refusal>) -> u32
    ensures number { result ≡ went_on_code answer }
    ensures idle { (result ≡ 21) ↔ IsErrOf answer Refusal.Idle }
{
    match answer {
        Ok(progress) => of_progress(progress),
        Err(why) => of_refusal(why),
    }
}

/// The number of a call that hands bytes to a device, and how many it took, also where its service pauses.
pub(crate) fn handed(answer: Result<Handed, Refusal>, taken: &mut usize) -> u32
    ensures number { result ≡ handed_code answer }
    ensures taken { IfOk answer (λ handed. taken.new ≡ handed.taken) }
    ensures kept { OnErr answer (taken.new ≡ taken.old) }
{
    match answer {
        Ok(handed) => {
            *taken = handed.taken;
            of_progress(handed.progress)
        }
        Err(why) => of_refusal(why),
    }
}

/// The number of a service that is done, pauses, or asks the host for something.
pub(crate) fn of_progress(progress: Progress) -> u32
    ensures { result ≡ progress_code progress }
{
    match progress {
        Progress::Done => DONE,
        Progress::More => MORE,
        Progress::Asks => IO,
    }
}

/// The number of a call that tells how many bytes a snapshot has, and how many where there is one.
pub(crate) fn of_saved(answer: Result<usize, SaveRefusal>, len: &mut usize) -> u32
    ensures number { result ≡ save_code answer }
    ensures told { result ≡ 0 → answer ≡ Ok len.new }
    ensures missing { (result ≡ 3) ↔ IsErrOf answer SaveRefusal.BadSlot }
    ensures busy { (result ≡ 19) ↔ IsErrOf answer SaveRefusal.Busy }
    ensures short { (result ≡ 26) ↔ IsErrOf answer SaveRefusal.ShortBuffer }
    ensures one { IsTrue (is_saving result) }
    ensures refused { result ≢ 0 → IsErr answer }
    ensures kept { result ≢ 0 → len.new ≡ len.old }
{
    match answer {
        Ok(found) => {
            *len = found;
            DONE
        }
        Err(SaveRefusal::BadSlot) => BAD_SLOT,
        Err(SaveRefusal::Busy) => BUSY,
        Err(SaveRefusal::ShortBuffer) => SHORT_BUFFER,
    }
}

/// The number of a call in which a slot takes up a snapshot, or doesn't.
pub(crate) fn of_restored(answer: Result<(), RestoreRefusal>) -> u32
    ensures number { result ≡ restore_code answer }
    ensures done { (result ≡ 0) ↔ IsOk answer }
    ensures missing { (result ≡ 3) ↔ IsErrOf answer RestoreRefusal.BadSlot }
    ensures busy { (result ≡ 19) ↔ IsErrOf answer RestoreRefusal.Busy }
    ensures refused { result ≢ 0 → IsErr answer }
{
    match answer {
        Ok(()) => DONE,
        Err(RestoreRefusal::BadSlot) => BAD_SLOT,
        Err(RestoreRefusal::Busy) => BUSY,
        Err(RestoreRefusal::Fault(why)) => of_restore_fault(why),
    }
}

// The number of a snapshot that isn't taken up.
fn of_restore_fault(why: RestoreFault) -> u32
    ensures { result ≡ restore_fault_code why }
{
    match why {
        RestoreFault::Snapshot(_) => BAD_SNAPSHOT,
        RestoreFault::OtherSlot => OTHER_SLOT,
        RestoreFault::BadDevice => OTHER_DEVICES,
        RestoreFault::BadBlock | RestoreFault::BadConsole | RestoreFault::BadDeviceWindow => {
            BAD_STATE
        }
        RestoreFault::BadWaiting => BAD_WAITING,
    }
}

/// The number of a session that was refused.
pub(crate) fn of_fault(why: SessionFault) -> u32
    ensures { result ≡ fault_code why }
{
    match why {
        SessionFault::BadLoan => BAD_LOAN,
        SessionFault::BadImage => BAD_IMAGE,
        SessionFault::BadOutlet => BAD_OUTLET,
        SessionFault::BadDevice => BAD_DEVICE,
        SessionFault::BadExtent => BAD_EXTENT,
        // no budget that C describes is spent
        SessionFault::SpentBudget => DONE,
        SessionFault::Board(why) => of_board_fault(why),
        SessionFault::NoMemory => NO_MEMORY,
    }
}

// The number of a slot that was refused.
fn of_slot_fault(why: SlotFault) -> u32
    ensures number { result ≡ slot_fault_code why }
    ensures of_board { (result ≢ 0) × (result ≢ 16) × (result ≢ 17) }
{
    match why {
        SlotFault::Memory { region: _, fault } => of_memory_fault(fault),
        SlotFault::ExtentOutside => EXTENT_OUTSIDE,
        SlotFault::ExtentsOverlap => EXTENTS_OVERLAP,
        SlotFault::BadDepth => BAD_DEPTH,
    }
}

/// The number of a board that was refused.
pub(crate) fn of_board_fault(why: BoardFault) -> u32
    ensures number { result ≡ board_code why }
    ensures of_board { (result ≢ 0) × (result ≢ 16) × (result ≢ 17) }
{
    match why {
        BoardFault::NoSlots => NO_SLOTS,
        BoardFault::TooManySlots => TOO_MANY_SLOTS,
        BoardFault::Slot { slot: _, fault } => of_slot_fault(fault),
        BoardFault::Cache(CacheFault::BadCapacity) => BAD_CACHE,
        // All others lack memory.
        _ => NO_MEMORY,
    }
}

/// What is answered of a slot, of so many, that has no such device.
pub(crate) fn no_window(slot: u8, slots: usize) -> u32
    ensures { result ≡ code_at slot slots 6 }
{
    if usize::from(slot) < slots {
        BAD_WINDOW
    } else {
        BAD_SLOT
    }
}
