//! A guest's memory between its accesses. Nothing here takes memory.

ghost use Rattle.std.specs.Prelude.{◌≡◌, ◌≢◌, length};
ghost use Rattle.guest_memory.specs.Memory.{Inside};
ghost use Rattle.board_ffi.specs.Events.{HasRoom};
ghost use Rattle.board_ffi.specs.Calls.{Calls, EventKind, HasMemory, HasNoRegion, IsBusy, IsMissing, Reply, Takes};

use crate::codes::{BAD_RANGE, DONE, of_done, of_refusal};
use crate::handle::{Handle, session_of};
use session::GuestMemory;
use std::ptr::NonNull;

/// Copies bytes out of a guest's memory, from address `addr` on.
#[unsafe(no_mangle)]
pub extern "C" fn kalyubos_read_memory(
    board: &mut Handle,
    slot: u8,
    addr: u64,
    into: &mut [u8],
) -> u32
    ensures step { Calls board.old.session board.new.session result
        (Takes slot (EventKind.MemRead addr (length into.old)) result (Reply.Bytes into.new)) }
    ensures kept { result ≢ 0 → into.new ≡ into.old }
{
    let session = session_of!(board);
    of_done(session.read_memory(slot, addr, into))
}

/// Copies bytes into a guest's memory, from address `addr` on.
#[unsafe(no_mangle)]
pub extern "C" fn kalyubos_write_memory(board: &mut Handle, slot: u8, addr: u64, from: &[u8]) -> u32
    ensures step { Calls board.old.session board.new.session result
        (Takes slot (EventKind.MemWrite addr from.now) result Reply.Done) }
{
    let session = session_of!(board);
    of_done(session.write_memory(slot, addr, from))
}

/// Lends a guest's memory in place: where the byte of address `addr` lies, and how many bytes there are from it to the end of
/// its region.
#[unsafe(no_mangle)]
pub extern "C" fn kalyubos_memory(
    board: &mut Handle,
    slot: u8,
    addr: u64,
    bytes: &mut *mut u8,
    len: &mut usize,
) -> u32
    ensures lent { result ≡ 0 → Calls board.old.session board.new.session result
        (HasMemory slot addr len.new) }
    ensures missing { result ≢ 0 → result ≢ 4 → result ≢ 19 → Calls board.old.session board.new.session result
        (IsMissing slot result) }
    ensures outside { result ≡ 4 → Calls board.old.session board.new.session result (HasNoRegion slot addr result) }
    ensures busy { result ≡ 19 → Calls board.old.session board.new.session result (IsBusy slot result) }
    ensures kept { result ≢ 0 → (bytes.new ≡ bytes.old) × (len.new ≡ len.old) }
{
    let session = session_of!(board);
    match session.memory(slot) {
        Ok(memory) => place(memory, addr, bytes, len),
        Err(why) => of_refusal(why),
    }
}

// Tells where the byte of an address of a memory lies.
fn place(memory: &GuestMemory, addr: u64, bytes: &mut *mut u8, len: &mut usize) -> u32
    ensures done { result ≡ 0 → HasRoom memory.now addr len.new }
    ensures outside { result ≢ 0 → (result ≡ 4) × ¬ Inside memory.now addr 1 }
    ensures kept { result ≢ 0 → (bytes.new ≡ bytes.old) × (len.new ≡ len.old) }
{
    let Some(lent) = memory.region(addr) else {
        return BAD_RANGE;
    };
    if let Some(first) = lent.first() {
        *bytes = NonNull::from_ref(first).as_ptr();
    }
    *len = lent.len();
    DONE
}
