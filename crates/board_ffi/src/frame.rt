//! What a device's driver sent is moved out.

ghost use Rattle.std.specs.Prelude.{◌≡◌, ◌≢◌, ◌++◌, IfErr, IfOk, length};
ghost use Rattle.board_ffi.specs.Calls.{IsTooShort, TakesFrame};
ghost use Rattle.board_ffi.specs.Devices.{IsCopied, IsLonger, frame_now};

use crate::codes::{SHORT_BUFFER, handed};
use session::Session;

/// Moves out what a device's driver sent, the oldest frame of a card or all output of a console, where it finds room, and tells how
/// many bytes it has, also where the service that comes of it pauses.
pub(crate) fn take_frame(
    session: &mut Session,
    slot: u8,
    device: u8,
    into: &mut [u8],
    len: &mut usize,
) -> u32
    ensures taken { result ≢ 26 → TakesFrame slot device into.old into.new len.new result session.old session.new }
    ensures short { result ≡ 26 → IsTooShort slot device (length into.old) len.new session.old session.new }
    ensures kept { result ≢ 0 → result ≢ 18 → into.new ≡ into.old }
    ensures kept_len { result ≢ 0 → result ≢ 18 → result ≢ 26 → len.new ≡ len.old }
{
    match copy_sent(session, slot, device, into) {
        Ok(_) => handed(session.drop_sent(slot, device), len),
        Err(count) => {
            *len = count;
            SHORT_BUFFER
        }
    }
}

// Copies what was sent to the front of a buffer, if anything waits and no service of the slot is paused, and answers how many
// bytes it has: as an error where it finds no room.
fn copy_sent(session: &Session, slot: u8, device: u8, into: &mut [u8]) -> Result<usize, usize>
    ensures copied { IfOk result (λ count. IsCopied (frame_now slot device session.now) into.old into.new count) }
    ensures short { IfErr result (λ count. IsLonger (frame_now slot device session.now) into.old into.new count) }
{
    if session.is_paused(slot) {
        return Ok(0);
    }
    match session.sent(slot, device) {
        Some((front, back)) => copy(front, back, into),
        None => Ok(0),
    }
}

// Copies two parts to the front of a buffer, where they find room.
fn copy(front: &[u8], back: &[u8], into: &mut [u8]) -> Result<usize, usize>
    ensures copied { IfOk result (λ count. IsCopied (front.now ++ back.now) into.old into.new count) }
    ensures short { IfErr result (λ count. IsLonger (front.now ++ back.now) into.old into.new count) }
{
    let count = front.len() + back.len();
    if count > into.len() {
        return Err(count);
    }
    into[..front.len()].copy_from_slice(front);
    put_part(back, &mut into[front.len()..count]);
    Ok(count)
}

// Copies bytes over as many. A card's frame has no second part, and a copy of no bytes is a call all the same.
#[inline(always)]
fn put_part(bytes: &[u8], into: &mut [u8])
    requires { length into.old ≡ length bytes.now }
    ensures { into.new ≡ bytes.now }
{
    if !bytes.is_empty() {
        into.copy_from_slice(bytes);
    }
}
