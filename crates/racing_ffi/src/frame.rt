//! What a device's driver sent is moved out.

ghost use Rattle.std.specs.Prelude.{◌≡◌, ◌≢◌, ◌++◌, ℕ, List, IfErr, IfOk, length};
ghost use Rattle.racing_ffi.specs.Devices.{DropsFrame, IsCopied, IsLonger, IsTooShort, TakesFrame, frame_at};

use crate::codes::{BAD_WINDOW, DONE, SHORT_BUFFER, of_progress};
use racing_session::RacingSession;

/// Moves out what a device's driver sent, the oldest frame of a card or all output of a console, where it finds room, and tells how
/// many bytes it has.
pub(crate) fn take_frame(
    session: &mut RacingSession,
    device: u8,
    into: &mut [u8],
    len: &mut usize,
) -> u32
    ghost stood: { List ℕ }
    ensures taken { result ≢ 26 → TakesFrame stood into.old into.new len.new result device session.old session.new }
    ensures short { result ≡ 26 → IsTooShort (length into.old) len.new device session.old session.new }
    ensures kept { result ≢ 0 → result ≢ 18 → into.new ≡ into.old }
    ensures kept_len { result ≢ 0 → result ≢ 18 → result ≢ 26 → len.new ≡ len.old }
{
    if !session.has_sender(device) {
        return BAD_WINDOW;
    }
    match copy_sent(session, device, into) {
        Ok(count) => {
            *len = count;
            drop_sent(session, device)
        }
        Err(count) => {
            *len = count;
            SHORT_BUFFER
        }
    }
}

// Drops what a device's driver sent, if anything waits, and answers the number of what that came to.
fn drop_sent(session: &mut RacingSession, device: u8) -> u32
    ghost stood: { List ℕ }
    ensures { DropsFrame stood result device session.old session.new }
{
    match session.drop_sent(device) {
        Some(handed) => of_progress(handed.progress),
        None => DONE,
    }
}

// Copies what was sent to the front of a buffer, if anything waits, and answers how many bytes it has: as an error where it finds
// no room.
fn copy_sent(session: &RacingSession, device: u8, into: &mut [u8]) -> Result<usize, usize>
    ensures copied { IfOk result (λ count. IsCopied (frame_at device session.now) into.old into.new count) }
    ensures short { IfErr result (λ count. IsLonger (frame_at device session.now) into.old into.new count) }
{
    match session.sent(device) {
        Some((front, back)) => copy(front, back, into),
        None => Ok(0),
    }
}

// Copies two parts to the front of a buffer, where they find room.
fn copy(front: &[u8], back: &[u8], into: &mut [u8]) -> Result<usize, usize>
    ensures copied { IfOk result (λ count. IsCopied (front.now ++ back.now) into.old into.new count) }
    ensures short { IfErr result (λ count. IsLonger (front.now ++ back.now) into.old into.new count) }
{
    let count = front.len() + back.len();
    if count > into.len() {
        return Err(count);
    }
    into[..front.len()].copy_from_slice(front);
    put_part(back, &mut into[front.len()..count]);
    Ok(count)
}

// Copies bytes over as many. A card's frame has no second part, and a copy of no bytes is a call all the same.
#[inline(always)]
fn put_part(bytes: &[u8], into: &mut [u8])
    requires { length into.old ≡ length bytes.now }
    ensures { into.new ≡ bytes.now }
{
    if !bytes.is_empty() {
        into.copy_from_slice(bytes);
    }
}
