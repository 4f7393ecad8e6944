//! Writing a snapshot into a buffer that is lent, but for what waits in the further devices: that is put behind it.

ghost use Rattle.std.specs.Prelude.{◌≡◌, ◌↔◌, ◌<◌, ◌≤◌, ◌+◌, ◌^◌, ◌++◌, ℕ, Bool, IfOk, IsErr, List, OnErr, Option, drop, length};
ghost use Rattle.snapshot.specs.Spelling.{IsSnapshot, WaitingFits, front_of, snapshot};

use crate::fault::ShortBuffer;
use crate::head::head_of;
use crate::saved::SavedSlot;

/// How many bytes the snapshot of a slot has, with this pending input in a front and a back part, before what waits in its
/// further devices.
pub fn written_len(saved: &SavedSlot, front: &[u8], back: &[u8]) -> usize
    requires { length front.now + length back.now ≤ 4096 }
    ensures value { (waits : Bool) → result ≡ length (front_of saved.now (front.now ++ back.now) waits) }
    ensures few { result ≤ 2 ^ 13 }
{
    let pending = front.len() + back.len();
    head_of(saved, false, pending).len() + pending
}

/// Writes the snapshot of a slot, before what waits in its further devices, to the front of a buffer, and answers how many
/// bytes that has. The others stay. It takes no memory. A buffer that is too short is refused and left as it was.
#[tactic(auto, using(crate::proofs::Joining::snapshot_is))]
pub fn write_into(
    saved: &SavedSlot,
    front: &[u8],
    back: &[u8],
    waits: bool,
    into: &mut [u8],
) -> Result<usize, ShortBuffer>
    requires { length front.now + length back.now ≤ 4096 }
    ensures len { IfOk result (λ len. len ≡ length (front_of saved.now (front.now ++ back.now) waits)) }
    ensures text { IfOk result (λ len. into.new ≡ front_of saved.now (front.now ++ back.now) waits ++ drop len into.old) }
    ensures short { IsErr result ↔ (length into.old < length (front_of saved.now (front.now ++ back.now) waits)) }
    ensures kept { OnErr result (into.new ≡ into.old) }
    // with what waits behind it, it is the snapshot
    ensures whole { (waiting : Option (List ℕ)) → WaitingFits saved.now waiting →
        IsSnapshot (snapshot saved.now (front.now ++ back.now) waiting) saved.now (front.now ++ back.now) waiting }
{
    let head = head_of(saved, waits, front.len() + back.len());
    let of_front = head.len() + front.len();
    let len = of_front + back.len();
    if into.len() < len {
        return Err(ShortBuffer);
    }
    into[..head.len()].copy_from_slice(head.as_slice());
    into[head.len()..of_front].copy_from_slice(front);
    into[of_front..len].copy_from_slice(back);
    Ok(len)
}
