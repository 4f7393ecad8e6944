//! A guest's devices, saved to a snapshot and brought back from one. Nothing here takes memory.

ghost use Rattle.std.specs.Prelude.{◌≡◌, ◌⊎◌, ◌↔◌, ◌<◌, ◌≤◌, Some, IfOk, IsErrOf, IsOk, IsSomeAnd, OnErr, false, length};
ghost use Rattle.std.specs.List.{slice_get};
ghost use Rattle.board.specs.declared.event.EventKind.{EventKind};
ghost use Rattle.board.specs.declared.saved.RestoreFault.{RestoreFault};
ghost use Rattle.board.specs.declared.saved.RestoreRefusal.{RestoreRefusal};
ghost use Rattle.board.specs.declared.saved.SaveRefusal.{SaveRefusal};
ghost use Rattle.board.specs.Saved.{IsAs, IsCauseOf, IsLike, IsSavedTo, IsSnapshotOf, snapshot_of};
ghost use Rattle.board.specs.Slot.{BoardSlot, is_at_work};
ghost use Rattle.session.specs.Operations.{HasFlight};
ghost use Rattle.session.specs.Pacing.{paused_at};
ghost use Rattle.session.specs.Pausing.{IsEventCall};
ghost use Rattle.session.specs.Restoring.{restore_response};
ghost use Rattle.session.specs.Session.{IsIdle};

use crate::session::Session;
use board::{RestoreRefusal, SaveRefusal};
use std::alloc::Allocator;

impl<A: Allocator> Session<A> {
    /// How many bytes the slot's snapshot has: what `save` writes until the next call for the slot. It is refused for a
    /// bad slot, and while a service of the slot is paused or something of it is in flight.
    pub fn saved_len(&self, slot: u8) -> Result<usize, SaveRefusal>
        ensures value { IfOk result (λ len. IsSomeAnd (slice_get self.now.slots slot)
            (λ found. len ≡ length (snapshot_of found))) }
        ensures missing { IsErrOf result SaveRefusal.BadSlot ↔ (length self.now.slots ≤ slot) }
        ensures busy { IsErrOf result SaveRefusal.Busy ↔
            ((¬ IsIdle slot self.now) ⊎ HasFlight slot self.now.slots) }
        ensures not_short { ¬ IsErrOf result SaveRefusal.ShortBuffer }
    {
        if self.is_paused(slot) {
            return Err(SaveRefusal::Busy);
        }
        self.board.saved_len(slot)
    }

    /// Writes the slot's snapshot to the front of `into`, and answers how many bytes it has; the others stay. Every slot
    /// of its description takes it back. It is refused for a bad slot, while a service of the slot is paused or something of
    /// it is in flight, and where it doesn't fit; what is refused writes nothing.
    pub fn save(&self, slot: u8, into: &mut [u8]) -> Result<usize, SaveRefusal>
        ensures saved { IfOk result (λ len. IsSomeAnd (slice_get self.now.slots slot)
            (λ found. IsSavedTo found into.old into.new len)) }
        ensures missing { IsErrOf result SaveRefusal.BadSlot ↔ (length self.now.slots ≤ slot) }
        ensures busy { IsErrOf result SaveRefusal.Busy ↔
            ((¬ IsIdle slot self.now) ⊎ HasFlight slot self.now.slots) }
        ensures short { IsErrOf result SaveRefusal.ShortBuffer → IsSomeAnd (slice_get self.now.slots slot)
            (λ found. length into.old < length (snapshot_of found)) }
        ensures kept { OnErr result (into.new ≡ into.old) }
    {
        if self.is_paused(slot) {
            return Err(SaveRefusal::Busy);
        }
        self.board.save(slot, into)
    }

    /// The slot takes up a snapshot of one of the same description, whoever had its disk. The bytes of memory and disk aren't
    /// in it: the host puts them back. It is refused for a bad slot, while a service of the slot is paused or something of it
    /// is in flight, and for bytes that the slot doesn't take up, with their fault; what is refused changes nothing.
    pub fn restore(&mut self, slot: u8, from: &[u8]) -> Result<(), RestoreRefusal>
        ensures call { IsEventCall {A = A} self.old slot (EventKind.Restore from.now)
            (restore_response (paused_at self.old.paused slot) result) self.new }

        // what was saved of a slot is taken by every slot of its description at rest, and brings it to its state
        ensures taken { (saved old new : BoardSlot) → IsSnapshotOf from.now saved →
            slice_get self.old.slots slot ≡ Some old → slice_get self.new.slots slot ≡ Some new → IsLike saved old →
            IsIdle slot self.old → is_at_work old ≡ false → IsOk result × IsAs saved old new }
        ensures kept { OnErr result (self.new ≡ self.old) }
        ensures missing { IsErrOf result RestoreRefusal.BadSlot ↔ (length self.old.slots ≤ slot) }
        ensures busy { IsErrOf result RestoreRefusal.Busy ↔
            ((¬ IsIdle slot self.old) ⊎ HasFlight slot self.old.slots) }
        ensures fault { (why : RestoreFault) → IsErrOf result (RestoreRefusal.Fault why) →
            IsSomeAnd (slice_get self.old.slots slot) (λ old. IsCauseOf old from.now why) }
    {
        if self.is_paused(slot) {
            return Err(RestoreRefusal::Busy);
        }
        self.board.restore(slot, from)
    }
}
