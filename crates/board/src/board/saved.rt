//! A slot's devices, saved from one board and restored to another. Nothing here takes memory.

ghost use Rattle.std.specs.Prelude.{◌≡◌, ◌↔◌, ◌<◌, ◌≤◌, [], Some, false, IfOk, IsErrOf, IsOk, IsSomeAnd, IsTrue, OnErr, length};
ghost use Rattle.std.specs.List.{slice_get};
ghost use Rattle.board.specs.declared.event.EventKind.{EventKind};
ghost use Rattle.board.specs.declared.saved.{RestoreFault.{RestoreFault}, RestoreRefusal.{RestoreRefusal}, SaveRefusal.{SaveRefusal}};
ghost use Rattle.board.specs.Image.{Tells};
ghost use Rattle.board.specs.Restoring.{restore_reply};
ghost use Rattle.board.specs.Saved.{IsAs, IsCauseOf, IsLike, IsSavedTo, IsSnapshotOf, snapshot_of};
ghost use Rattle.board.specs.Slot.{BoardSlot, is_at_work};
ghost use Rattle.board.specs.World.{Answers, KeepsOthers, disturbed_of, extents_of, world_of};

use crate::board::Board;
use crate::saved::{RestoreRefusal, SaveRefusal};
use sector_cache::Image;
use std::alloc::Allocator;

impl<I: Image, A: Allocator> Board<I, A> {
    /// How many bytes the slot's snapshot has: what its devices keep, with the description of the slot. The bytes of its
    /// memory and of its disk aren't in it. It is refused for a bad slot, and while something of the slot is in flight.
    pub fn saved_len(&self, slot: u8) -> Result<usize, SaveRefusal>
        ensures value { IfOk result (λ len. IsSomeAnd (slice_get self.now.slots slot)
            (λ found. len ≡ length (snapshot_of found))) }
        ensures missing { IsErrOf result SaveRefusal.BadSlot ↔ (length self.now.slots ≤ slot) }
        ensures busy { IsErrOf result SaveRefusal.Busy ↔
            IsSomeAnd (slice_get self.now.slots slot) (λ found. IsTrue (is_at_work found)) }
        ensures not_short { ¬ IsErrOf result SaveRefusal.ShortBuffer }
    {
        let Some(found) = self.slot(slot) else {
            return Err(SaveRefusal::BadSlot);
        };
        found.saved_len()
    }

    /// Writes the slot's snapshot to the front of a buffer, and answers how many bytes it has; the others stay. It is
    /// refused for a bad slot, while something of the slot is in flight, and for a buffer that is too short, which stays
    /// as it was.
    pub fn save(&self, slot: u8, into: &mut [u8]) -> Result<usize, SaveRefusal>
        ensures saved { IfOk result (λ len. IsSomeAnd (slice_get self.now.slots slot)
            (λ found. IsSavedTo found into.old into.new len)) }
        ensures missing { IsErrOf result SaveRefusal.BadSlot ↔ (length self.now.slots ≤ slot) }
        ensures busy { IsErrOf result SaveRefusal.Busy ↔
            IsSomeAnd (slice_get self.now.slots slot) (λ found. IsTrue (is_at_work found)) }
        ensures short { IsErrOf result SaveRefusal.ShortBuffer → IsSomeAnd (slice_get self.now.slots slot)
            (λ found. length into.old < length (snapshot_of found)) }
        ensures kept { OnErr result (into.new ≡ into.old) }
    {
        let Some(found) = self.slot(slot) else {
            return Err(SaveRefusal::BadSlot);
        };
        found.save(into)
    }

    /// The slot takes up a snapshot of one of the same description, whoever had its disk: the event of that restore, for
    /// who has the bytes in a slice. It is refused for a bad slot, while something of the slot is in flight, and for bytes
    /// that the slot doesn't take up, with their fault; what is refused changes nothing.
    pub fn restore(&mut self, slot: u8, from: &[u8]) -> Result<(), RestoreRefusal>
        ensures step { Tells (I.disk self.old.image) →
            Answers {A = A} (world_of I.disk self.old)
            (record { slot = slot; what = EventKind.Restore from.now }) (restore_reply result) [] []
            (world_of I.disk self.new) }
        ensures missing { IsErrOf result RestoreRefusal.BadSlot ↔ (length self.old.slots ≤ slot) }
        ensures busy { IsErrOf result RestoreRefusal.Busy ↔
            IsSomeAnd (slice_get self.old.slots slot) (λ found. IsTrue (is_at_work found)) }
        ensures fault { (why : RestoreFault) → IsErrOf result (RestoreRefusal.Fault why) →
            IsSomeAnd (slice_get self.old.slots slot) (λ old. IsCauseOf old from.now why) }

        // what was saved of a slot is taken by every slot of its description at rest, and brings it to its state
        ensures taken { (saved old new : BoardSlot) → IsSnapshotOf from.now saved →
            slice_get self.old.slots slot ≡ Some old → slice_get self.new.slots slot ≡ Some new → IsLike saved old →
            is_at_work old ≡ false → IsOk result × IsAs saved old new }
        ensures kept { OnErr result (self.new ≡ self.old) }
        ensures others { KeepsOthers slot self.old.slots self.new.slots }
        ensures extents { extents_of self.new.slots ≡ extents_of self.old.slots }
        ensures image { self.new.image ≡ self.old.image }
        ensures disturbed { disturbed_of self.new.slots ≡ disturbed_of self.old.slots }
    {
        let Some(found) = self.slots.get_mut(slot as usize) else {
            return Err(RestoreRefusal::BadSlot);
        };
        found.restore(from)
    }
}
