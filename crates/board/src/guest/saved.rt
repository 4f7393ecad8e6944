//! A guest's snapshot, and a guest that takes one up. While something is in flight neither is done: nothing that is in flight
//! is part of a snapshot.

ghost use Rattle.std.specs.Prelude.{◌≡◌, ◌↔◌, ◌<◌, false, IfOk, IsErrOf, IsOk, IsTrue, OnErr, length};
ghost use Rattle.board.specs.declared.event.EventKind.{EventKind};
ghost use Rattle.board.specs.declared.saved.{RestoreFault.{RestoreFault}, RestoreRefusal.{RestoreRefusal}, SaveRefusal.{SaveRefusal}};
ghost use Rattle.board.specs.Quiet.{AnswersQuietly};
ghost use Rattle.board.specs.Restoring.{refusal_of, restore_reply};
ghost use Rattle.board.specs.Saved.{IsAs, IsCauseOf, IsLike, IsSavedTo, IsSnapshotOf, snapshot_of};
ghost use Rattle.board.specs.Slot.{BoardSlot, is_at_work};

use crate::guest::Guest;
use crate::saved::{RestoreFault, RestoreRefusal, SaveRefusal};
use snapshot::ShortBuffer;
use std::alloc::Allocator;

impl<A: Allocator> Guest<A> {
    /// How many bytes the slot's snapshot has.
    pub(crate) fn saved_len(&self) -> Result<usize, SaveRefusal>
        ensures value { IfOk result (λ len. len ≡ length (snapshot_of self.now)) }
        ensures busy { IsErrOf result SaveRefusal.Busy ↔ IsTrue (is_at_work self.now) }
        ensures there { ¬ IsErrOf result SaveRefusal.BadSlot }
        ensures not_short { ¬ IsErrOf result SaveRefusal.ShortBuffer }
    {
        if self.is_at_work() {
            return Err(SaveRefusal::Busy);
        }
        Ok(self.slot.saved_len())
    }

    /// Writes the slot's snapshot to the front of a buffer, and answers how many bytes it has.
    pub(crate) fn save(&self, into: &mut [u8]) -> Result<usize, SaveRefusal>
        ensures saved { IfOk result (IsSavedTo self.now into.old into.new) }
        ensures busy { IsErrOf result SaveRefusal.Busy ↔ IsTrue (is_at_work self.now) }
        ensures short { IsErrOf result SaveRefusal.ShortBuffer →
            length into.old < length (snapshot_of self.now) }
        ensures there { ¬ IsErrOf result SaveRefusal.BadSlot }
        ensures kept { OnErr result (into.new ≡ into.old) }
    {
        if self.is_at_work() {
            return Err(SaveRefusal::Busy);
        }
        match self.slot.save_into(into) {
            Ok(len) => Ok(len),
            Err(ShortBuffer) => Err(SaveRefusal::ShortBuffer),
        }
    }

    /// Takes up a snapshot of a slot of the same description. What is refused changes nothing.
    pub(crate) fn restore(&mut self, from: &[u8]) -> Result<(), RestoreRefusal>
        ensures answers { AnswersQuietly {A = A} self.old (EventKind.Restore from.now) self.new (restore_reply result) }
        ensures busy { IsErrOf result RestoreRefusal.Busy ↔ IsTrue (is_at_work self.old) }
        ensures there { ¬ IsErrOf result RestoreRefusal.BadSlot }
        ensures fault { (why : RestoreFault) → IsErrOf result (RestoreRefusal.Fault why) →
            IsCauseOf self.old from.now why }
        ensures kept { OnErr result (self.new ≡ self.old) }
        ensures taken { (slot : BoardSlot) → IsSnapshotOf from.now slot → IsLike slot self.old →
            is_at_work self.old ≡ false → IsOk result × IsAs slot self.old self.new }
    {
        if self.is_at_work() {
            return Err(RestoreRefusal::Busy);
        }
        refusal(self.slot.restore(from))
    }
}

// Why a slot that is there isn't restored.
fn refusal(restored: Result<(), RestoreFault>) -> Result<(), RestoreRefusal>
    ensures { result ≡ refusal_of restored }
{
    match restored {
        Ok(()) => Ok(()),
        Err(why) => Err(RestoreRefusal::Fault(why)),
    }
}
