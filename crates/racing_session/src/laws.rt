//! Laws of the definitions. The bodies are empty: each contract is a theorem.

ghost use Rattle.std.specs.Prelude.{◌≡◌, ℕ, List, None, Some, Result, get_or, true};
ghost use Rattle.guest_memory.specs.Memory.{Memory};
ghost use Rattle.block_device.specs.declared.operation.HostEvent.{HostEvent};
ghost use Rattle.block_device.specs.declared.operation.Operation.{Operation};
ghost use Rattle.block_device.specs.Operation.{LiesInside};
ghost use Rattle.block_device.specs.Tags.{operation_in, runs_in};
ghost use Rattle.racing_guest.specs.declared.reply.GuestQueue.{GuestQueue};
ghost use Rattle.racing_guest.specs.declared.reply.GuestWindow.{GuestWindow};
ghost use Rattle.racing_session.specs.declared.progress.Progress.{Progress};
ghost use Rattle.racing_session.specs.declared.progress.Refusal.{Refusal};
ghost use Rattle.racing_session.specs.Due.{is_due};
ghost use Rattle.racing_session.specs.Session.{GoesOn, IsMemoryOf, IsSaid, IsSoundSession, IsTyped, IsWritten, RacingSession};

/// Nothing that the host of a sound session is told lies outside the guest's memory or its disk, whatever stands in that memory.
pub fn what_the_host_is_told_lies_inside()
    ensures { (session : RacingSession) (m : Memory) (tag : ℕ) (operation : Operation) → IsSoundSession session
        → IsMemoryOf session m
        → operation_in (get_or session.guest.block.disk.tags tag None) ≡ Some operation
        → LiesInside session.guest.block.disk.device.extent.count m operation
        (runs_in (get_or session.guest.block.disk.tags tag None)) }
{}

/// A queue that is due stays so until `go_on` serves it, which makes no queue due that wasn't.
pub fn what_is_due_stays()
    ensures write { (queue : GuestQueue) (stood : List ℕ) (window : GuestWindow) (offset width value : ℕ) (old new : RacingSession)
        (answer : Result Progress Refusal) → IsWritten stood window offset width value old new answer
        → is_due queue old.due ≡ true → is_due queue new.due ≡ true }
    ensures input { (queue : GuestQueue) (stood bytes : List ℕ) (old new : RacingSession) (progress : Progress)
        → IsTyped stood bytes old new progress → is_due queue old.due ≡ true → is_due queue new.due ≡ true }
    ensures told { (queue : GuestQueue) (stood : List ℕ) (said : HostEvent) (old new : RacingSession) (progress : Progress)
        → IsSaid stood said old new progress → is_due queue old.due ≡ true → is_due queue new.due ≡ true }
    ensures go_on { (queue : GuestQueue) (stood : List ℕ) (old new : RacingSession) (answer : Result Progress Refusal)
        → GoesOn stood old new answer → is_due queue new.due ≡ true → is_due queue old.due ≡ true }
{}
