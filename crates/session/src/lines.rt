//! What holds of every line of calls, by itself: no board is made or run here.

ghost use Rattle.std.specs.Prelude.{◌≡◌, ℕ, List, Some};
ghost use Rattle.std.specs.List.{slice_get};
ghost use Rattle.chain.specs.declared.budget.Budget.{Budget};
ghost use Rattle.board.specs.Slot.{SlotState};
ghost use Rattle.session.specs.Line.{IsIdle, IsLine, IsNoted, IsQuiet, RunsAlone};
ghost use Rattle.session.specs.Pacing.{Move, PacedWorld};

use std::alloc::Allocator;

/// Whatever is called for others between the pieces of its services: a guest whose own events met no refusal is told
/// what it would be told alone by a board that never pauses.
pub fn each_paced_guest_is_alone<A: Allocator>()
    ensures { (g : ℕ) (budget : Budget) (old new : PacedWorld) (moves : List (Move A)) (state : SlotState) →
        IsLine budget old moves new → IsQuiet g old moves → IsIdle g old → IsIdle g new →
        slice_get old.world.slots g ≡ Some state → RunsAlone g state moves new }
{}

/// In every line of calls it is noted of each guest exactly whether an event of it has met a refusal.
pub fn refusals_are_noted<A: Allocator>()
    ensures { (g : ℕ) (budget : Budget) (old new : PacedWorld) (moves : List (Move A)) →
        IsLine budget old moves new → IsNoted g old moves new }
{}
