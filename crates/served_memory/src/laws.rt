//! Laws of the definitions. The bodies are empty: each contract is a theorem.

ghost use Rattle.std.specs.Prelude.{ℕ, Option};
ghost use Rattle.guest_memory.specs.Memory.{Memory};
ghost use Rattle.chain.specs.declared.budget.Progress.{Progress};
ghost use Rattle.mmio_window.specs.declared.queue.Queue.{Queue};
ghost use Rattle.mmio_window.specs.declared.stage.Stage.{Stage};
ghost use Rattle.mmio_window.specs.Pieces.{ServesTo, fitting};
ghost use Rattle.mmio_window.specs.Window.{WindowState};
ghost use Rattle.racing_service.specs.declared.service.Limits.{Limits};
ghost use Rattle.served_memory.specs.World.{standing};

use chain_handler::ChainHandler;

/// A service of a guest that stands still is what mmio_window says, for every device.
pub fn the_standing_world_is_todays<B, D: ChainHandler<B>>()
    ensures from { (device : D.Setup) (stage : Stage) (limits : Limits) (q : ℕ) (queue : Option Queue) (progress : Progress)
        (old new : Memory) (before after : WindowState) (s t : D.State)
        → standing.ServesTo (D.device device) stage limits q queue progress old new before after s t
        → ServesTo stage (fitting (D.device device)) limits.budget q queue progress old new before after s t }
    ensures to { (device : D.Setup) (stage : Stage) (limits : Limits) (q : ℕ) (queue : Option Queue) (progress : Progress)
        (old new : Memory) (before after : WindowState) (s t : D.State)
        → ServesTo stage (fitting (D.device device)) limits.budget q queue progress old new before after s t
        → standing.ServesTo (D.device device) stage limits q queue progress old new before after s t }
{}
