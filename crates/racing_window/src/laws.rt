//! Laws of the definitions. The bodies are empty: each contract is a theorem.

ghost use Rattle.std.specs.Prelude.{◌≡◌, ◌<◌, ℕ, All, Bool, List, [], ◌∷◌, Some, false};
ghost use Rattle.chain.specs.declared.budget.Budget.{Budget};
ghost use Rattle.chain.specs.declared.budget.Progress.{Progress};
ghost use Rattle.chain.specs.declared.segment.Buffer.{Buffer};
ghost use Rattle.chain.specs.declared.fault.Fault.{Fault};
ghost use Rattle.chain.specs.Service as chain;
ghost use Rattle.chain.specs.Service.{Entry, IsService, Spent};
ghost use Rattle.mmio_window.specs.declared.queue.Queue.{Queue};
ghost use Rattle.mmio_window.specs.Queue.{LiesIn, queue_kind};
ghost use Rattle.mmio_window.specs.Serving as still;
ghost use Rattle.mmio_window.specs.Soundness.{IsSound};
ghost use Rattle.mmio_window.specs.Window.{WindowState, queue_at};
ghost use Rattle.shared_memory.specs.Sightings.{Sightings, memory};
ghost use Rattle.racing_service.specs.declared.service.Ending.{Ending};
ghost use Rattle.racing_service.specs.declared.service.Ending.TheVariants.{Faulted, Settled};
ghost use Rattle.racing_service.specs.declared.stage.Stage.{Stage};
ghost use Rattle.racing_service.specs.declared.stage.Stage.TheVariants.{First};
ghost use Rattle.racing_service.specs.Laws.{AreServices, site_of};
ghost use Rattle.racing_service.specs.LeftAlone.{IsLeftAlone, IsLeftAtOnce, IsServedAtOnce, LeavesAlone, chains_of};
ghost use Rattle.racing_service.specs.Service.{AreRounds, IsRacingService, IsRound, IsSettled, LeavesOne, Met, Round, Standing};
ghost use Rattle.racing_window.specs.Laws.{LeavesQueue, size_of};
ghost use Rattle.racing_window.specs.Queue.{racing_queue};
ghost use Rattle.racing_window.specs.Serving.{ServesQueue};

use chain_handler::ChainHandler;

/// A guest that stands still: each round of a queue is one service of `queue_kind`, whether it ends with no chain on offer or
/// by a fault, and the look that settles the service changes nothing.
pub fn a_queue_that_stands_still_is_served_by_services<B, D: ChainHandler<B>>()
    ensures rounds { (setup : D.Setup) (rounds : List (Round Queue D.State)) (a b : Standing Queue D.State)
        → LiesIn (memory a.sightings) a.ring → 0 < size_of a.ring
        → AreRounds racing_queue (D.device setup) false First a rounds b
        → AreServices queue_kind (D.device setup) (site_of a) rounds (site_of b) }
    ensures broken { (setup : D.Setup) (fault : Fault) (wanted : Bool) (a b : Standing Queue D.State)
        → LiesIn (memory a.sightings) a.ring → 0 < size_of a.ring
        → IsRound racing_queue (D.device setup) false First a (Met fault) b wanted
        → IsService queue_kind (D.device setup) (site_of a) (site_of b) (chain.Faulted fault) wanted }
    ensures look { (setup : D.Setup) (rounds : List (Round Queue D.State)) (wanted : Bool)
        (a at b : Standing Queue D.State) → AreRounds racing_queue (D.device setup) false First a rounds at
        → IsSettled racing_queue (D.device setup) false First rounds at b wanted → site_of b ≡ site_of at }
{}

/// A guest that stands still, and a sound window: a service of one round is what `mmio_window` says of one, with the same memory,
/// registers and interrupts. It ends settled (`settled`), or by a fault of its first round (`broken`).
pub fn a_window_that_stands_still_is_served_once<B, D: ChainHandler<B>>()
    ensures settled { (setup : D.Setup) (most q : ℕ) (budget : Budget) (queue : Queue) (progress : Progress) (old new : Sightings)
        (before after : WindowState) (s s' : D.State) (r : Round Queue D.State)
        (serves : ServesQueue (D.device setup) false most q budget queue progress old new before after s s')
        → IsSound (memory old) before → queue_at q before ≡ Some queue → serves.ending ≡ Settled
        → serves.service.rounds ≡ r ∷ []
        → still.ServesQueue (D.device setup) q queue Spent (memory old) (memory new) before after s s' }
    ensures broken { (setup : D.Setup) (most q : ℕ) (budget : Budget) (queue : Queue) (progress : Progress) (old new : Sightings)
        (before after : WindowState) (s s' : D.State) (fault : Fault)
        (serves : ServesQueue (D.device setup) false most q budget queue progress old new before after s s')
        → IsSound (memory old) before → queue_at q before ≡ Some queue → serves.ending ≡ Faulted fault
        → serves.service.rounds ≡ []
        → still.ServesQueue (D.device setup) q queue (chain.Faulted fault) (memory old) (memory new) before after s s' }
{}

/// A driver that leaves each chain of a queue alone while it is taken, whatever else its guest writes: each chain is served, or left
/// on offer, as that of a guest which stands still, in the memory as it was seen once the chain was taken.
pub fn a_chain_that_is_left_alone_is_of_one_moment<B, D: ChainHandler<B>>()
    ensures served { (setup : D.Setup) (races : Bool) (stage : Stage) (most : ℕ) (ending : Ending) (wanted : Bool)
        (a b : Standing Queue D.State)
        (service : IsRacingService racing_queue (D.device setup) races stage most a b ending wanted)
        → All (IsLeftAlone racing_queue (D.device setup) races LeavesQueue)
        (chains_of racing_queue (D.device setup) races stage most a b ending wanted service)
        → All (IsServedAtOnce racing_queue (D.device setup) races)
        (chains_of racing_queue (D.device setup) races stage most a b ending wanted service) }
    ensures left { (setup : D.Setup) (backend : B) (races : Bool) (buffers : List Buffer) (entry : Entry) (why : D.Refusal)
        (a b : Standing Queue D.State)
        (left : LeavesOne racing_queue (D.device setup) races (D.Refuses setup backend) buffers entry why a b)
        → LeavesAlone racing_queue (D.device setup) races (D.Refuses setup backend) LeavesQueue buffers entry why a b left
        → IsLeftAtOnce racing_queue (D.device setup) races (D.Refuses setup backend) (memory left.taken) a.ring a.state
        buffers entry why }
{}
