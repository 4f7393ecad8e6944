//! Laws of the definitions. The bodies are empty: each contract is a theorem.

ghost use Rattle.std.specs.Prelude.{◌≡◌, ◌<◌, ◌++◌, ℕ, All, Bool, List, [], ◌∷◌, false, length, true};
ghost use Rattle.chain.specs.declared.fault.Fault.{Fault};
ghost use Rattle.chain.specs.declared.state.RingState.{RingState};
ghost use Rattle.chain.specs.declared.segment.Buffer.{Buffer};
ghost use Rattle.chain.specs.Bytes.{writable_of};
ghost use Rattle.chain.specs.Service.{Entry, Faulted, IsService, Refused, Spent};
ghost use Rattle.split_ring.specs.Ring.{LiesIn};
ghost use Rattle.split_ring.specs.Kind.{split_kind};
ghost use Rattle.packed_ring.specs.Kind.{packed_kind};
ghost use Rattle.packed_ring.specs.Ring.{head_of, next_wrap};
ghost use Rattle.shared_memory.specs.Sightings.{Sightings, memory};
ghost use Rattle.racing_ring.specs.Packed as packed;
ghost use Rattle.racing_ring.specs.Split as split;
ghost use Rattle.racing_service.specs.declared.service.Ending.{Ending};
ghost use Rattle.racing_service.specs.declared.service.Ending.TheVariants.{Settled};
ghost use Rattle.racing_service.specs.declared.stage.Stage.{Stage};
ghost use Rattle.racing_service.specs.declared.stage.Stage.TheVariants.{First};
ghost use Rattle.racing_service.specs.Queue.{racing_packed, racing_split};
ghost use Rattle.racing_service.specs.Service.{AreRounds, IsClosing, IsRacingService, IsRound, IsSettled, LeavesOne, Met, Round, RunsUpTo, Standing};
ghost use Rattle.racing_service.specs.LeftAlone.{IsLeftAlone, IsLeftAtOnce, IsServedAtOnce, KeepsPacked, KeepsSplit, LeavesAlone, LeavesPacked, LeavesSplit, chains_of};
ghost use Rattle.racing_service.specs.Laws.{AreServices, SeesNoHead, SeesNoList, site_of};

use chain_handler::ChainHandler;

/// A guest that stands still, and its split ring: each round is one service of `split_kind`, whether it ends with no chain
/// on offer or by a fault, and the look that settles the service changes nothing. So a settled service of one round is one
/// service.
pub fn a_split_ring_that_stands_still_is_served_by_services<B, D: ChainHandler<B>>()
    ensures rounds { (setup : D.Setup) (rounds : List (Round RingState D.State)) (a b : Standing RingState D.State)
        → LiesIn (memory a.sightings) a.ring.setup → 0 < a.ring.setup.size
        → AreRounds racing_split (D.device setup) false First a rounds b
        → AreServices split_kind (D.device setup) (site_of a) rounds (site_of b) }
    ensures broken { (setup : D.Setup) (fault : Fault) (wanted : Bool) (a b : Standing RingState D.State)
        → LiesIn (memory a.sightings) a.ring.setup → 0 < a.ring.setup.size
        → IsRound racing_split (D.device setup) false First a (Met fault) b wanted
        → IsService split_kind (D.device setup) (site_of a) (site_of b) (Faulted fault) wanted }
    ensures left { (setup : D.Setup) (backend : B) (buffers : List Buffer) (entry : Entry) (why : D.Refusal) (wanted : Bool)
        (a at b : Standing RingState D.State) → LiesIn (memory a.sightings) a.ring.setup → 0 < a.ring.setup.size
        → ((s : D.State) (readable : List ℕ) → D.Refuses setup backend s readable buffers why
        → (D.device setup).LacksMemory s readable (length (writable_of buffers)))
        → RunsUpTo racing_split (D.device setup) false (D.Refuses setup backend) First buffers entry why a at
        → IsClosing racing_split (D.device setup) false at b wanted
        → IsService split_kind (D.device setup) (site_of a) (site_of b) Refused wanted }
    ensures look { (setup : D.Setup) (rounds : List (Round RingState D.State)) (wanted : Bool)
        (a at b : Standing RingState D.State) → AreRounds racing_split (D.device setup) false First a rounds at
        → IsSettled racing_split (D.device setup) false First rounds at b wanted → site_of b ≡ site_of at }
    ensures one { (setup : D.Setup) (most : ℕ) (wanted : Bool) (a b : Standing RingState D.State) (r : Round RingState D.State)
        (service : IsRacingService racing_split (D.device setup) false First most a b Settled wanted)
        → LiesIn (memory a.sightings) a.ring.setup → 0 < a.ring.setup.size → service.rounds ≡ r ∷ []
        → IsService split_kind (D.device setup) (site_of a) (site_of b) Spent wanted }
{}

/// The same of a packed ring.
pub fn a_packed_ring_that_stands_still_is_served_by_services<B, D: ChainHandler<B>>()
    ensures rounds { (setup : D.Setup) (rounds : List (Round RingState D.State)) (a b : Standing RingState D.State)
        → 0 < a.ring.setup.size → AreRounds racing_packed (D.device setup) false First a rounds b
        → AreServices packed_kind (D.device setup) (site_of a) rounds (site_of b) }
    ensures broken { (setup : D.Setup) (fault : Fault) (wanted : Bool) (a b : Standing RingState D.State)
        → 0 < a.ring.setup.size → IsRound racing_packed (D.device setup) false First a (Met fault) b wanted
        → IsService packed_kind (D.device setup) (site_of a) (site_of b) (Faulted fault) wanted }
    ensures left { (setup : D.Setup) (backend : B) (buffers : List Buffer) (entry : Entry) (why : D.Refusal) (wanted : Bool)
        (a at b : Standing RingState D.State) → 0 < a.ring.setup.size
        → ((s : D.State) (readable : List ℕ) → D.Refuses setup backend s readable buffers why
        → (D.device setup).LacksMemory s readable (length (writable_of buffers)))
        → RunsUpTo racing_packed (D.device setup) false (D.Refuses setup backend) First buffers entry why a at
        → IsClosing racing_packed (D.device setup) false at b wanted
        → IsService packed_kind (D.device setup) (site_of a) (site_of b) Refused wanted }
    ensures look { (setup : D.Setup) (rounds : List (Round RingState D.State)) (wanted : Bool)
        (a at b : Standing RingState D.State) → AreRounds racing_packed (D.device setup) false First a rounds at
        → IsSettled racing_packed (D.device setup) false First rounds at b wanted → site_of b ≡ site_of at }
    ensures one { (setup : D.Setup) (most : ℕ) (wanted : Bool) (a b : Standing RingState D.State) (r : Round RingState D.State)
        (service : IsRacingService racing_packed (D.device setup) false First most a b Settled wanted)
        → 0 < a.ring.setup.size → service.rounds ≡ r ∷ []
        → IsService packed_kind (D.device setup) (site_of a) (site_of b) Spent wanted }
{}

/// A settled service saw behind its closing writes that nothing more was on offer, where its device takes a chain. Of a split
/// ring: the available idx was the place of the next chain. Of a packed ring, unless all its places are in flight: the next
/// descriptor wasn't available.
pub fn a_settled_service_saw_nothing_more_on_offer<B, D: ChainHandler<B>>()
    ensures split { (setup : D.Setup) (races wanted : Bool) (stage : Stage) (rounds : List (Round RingState D.State))
        (at b : Standing RingState D.State) → IsSettled racing_split (D.device setup) races stage rounds at b wanted
        → (D.device setup).takes at.state ≡ true → SeesNoHead at.sightings b.sightings at.ring }
    ensures packed { (setup : D.Setup) (races wanted : Bool) (stage : Stage) (rounds : List (Round RingState D.State))
        (at b : Standing RingState D.State) → IsSettled racing_packed (D.device setup) races stage rounds at b wanted
        → (D.device setup).takes at.state ≡ true → at.ring.ahead < at.ring.setup.size → SeesNoList at.sightings b.sightings at.ring }
{}

/// A driver that leaves a chain alone while it is taken: its head and its descriptors, and its readable bytes while the device
/// reads them. Then the memory as it was seen once the chain was taken offers it, and its device did what it does with that chain
/// in that memory, whatever else the guest writes meanwhile. So each chain of a service is served as that of a guest which stands
/// still.
pub fn a_chain_that_is_left_alone_is_served_at_one_moment<B, D: ChainHandler<B>>()
    ensures split { (setup : D.Setup) (races : Bool) (stage : Stage) (most : ℕ) (ending : Ending) (wanted : Bool)
        (a b : Standing RingState D.State)
        (service : IsRacingService racing_split (D.device setup) races stage most a b ending wanted)
        → All (IsLeftAlone racing_split (D.device setup) races LeavesSplit)
        (chains_of racing_split (D.device setup) races stage most a b ending wanted service)
        → All (IsServedAtOnce racing_split (D.device setup) races)
        (chains_of racing_split (D.device setup) races stage most a b ending wanted service) }
    ensures packed { (setup : D.Setup) (races : Bool) (stage : Stage) (most : ℕ) (ending : Ending) (wanted : Bool)
        (a b : Standing RingState D.State)
        (service : IsRacingService racing_packed (D.device setup) races stage most a b ending wanted)
        → All (IsLeftAlone racing_packed (D.device setup) races LeavesPacked)
        (chains_of racing_packed (D.device setup) races stage most a b ending wanted service)
        → All (IsServedAtOnce racing_packed (D.device setup) races)
        (chains_of racing_packed (D.device setup) races stage most a b ending wanted service) }
{}

/// The same of a chain that its device leaves on offer: by the bytes of that memory it has the reason for which it leaves it.
pub fn a_chain_that_is_left_alone_is_left_at_one_moment<B, D: ChainHandler<B>>()
    ensures split { (setup : D.Setup) (backend : B) (races : Bool) (buffers : List Buffer) (entry : Entry) (why : D.Refusal)
        (a b : Standing RingState D.State)
        (left : LeavesOne racing_split (D.device setup) races (D.Refuses setup backend) buffers entry why a b)
        → LeavesAlone racing_split (D.device setup) races (D.Refuses setup backend) LeavesSplit buffers entry why a b left
        → IsLeftAtOnce racing_split (D.device setup) races (D.Refuses setup backend) (memory left.taken) a.ring a.state
        buffers entry why }
    ensures packed { (setup : D.Setup) (backend : B) (races : Bool) (buffers : List Buffer) (entry : Entry) (why : D.Refusal)
        (a b : Standing RingState D.State)
        (left : LeavesOne racing_packed (D.device setup) races (D.Refuses setup backend) buffers entry why a b)
        → LeavesAlone racing_packed (D.device setup) races (D.Refuses setup backend) LeavesPacked buffers entry why a b left
        → IsLeftAtOnce racing_packed (D.device setup) races (D.Refuses setup backend) (memory left.taken) a.ring a.state
        buffers entry why }
{}

/// A driver leaves a chain alone that is seen the same at each access while it is taken: the head and the chain's own descriptors,
/// from the access on that its head was read at, or that saw its first descriptor available. Whatever stands elsewhere is of no
/// account. So a guest that stands still leaves each chain alone, and one that publishes a list while it is taken (`published`).
pub fn what_is_seen_the_same_is_left_alone()
    ensures split { (old new : Sightings) (ring : RingState) (buffers : List Buffer) (entry : Entry)
        (taken : split.IsOffered old new ring buffers entry)
        → KeepsSplit taken.head_seen.place new ring (taken.walked.resolves.reached.front ++ taken.walked.last ∷ [])
        → LeavesSplit old new ring buffers entry taken }
    ensures packed { (old new : Sightings) (ring : RingState) (buffers : List Buffer) (entry : Entry)
        (taken : packed.IsOffered old new ring buffers entry)
        → KeepsPacked taken.read.first_seen.place new ring (taken.offers.list.reached.front ++ taken.offers.last ∷ [])
        → LeavesPacked old new ring buffers entry taken }
    ensures published { (old new : Sightings) (ring : RingState) (buffers : List Buffer) (entry : Entry)
        (taken : packed.IsOffered old new ring buffers entry)
        → packed.IsPublished old new ring.setup.desc ring.setup.size (head_of ring) (next_wrap ring) taken.offers.count
        → LeavesPacked old new ring buffers entry taken }
{}
