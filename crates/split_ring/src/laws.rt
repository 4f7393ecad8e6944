//! Laws of the definitions. The bodies are empty: each contract is a theorem.

ghost use Rattle.std.specs.Prelude.{◌≡◌, ℕ, ◌<◌, ◌↔◌, ◌⊎◌};
ghost use Rattle.chain.specs.Setup.{launched, shut};
ghost use Rattle.guest_memory.specs.Memory.{Memory};
ghost use Rattle.chain.specs.Service.{Entry, HasAtMostOneChain, HasSomeChain};
ghost use Rattle.suppression.specs.Places.{idx_modulus};
ghost use Rattle.suppression.specs.Sets.{SplitWantsOf};
ghost use Rattle.chain.specs.declared.state.RingState.{RingState};
ghost use Rattle.split_ring.specs.Kind.{first_passed, landed, past, split_kind};
ghost use Rattle.split_ring.specs.Passing.{HasPassed};
ghost use Rattle.split_ring.specs.Ring.{next_taken};

/// A split ring has one chain or one fault at each place: at most one chain, at most one fault, not both, and
/// one of the two.
#[tactic(auto, using(crate::proofs::Outcomes::has_at_most_one_chain, crate::proofs::Outcomes::has_some_chain))]
pub fn one_chain_or_fault_at_a_place()
    ensures at_most_one { HasAtMostOneChain split_kind }
    ensures some { HasSomeChain split_kind }
{}

/// What a service has passed are the places of its chains: behind one more chain it has the same first place, and
/// has passed that chain's place beside those before.
#[tactic(auto, using(crate::proofs::Passing::same_first))]
pub fn a_chain_passes_its_place()
    ensures first { (ring : RingState) → ring.used_count < idx_modulus → first_passed (past ring) ≡ first_passed ring }
    ensures passed { (ring : RingState) (place : ℕ) → ring.place < idx_modulus → ring.used_count < idx_modulus
        → HasPassed (past ring) place ↔ (HasPassed ring place ⊎ (place ≡ ring.place)) }
{}

/// Whether a notification is wanted turns on the set of places that the service has passed, of which there are none
/// as it opens.
#[tactic(auto, using(suppression::proofs::Going::none_passed, suppression::proofs::Sets::split_wants_of))]
pub fn a_notification_is_wanted_of_the_places_passed()
    ensures none_yet { (m : Memory) (ring : RingState) (place : ℕ) → ¬ HasPassed (split_kind.opened m ring) place }
    ensures wanted_of { (m : Memory) (ring : RingState) → split_kind.Wants m ring
        ↔ SplitWantsOf m ring.setup.driver ring.setup.size ring.setup.event_idx (HasPassed ring) }
{}

/// A chain that stays in flight and lands later leaves the same ring as one that is served at once (`as_served`). While
/// it is in flight the next used entry stays where it was (`waits`), and when it lands the next chain does (`next`). The
/// ring doesn't depend on which of the chains in flight lands (`either`).
#[tactic(auto, using(crate::proofs::Landing::as_served, crate::proofs::Landing::next_stays))]
pub fn chains_in_flight_land_in_any_order()
    ensures as_served { (ring : RingState) → shut (landed (launched 1 ring)) ≡ shut (past ring) }
    ensures waits { (ring : RingState) → (launched 1 ring).place ≡ ring.place }
    ensures next { (ring : RingState) → 0 < ring.ahead → next_taken (landed ring) ≡ next_taken ring }
    ensures either { (ring : RingState) (one other : Entry) → split_kind.landed ring one ≡ split_kind.landed ring other }
{}
