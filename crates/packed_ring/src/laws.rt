//! Laws of the definitions. The bodies are empty: each contract is a theorem.

ghost use Rattle.std.specs.Prelude.{◌≡◌, ℕ, ◌+◌, ◌*◌, ◌<◌, ◌≤◌, ◌↔◌, ◌⊎◌};
ghost use Rattle.chain.specs.Service.{HasAtMostOneChain, HasSomeChain};
ghost use Rattle.chain.specs.Setup.{launched, shut};
ghost use Rattle.guest_memory.specs.Memory.{Memory};
ghost use Rattle.suppression.specs.Places.{Passed};
ghost use Rattle.suppression.specs.Sets.{PackedWantsOf};
ghost use Rattle.chain.specs.declared.state.RingState.{RingState};
ghost use Rattle.packed_ring.specs.Kind.{HasPassed, first_passed, landed, packed_kind, past};
ghost use Rattle.packed_ring.specs.Ring.{next_taken};

/// A packed ring has one chain or one fault at each place: at most one chain, at most one fault, not both, and
/// one of the two.
#[tactic(auto, using(crate::proofs::Outcomes::has_at_most_one_chain, crate::proofs::Outcomes::has_some_chain))]
pub fn one_chain_or_fault_at_a_place()
    ensures at_most_one { HasAtMostOneChain packed_kind }
    ensures some { HasSomeChain packed_kind }
{}

/// What a service has passed are the places of its lists: behind one more list it has the same first place, and
/// has passed the places of that list beside those before.
#[tactic(auto, using(crate::proofs::Passing::same_first))]
pub fn a_list_passes_its_places()
    ensures first { (ring : RingState) (length : ℕ) → ring.used_count + length ≤ 2 * ring.setup.size
        → first_passed (past ring length) ≡ first_passed ring }
    ensures passed { (ring : RingState) (length place : ℕ) → ring.place < 2 * ring.setup.size → ring.used_count + length ≤ 2 * ring.setup.size
        → HasPassed (past ring length) place ↔ (HasPassed ring place ⊎ Passed (2 * ring.setup.size) ring.place length place) }
{}

/// Whether a notification is wanted turns on the set of places that the service has passed, of which there are none
/// as it opens.
#[tactic(auto, using(suppression::proofs::Going::none_passed, suppression::proofs::Sets::packed_wants_of))]
pub fn a_notification_is_wanted_of_the_places_passed()
    ensures none_yet { (m : Memory) (ring : RingState) (place : ℕ) → ¬ HasPassed (packed_kind.opened m ring) place }
    ensures wanted_of { (m : Memory) (ring : RingState) → packed_kind.Wants m ring
        ↔ PackedWantsOf m ring.setup.driver ring.setup.size ring.setup.event_idx (HasPassed ring) }
{}

/// A list that stays in flight and lands later leaves the same ring as one that is served at once (`as_served`). While
/// it is in flight the next used entry stays where it was (`waits`), and when it lands the next list does (`next`).
/// Two lists in flight may land in either order (`either`): each passes as many places as it has descriptors.
#[tactic(auto, using(crate::proofs::Landing::as_served, crate::proofs::Landing::next_stays, crate::proofs::Landing::either))]
pub fn lists_in_flight_land_in_any_order()
    ensures as_served { (ring : RingState) (length : ℕ) → shut (landed (launched length ring) length) ≡ shut (past ring length) }
    ensures waits { (ring : RingState) (length : ℕ) → (launched length ring).place ≡ ring.place }
    ensures next { (ring : RingState) (length : ℕ) → length ≤ ring.ahead → next_taken (landed ring length) ≡ next_taken ring }
    ensures either { (ring : RingState) (one other : ℕ) →
        shut (landed (landed ring one) other) ≡ shut (landed (landed ring other) one) }
{}
