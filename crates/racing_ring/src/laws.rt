//! Laws of the definitions. The bodies are empty: each contract is a theorem.

ghost use Rattle.std.specs.Prelude.{◌≡◌, ◌^◌, ◌<◌, ◌↔◌, ℕ, Bool, List, IsTrue, false};
ghost use Rattle.chain.specs.declared.segment.Buffer.{Buffer};
ghost use Rattle.chain.specs.declared.fault.Fault.{Fault};
ghost use Rattle.chain.specs.declared.state.RingState.{RingState};
ghost use Rattle.chain.specs.Service.{Entry};
ghost use Rattle.split_ring.specs.Ring.{LiesIn, head_of, table_of, with_used};
ghost use Rattle.split_ring.specs.Kind.{split_kind};
ghost use Rattle.shared_memory.specs.Sightings.{Sightings, Loads, memory};
ghost use Rattle.racing_ring.specs.Table.{AreOne};
ghost use Rattle.racing_ring.specs.Split.{IsClosed, IsFaulty, IsGiven, IsOffered};

/// A guest that stands still is served as `split_kind` says of its memory: what is taken, the fault, the memory with the
/// used entry, the memory with the closing writes, and whether a notification is wanted.
#[tactic(auto, using(crate::proofs::Leaving::offered_still, crate::proofs::Leaving::faulty_still))]
pub fn a_guest_that_stands_still_is_served_as_it_is()
    ensures offered { (old new : Sightings) (ring : RingState) (buffers : List Buffer) (entry : Entry) → Loads false old new
        → IsOffered old new ring buffers entry → split_kind.Offers (memory old) ring buffers entry }
    ensures fault { (old new : Sightings) (ring : RingState) (fault : Fault) → Loads false old new
        → IsFaulty old new ring fault → split_kind.HasFault (memory old) ring fault }
    ensures given { (old new : Sightings) (ring : RingState) (head len : ℕ) → LiesIn (memory old) ring.setup
        → 0 < ring.setup.size → head < 2 ^ 32 → IsGiven false old new ring head len
        → memory new ≡ with_used (memory old) ring head len }
    ensures closed { (old new : Sightings) (ring : RingState) (wanted : Bool) → IsClosed false old new ring wanted
        → memory new ≡ split_kind.closed (memory old) ring }
    ensures wants { (old new : Sightings) (ring : RingState) (wanted : Bool) → IsClosed false old new ring wanted
        → IsTrue wanted ↔ split_kind.Wants (memory new) ring }
{}

/// Of a guest that leaves a chain alone while it is taken: the head and the descriptors stand as they were read when the
/// memory is seen last. Then the chain is the one that the memory offers at that moment, whatever else the guest writes.
#[tactic(auto, using(crate::proofs::Leaving::offered_at))]
pub fn a_chain_that_is_left_alone_is_offered_at_one_moment()
    ensures { (old new : Sightings) (ring : RingState) (buffers : List Buffer) (entry : Entry)
        (taken : IsOffered old new ring buffers entry) → head_of taken.head_in ring ≡ head_of (memory new) ring
        → AreOne ring.setup.size taken.walked.table (table_of (memory new) ring)
        → split_kind.Offers (memory new) ring buffers entry }
{}
