//! Laws of the definitions. The bodies are empty: each contract is a theorem.

ghost use Rattle.std.specs.Prelude.{◌≡◌, ◌↔◌, ℕ, Bool, List, IsTrue, false, true};
ghost use Rattle.chain.specs.declared.segment.Buffer.{Buffer};
ghost use Rattle.chain.specs.declared.fault.Fault.{Fault};
ghost use Rattle.chain.specs.declared.state.RingState.{RingState};
ghost use Rattle.chain.specs.Service.{Entry};
ghost use Rattle.packed_ring.specs.Ring.{head_of, is_available, next_wrap, with_used};
ghost use Rattle.packed_ring.specs.Kind.{packed_kind};
ghost use Rattle.shared_memory.specs.Sightings.{Sightings, Loads, memory};
ghost use Rattle.racing_ring.specs.Packed.{AreLeftAlone, IsClosed, IsFaulty, IsGiven, IsOffered, IsPublished, IsTold};

/// The packed ring of a guest that stands still is served as `packed_kind` says of its memory: whether a list is on offer,
/// what is taken, the fault, the memory with the used descriptor, the memory with the closing write, and whether a
/// notification is wanted.
pub fn a_packed_ring_that_stands_still_is_served_as_it_is()
    ensures told { (old new : Sightings) (ring : RingState) (offers : Bool) → Loads false old new
        → IsTold old new ring offers → offers ≡ packed_kind.offers (memory old) ring }
    ensures offered { (old new : Sightings) (ring : RingState) (buffers : List Buffer) (entry : Entry) → Loads false old new
        → IsOffered old new ring buffers entry → packed_kind.Offers (memory old) ring buffers entry }
    ensures fault { (old new : Sightings) (ring : RingState) (fault : Fault) → Loads false old new
        → IsFaulty old new ring fault → packed_kind.HasFault (memory old) ring fault }
    ensures given { (old new : Sightings) (ring : RingState) (id len : ℕ) (wrote : Bool)
        → IsGiven false old new ring id len wrote → memory new ≡ with_used (memory old) ring id len wrote }
    ensures closed { (old new : Sightings) (ring : RingState) (wanted : Bool) → IsClosed false old new ring wanted
        → memory new ≡ packed_kind.closed (memory old) ring }
    ensures wants { (old new : Sightings) (ring : RingState) (wanted : Bool) → IsClosed false old new ring wanted
        → IsTrue wanted ↔ packed_kind.Wants (memory new) ring }
{}

/// Of a guest that leaves a list alone while it is taken: the descriptors stand as they were read when the memory is seen
/// last. Then the list is available at that moment, and is the one that the memory offers, whatever else the guest writes.
pub fn a_list_that_is_left_alone_is_offered_at_one_moment()
    ensures available { (old new : Sightings) (ring : RingState) (buffers : List Buffer) (entry : Entry)
        (taken : IsOffered old new ring buffers entry)
        → AreLeftAlone taken.source (memory new) ring.setup.desc ring.setup.size
        → is_available (memory new) ring ≡ true }
    ensures offered { (old new : Sightings) (ring : RingState) (buffers : List Buffer) (entry : Entry)
        (taken : IsOffered old new ring buffers entry)
        → AreLeftAlone taken.source (memory new) ring.setup.desc ring.setup.size
        → packed_kind.Offers (memory new) ring buffers entry }
{}

/// Of a guest that publishes a list while it is taken: the flags of its first descriptor last (2.8.6), at whatever access.
/// Then the list is the one that stands from that moment on. So no address from before it is taken, and no other part.
pub fn a_list_that_is_published_meanwhile_is_taken_as_it_stands()
    ensures available { (old new : Sightings) (ring : RingState) (buffers : List Buffer) (entry : Entry)
        (taken : IsOffered old new ring buffers entry)
        → IsPublished old new ring.setup.desc ring.setup.size (head_of ring) (next_wrap ring) taken.offers.count
        → is_available (memory new) ring ≡ true }
    ensures offered { (old new : Sightings) (ring : RingState) (buffers : List Buffer) (entry : Entry)
        (taken : IsOffered old new ring buffers entry)
        → IsPublished old new ring.setup.desc ring.setup.size (head_of ring) (next_wrap ring) taken.offers.count
        → packed_kind.Offers (memory new) ring buffers entry }
{}
