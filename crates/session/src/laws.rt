//! What holds of every session, by itself. The bodies are empty: each contract is a theorem.

ghost use Rattle.std.specs.Prelude.{◌≡◌, ◌/◌, ℕ, Option, List, [], ◌∷◌, length, Some, true, false};
ghost use Rattle.std.specs.List.{slice_get};
ghost use Rattle.chain.specs.declared.budget.Budget.{Budget};
ghost use Rattle.guest_memory.specs.Memory.{Inside, Memory, SameRange, stored};
ghost use Rattle.board.specs.declared.event.Event.{Event};
ghost use Rattle.board.specs.declared.event.EventKind.{EventKind};
ghost use Rattle.board.specs.declared.pause.Pause.{Pause};
ghost use Rattle.board.specs.declared.reply.Reply.{Reply};
ghost use Rattle.block_device.specs.Flights.{InFlight};
ghost use Rattle.board.specs.Fault.{IsAccepted};
ghost use Rattle.board.specs.declared.slot_disk.SlotDisk.{SlotDisk};
ghost use Rattle.board.specs.HostedDisks.{LeavesTagOf};
ghost use Rattle.board.specs.Pausing.{HasLimit};
ghost use Rattle.board.specs.Slot.{BoardSlot, SlotState, state_of};
ghost use Rattle.board.specs.Untouched.{touches_memory};
ghost use Rattle.board.specs.Waiting.{may_wait};
ghost use Rattle.board.specs.Within.{Seat};
ghost use Rattle.session.specs.Line.{IsIdle};
ghost use Rattle.session.specs.Pacing.{Call, Handle, IfEvent};
ghost use Rattle.session.specs.declared.response.Response.{Response};
ghost use Rattle.session.specs.declared.guest.GuestSpec.{GuestSpec};
ghost use Rattle.session.specs.Alone.{IsSeatCourse, IsSeatedAlone, OwnCall, SeeAlike, at_front, new_session_alone, own_askings, part_of_image};
ghost use Rattle.session.specs.Operations.{flight_at};
ghost use Rattle.session.specs.Course.{SessionStep, HadRoom, IsCalled, IsCourse, NeverPauses, RunsAlone, paced_world_of};
ghost use Rattle.session.specs.Paced.{IsPacedAlone, IsPacedCourse, PacedSeat, SeePacedAlike};
ghost use Rattle.session.specs.Pausing.{IsCall, IsEventCall};
ghost use Rattle.session.specs.ImageDisks.{AreImageDisks};
ghost use Rattle.session.specs.Refusing.{AreDevices, AreOutlets};
ghost use Rattle.session.specs.Steps.{Answer, Asking};
ghost use Rattle.session.specs.Session.{IsKept, IsStep, SessionState, limit_of, new_session, output_of, slots_of, with_memory, with_slot_bytes, world_of};

use std::alloc::Allocator;

/// A guest whose own services never pause sees exactly what it would see in a session of its own over its part of the
/// image, whatever other guests do.
///
/// It may be refused for want of room. Of a guest whose services pause, `a_guest_that_pauses_is_alone` says it, for one budget.
pub fn each_guest_is_alone<A: Allocator>()
    ensures alone { (g : ℕ) (guests : List GuestSpec) (guest : GuestSpec) (image : List ℕ)
        (budget budget' : Budget) (steps more : List (SessionStep A)) (new last : SessionState) → slice_get guests g ≡ Some guest →
        IsCourse (new_session guests image budget) steps new →
        IsCourse (new_session_alone guest image budget') more last → NeverPauses g steps → NeverPauses 0 more →
        own_askings 0 more ≡ own_askings g steps → SeeAlike g steps new 0 more last }

    // so without a budget every guest
    ensures without { (g : ℕ) (guests : List GuestSpec) (guest : GuestSpec) (image : List ℕ)
        (budget budget' : Budget) (steps more : List (SessionStep A)) (new last : SessionState) → slice_get guests g ≡ Some guest →
        IsCourse (new_session guests image budget) steps new →
        IsCourse (new_session_alone guest image budget') more last → ¬ HasLimit budget → ¬ HasLimit budget' →
        own_askings 0 more ≡ own_askings g steps → SeeAlike g steps new 0 more last }

    // there is such a session: it is never refused, but for want of memory
    ensures there { (g cache : ℕ) (guests : List GuestSpec) (guest : GuestSpec) (image : List ℕ) →
        slice_get guests g ≡ Some guest → AreOutlets guests →
        IsAccepted (length image / 512) (slots_of guests) cache →
        AreOutlets (at_front guest ∷ []) ×
        IsAccepted (length (part_of_image guest image) / 512) (slots_of (at_front guest ∷ [])) cache }
    ensures devices { (g : ℕ) (guests : List GuestSpec) (guest : GuestSpec) → slice_get guests g ≡ Some guest →
        AreDevices guests → AreDevices (at_front guest ∷ []) }
    ensures image_disks { (g : ℕ) (guests : List GuestSpec) (guest : GuestSpec) → slice_get guests g ≡ Some guest →
        AreImageDisks guests → AreImageDisks (at_front guest ∷ []) }

    // and from whatever state on: a guest of one session and one of another, as the same slot with the same output
    ensures alike { (g h : ℕ) (old new other last : SessionState) (steps more : List (SessionStep A)) (state : SlotState) →
        IsCourse old steps new → IsCourse other more last → NeverPauses g steps → NeverPauses h more →
        IsIdle g (paced_world_of old) → IsIdle h (paced_world_of other) →
        slice_get (world_of old).slots g ≡ Some state → slice_get (world_of other).slots h ≡ Some state →
        output_of h other ≡ output_of g old → limit_of h other ≡ limit_of g old →
        own_askings h more ≡ own_askings g steps → SeeAlike g steps new h more last }
{}

/// Any guest sees exactly what it would see in a session of its own over its part of the image with the same budget,
/// whatever other guests do, however its services pause, and whatever finds no room.
pub fn a_guest_that_pauses_is_alone<A: Allocator>()
    ensures alone { (g : ℕ) (guests : List GuestSpec) (guest : GuestSpec) (image : List ℕ) (budget : Budget)
        (steps more : List (SessionStep A)) (new last : SessionState) → slice_get guests g ≡ Some guest →
        IsCourse (new_session guests image budget) steps new →
        IsCourse (new_session_alone guest image budget) more last →
        own_askings 0 more ≡ own_askings g steps → SeePacedAlike g steps new 0 more last }

    // what it sees is what the one-slot machine with its outlet and this budget gives
    ensures runs { (g : ℕ) (old new : SessionState) (steps : List (SessionStep A)) (state : SlotState)
        (paused : Option Pause) → IsCourse old steps new → slice_get (world_of old).slots g ≡ Some state →
        slice_get old.paused g ≡ Some paused → IsPacedAlone g state paused old steps new }

    // which has one answer to each call
    ensures once { (budget : Budget) (limit : ℕ) (old one other : PacedSeat) (askings : List (Asking (OwnCall A)))
        (answers answers' : List (Answer (Response A))) →
        IsPacedCourse budget limit old askings answers one → IsPacedCourse budget limit old askings answers' other →
        (answers ≡ answers') × (one ≡ other) }

    // and from whatever state on: a guest of one session and one of another, as the same slot with the same output, of
    // which the same is paused
    ensures alike { (g h : ℕ) (old new other last : SessionState) (steps more : List (SessionStep A)) (state : SlotState)
        (paused : Option Pause) → IsCourse old steps new → IsCourse other more last →
        slice_get (world_of old).slots g ≡ Some state → slice_get (world_of other).slots h ≡ Some state →
        slice_get old.paused g ≡ Some paused → slice_get other.paused h ≡ Some paused →
        output_of h other ≡ output_of g old → limit_of h other ≡ limit_of g old → other.budget ≡ old.budget →
        own_askings h more ≡ own_askings g steps → SeePacedAlike g steps new h more last }
{}

/// What a guest sees whose services never pause is what the one-slot machine with its outlet gives, which has one answer to
/// each call.
pub fn the_outlet_decides<A: Allocator>()
    ensures runs { (g : ℕ) (old new : SessionState) (steps : List (SessionStep A)) (state : SlotState) →
        IsCourse old steps new → NeverPauses g steps → IsIdle g (paced_world_of old) →
        slice_get (world_of old).slots g ≡ Some state → IsSeatedAlone g state old steps new }

    // so without a budget of every guest
    ensures without { (g : ℕ) (old new : SessionState) (steps : List (SessionStep A)) (state : SlotState) →
        IsCourse old steps new → ¬ HasLimit old.budget → IsIdle g (paced_world_of old) →
        slice_get (world_of old).slots g ≡ Some state → IsSeatedAlone g state old steps new }

    // and there is one answer
    ensures once { (limit : ℕ) (old one other : Seat) (askings : List (Asking (OwnCall A)))
        (answers answers' : List (Answer (Response A))) →
        IsSeatCourse limit old askings answers one → IsSeatCourse limit old askings answers' other →
        (answers ≡ answers') × (one ≡ other) }
{}

/// A guest that is never refused for want of room gets the replies and puts out the bytes that it would if it were alone
/// and never paused, whatever other guests do between the pieces of its services.
///
/// An event counts where it begins, and its reply where it ends.
pub fn a_guest_with_room_runs_alone<A: Allocator>()
    ensures within { (g : ℕ) (old new : SessionState) (steps : List (SessionStep A)) (state : SlotState) →
        IsCourse old steps new → HadRoom g steps →
        IsIdle g (paced_world_of old) → IsIdle g (paced_world_of new) →
        slice_get (world_of old).slots g ≡ Some state → RunsAlone g state old steps new }

    // so without a budget, where nothing is paused at the end
    ensures without { (g : ℕ) (old new : SessionState) (steps : List (SessionStep A)) (state : SlotState) →
        IsCourse old steps new → HadRoom g steps → ¬ HasLimit old.budget → IsIdle g (paced_world_of old) →
        slice_get (world_of old).slots g ≡ Some state → RunsAlone g state old steps new }
{}

/// Bytes that were put into a guest's memory in place, between two calls, are the event of their write: so what
/// holds of each guest over courses of events holds of a guest whose CPUs store into memory that is lent to them.
pub fn a_write_in_place_is_an_event<A: Allocator>()
    ensures range { (old : SessionState) (slot addr : ℕ) (found : BoardSlot) (bytes : List ℕ) →
        slice_get old.slots slot ≡ Some found → Inside found.memory addr (length bytes) →
        IsStep {A = A} old (record { slot = slot; what = EventKind.MemWrite addr bytes }) Reply.Done
        (with_memory slot found (stored found.memory addr bytes) old) }

    // and whatever became of those that were lent from an address on is one write
    ensures lent { (old : SessionState) (slot addr : ℕ) (found : BoardSlot) (bytes : List ℕ) →
        slice_get old.slots slot ≡ Some found → Inside found.memory addr (length bytes) →
        IsStep {A = A} old (record { slot = slot; what = EventKind.MemWrite addr bytes }) Reply.Done
        (with_slot_bytes slot addr old bytes) }

    // as of all bytes, where there is one region
    ensures whole { (old : SessionState) (slot : ℕ) (found : BoardSlot) (bytes : List ℕ) →
        slice_get old.slots slot ≡ Some found → found.memory.gaps ≡ [] → length bytes ≡ length found.memory.bytes →
        IsStep {A = A} old (record { slot = slot; what = EventKind.MemWrite found.memory.base bytes }) Reply.Done
        (with_memory slot found (record found.memory { bytes = bytes }) old) }

    // also as a call, where no service of the slot is paused
    ensures call { (old : SessionState) (slot addr : ℕ) (found : BoardSlot) (bytes : List ℕ) →
        slice_get old.slots slot ≡ Some found → Inside found.memory addr (length bytes) →
        IsIdle slot (paced_world_of old) →
        IsCall {A = A} old (Handle (record { slot = slot; what = EventKind.MemWrite addr bytes }))
        (Response.Answered Reply.Done) (with_slot_bytes slot addr old bytes) }
{}

/// What is in flight of a slot's disk stays in flight, whatever is called, for its guest or for others, whatever is paused, and
/// whatever else is completed: only the completion of its tag ends it, and a drop of the disk.
pub fn a_flight_outlasts_own_events<A: Allocator>()
    ensures { (old new : SessionState) (call : Call A) (response : Response A) (slot : ℕ) (disk : SlotDisk) (tag : ℕ)
        (here : InFlight) → IfEvent call (λ event. event.slot ≡ slot → LeavesTagOf disk tag event.what) →
        IsCalled old call response new →
        flight_at slot disk tag old.slots ≡ Some here → flight_at slot disk tag new.slots ≡ Some here }
{}

/// An event that waits for what is in flight changes nothing, and only writes that may stop a disk's queue and a restore may
/// wait; nor does what the host says where there is nothing to do.
pub fn what_waits_changes_nothing<A: Allocator>()
    ensures busy { (old new : SessionState) (event : Event A) →
        IsStep old event Reply.Busy new → IsKept old new × (may_wait event.what ≡ true) }
    ensures idle { (old new : SessionState) (event : Event A) →
        IsStep old event Reply.Idle new → IsKept old new }
{}

/// A call whose event touches no memory needs none: whatever bytes its guest's memory has, they stay, and the same comes
/// of the call (`same`). So a store of the guest's CPUs before the call and one behind it come to the same (`store`). No
/// clause can say that no byte is read whose value decides nothing.
pub fn what_touches_no_memory_needs_none<A: Allocator>()
    ensures same { (old new : SessionState) (slot : ℕ) (what : EventKind A) (response : Response A)
        (found after : BoardSlot) (memory : Memory) →
        slice_get old.slots slot ≡ Some found → slice_get new.slots slot ≡ Some after →
        touches_memory what (state_of old.image found) ≡ false → SameRange found.memory memory →
        IsEventCall old slot what response new →
        (after.memory ≡ found.memory) × IsEventCall (with_memory slot found memory old) slot what response
        (with_memory slot after memory new) }
    ensures store { (old new : SessionState) (slot addr : ℕ) (bytes : List ℕ) (what : EventKind A)
        (response : Response A) (found after : BoardSlot) →
        slice_get old.slots slot ≡ Some found → slice_get new.slots slot ≡ Some after →
        touches_memory what (state_of old.image found) ≡ false → IsEventCall old slot what response new →
        IsEventCall (with_slot_bytes slot addr old bytes) slot what response (with_slot_bytes slot addr new bytes) }
{}
