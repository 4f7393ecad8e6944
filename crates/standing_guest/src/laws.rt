//! Laws of the definitions. The bodies are empty: each contract is a theorem.

ghost use Rattle.std.specs.Prelude.{◌≡◌, ℕ, Bool, false, true, List, [], Option, Some};
ghost use Rattle.guest_memory.specs.declared.spec.RegionSpec.{RegionSpec};
ghost use Rattle.guest_memory.specs.Faults.{zeroed_regions};
ghost use Rattle.guest_memory.specs.Memory.{Memory};
ghost use Rattle.chain.specs.declared.budget.Progress.{Progress};
ghost use Rattle.shared_memory.specs.Sightings.{Sightings, memory};
ghost use Rattle.block_device.specs.declared.operation.HostEvent.{HostEvent};
ghost use Rattle.console_device.specs.Input.{fitting};
ghost use Rattle.racing_hosted_disk.specs.declared.look.LookLimits.{LookLimits};
ghost use Rattle.racing_hosted_disk.specs.Told.{has_effect};
ghost use Rattle.racing_guest.specs.declared.reply.GuestQueue.{GuestQueue};
ghost use Rattle.racing_guest.specs.declared.reply.GuestWindow.{GuestWindow};
ghost use Rattle.racing_guest.specs.declared.reply.Reply.{Reply as GuestReply};
ghost use Rattle.racing_guest.specs.declared.reply.Reply.TheVariants as answer;
ghost use Rattle.racing_guest.specs.declared.spec.GuestSpec.{GuestSpec};
ghost use Rattle.racing_guest.specs.Console.{with_size};
ghost use Rattle.racing_guest.specs.Guest.{IsServedAgain, IsSoundGuest, IsTold, RacingGuest, TakesInput, WritesGuest, fresh_guest, register, write_waits};
ghost use Rattle.board.specs.declared.event.EventKind.{EventKind};
ghost use Rattle.board.specs.declared.event.SlotWindow.{SlotWindow};
ghost use Rattle.board.specs.declared.reply.Reply.{Reply};
ghost use Rattle.board.specs.Slot.{opened, state_of};
ghost use Rattle.standing_guest.specs.Event.{BeginsRefused, BeginsWith, IsEvent, notification};
ghost use Rattle.standing_guest.specs.Slot.{IsOwnDisk, slot_of, slot_spec, slot_window};

use std::alloc::Allocator;

/// A new guest is a new slot of a board whose disk its host serves, and each read of a window is that event.
pub fn a_new_guest_is_a_new_slot<A: Allocator>()
    ensures new { (bytes : List ℕ) (regions : List RegionSpec) (spec : GuestSpec) →
        slot_of (zeroed_regions regions) (fresh_guest spec) ≡ state_of bytes (opened (slot_spec regions spec)) }
    ensures disk { (spec : GuestSpec) → IsOwnDisk (fresh_guest spec) }
    ensures read { (m : Memory) (guest : RacingGuest) (window : GuestWindow) (offset width : ℕ)
        → IsEvent {A = A} (slot_of m guest) (EventKind.Read (slot_window window) offset width) (slot_of m guest)
        (Reply.Value (register window offset width guest)) [] }
{}

/// Each call leaves a guest's disk its own, whatever the guest writes meanwhile: so the laws on disks hold of every guest that was
/// made new. What is typed and another size don't touch the block device.
pub fn a_disk_stays_its_own()
    ensures write { (races : Bool) (limits : LookLimits) (old new : Sightings) (limit : Option ℕ) (before after : RacingGuest)
        (out out' : List ℕ) (window : GuestWindow) (offset width value : ℕ) (reply : GuestReply)
        → WritesGuest window offset width value races limits limit old new before after out out' reply → IsOwnDisk before
        → IsOwnDisk after }
    ensures serve_again { (races : Bool) (limits : LookLimits) (old new : Sightings) (limit : Option ℕ)
        (before after : RacingGuest) (out out' : List ℕ) (queue : GuestQueue) (reply : GuestReply)
        → IsServedAgain races limits limit old new before after out out' queue reply → IsOwnDisk before → IsOwnDisk after }
    ensures told { (races : Bool) (limits : LookLimits) (old new : Sightings) (said : HostEvent) (before after : RacingGuest)
        (so_far : Progress) → IsTold said races limits old new before after so_far → IsOwnDisk before → IsOwnDisk after }
{}

/// The console of a guest that stands still, where a call is done: a write, what is typed, and another size are each one event of
/// the slot. After the first two the queue that was served is looked at again where the device wrote over it (`BeginsWith`).
pub fn a_console_that_stands_still_is_a_slots<A: Allocator>()
    ensures write { (offset width value : ℕ) (limits : LookLimits) (limit : Option ℕ) (old new : Sightings)
        (before after : RacingGuest) (out out' : List ℕ) → IsSoundGuest (memory old) before
        → WritesGuest GuestWindow.Console offset width value false limits limit old new before after out out' answer.Done
        → BeginsWith {A = A} (slot_of (memory old) before) (EventKind.Write SlotWindow.Console offset width value) Reply.Done
        (slot_of (memory new) after) out out' }
    ensures no_room { (offset width value : ℕ) (limits : LookLimits) (limit : ℕ) (old new : Sightings)
        (before after : RacingGuest) (out out' : List ℕ) → IsSoundGuest (memory old) before
        → WritesGuest GuestWindow.Console offset width value false limits (Some limit) old new before after out out'
        answer.NoMemory
        → BeginsRefused {A = A} limit (slot_of (memory old) before) (EventKind.Write SlotWindow.Console offset width value)
        (slot_of (memory new) after) out out' }
    ensures input { (bytes : List ℕ) (limits : LookLimits) (old new : Sightings) (before after : RacingGuest)
        → IsSoundGuest (memory old) before → TakesInput bytes false limits old new before after Progress.Done
        → BeginsWith {A = A} (slot_of (memory old) before) (EventKind.Input bytes)
        (Reply.Took (fitting before.console.device.pending bytes)) (slot_of (memory new) after)
        [] [] }
    ensures resize { (m : Memory) (cols rows : ℕ) (before after : RacingGuest)
        → after ≡ record before { console = with_size cols rows before.console }
        → IsEvent {A = A} (slot_of m before) (EventKind.Resize cols rows) (slot_of m after) Reply.Done [] }
{}

/// The disk of a guest that stands still, where a call is done: a write to its window begins with that event of the slot, whatever
/// requests are found, and so does what the host says.
pub fn a_disk_that_stands_still_is_a_slots<A: Allocator>()
    ensures waits { (m : Memory) (guest : RacingGuest) (offset width value : ℕ) → write_waits GuestWindow.Block offset guest ≡ true
        → IsEvent {A = A} (slot_of m guest) (EventKind.Write SlotWindow.Block offset width value) (slot_of m guest) Reply.Busy [] }
    ensures write { (offset width value : ℕ) (limits : LookLimits) (limit : Option ℕ) (old new : Sightings)
        (before after : RacingGuest) (out out' : List ℕ) → IsSoundGuest (memory old) before → IsOwnDisk before
        → write_waits GuestWindow.Block offset before ≡ false
        → WritesGuest GuestWindow.Block offset width value false limits limit old new before after out out' answer.Done
        → BeginsWith {A = A} (slot_of (memory old) before) (EventKind.Write SlotWindow.Block offset width value) Reply.Done
        (slot_of (memory new) after) out out' }
    ensures nothing { (said : HostEvent) (m : Memory) (guest : RacingGuest) → has_effect said guest.block.disk ≡ false
        → IsEvent {A = A} (slot_of m guest) (EventKind.Host said) (slot_of m guest) Reply.Idle [] }
    ensures told { (said : HostEvent) (limits : LookLimits) (old new : Sightings) (before after : RacingGuest)
        → IsSoundGuest (memory old) before → IsOwnDisk before → has_effect said before.block.disk ≡ true
        → IsTold said false limits old new before after Progress.Done
        → BeginsWith {A = A} (slot_of (memory old) before) (EventKind.Host said) Reply.Done (slot_of (memory new) after) [] [] }
{}

/// A queue of a guest that stands still which is served again, where the call is done: the call begins with a notification of that
/// queue.
pub fn a_queue_that_is_served_again_is_notified<A: Allocator>()
    ensures { (queue : GuestQueue) (limits : LookLimits) (limit : Option ℕ) (old new : Sightings) (before after : RacingGuest)
        (out out' : List ℕ) → IsSoundGuest (memory old) before → IsOwnDisk before
        → IsServedAgain false limits limit old new before after out out' queue answer.Done
        → BeginsWith {A = A} (slot_of (memory old) before) (notification queue) Reply.Done (slot_of (memory new) after) out out' }
{}
