//! What holds of every line of events, by itself: no board is made or run here.

ghost use Rattle.std.specs.Prelude.{◌⊎◌, ◌≡◌, ◌≢◌, ◌↔◌, ℕ, ◌+◌, ◌<◌, ◌≤◌, List, [], ◌∷◌, ◌++◌, None, Some, true, false, get_or, length, IfSome, IsSome};
ghost use Rattle.std.specs.List.{slice_get};
ghost use Rattle.guest_memory.specs.Memory.{Inside, Memory, SameRange};
ghost use Rattle.chain.specs.declared.budget.Budget.{Budget};
ghost use Rattle.chain.specs.Service.{Served, ServesAll, ServesChain, Site};
ghost use Rattle.guest_memory.specs.Marks.{MarksWrites};
ghost use Rattle.sector_cache.specs.Disk.{Disk};
ghost use Rattle.sector_cache.specs.Sector.{extent_of};
ghost use Rattle.sector_cache.specs.Stop.{BeginsAt, Only};
ghost use Rattle.console_device.specs.Config.{emergency_write};
ghost use Rattle.board.specs.declared.event.SlotWindow.{SlotWindow};
ghost use Rattle.mmio_window.specs.declared.queue.Queue.{Queue};
ghost use Rattle.mmio_window.specs.declared.register.Register.{Register};
ghost use Rattle.mmio_window.specs.declared.stage.Stage.{Stage};
ghost use Rattle.mmio_window.specs.Queue.{queue_kind};
ghost use Rattle.mmio_window.specs.Registers.{register_at};
ghost use Rattle.mmio_window.specs.Window.{queue_at};
ghost use Rattle.block_device.specs.declared.device.BlockDevice.{BlockDevice};
ghost use Rattle.block_device.specs.declared.operation.Verdict.{Verdict};
ghost use Rattle.block_device.specs.declared.request.RequestStatus.{RequestStatus};
ghost use Rattle.block_device.specs.Asking.{status_by, unasked_device};
ghost use Rattle.block_device.specs.Device.{block_device};
ghost use Rattle.block_device.specs.Durable.{IsCommitted, IsUnwritten, KeepsWordIn, Medium};
ghost use Rattle.block_device.specs.Flights.{HostedQueue, InFlight};
ghost use Rattle.block_device.specs.Tags.{is_any};
ghost use Rattle.block_device.specs.Request.{code_of};
ghost use Rattle.board.specs.declared.event.Event.{Event};
ghost use Rattle.board.specs.declared.event.DeviceEvent.{DeviceEvent};
ghost use Rattle.board.specs.declared.event.EventKind.{EventKind};
ghost use Rattle.block_device.specs.declared.operation.HostEvent.{HostEvent};
ghost use Rattle.board.specs.declared.pause.Pause.{Pause};
ghost use Rattle.board.specs.declared.pause.Turn.{Turn};
ghost use Rattle.board.specs.declared.reply.Reply.{Reply};
ghost use Rattle.board.specs.declared.reply.Record.{Record};
ghost use Rattle.board.specs.Durable.{IsLeftAsSeen, TouchesSlot};
ghost use Rattle.board.specs.Extent.{IsApart};
ghost use Rattle.board.specs.Backing.{tags_in};
ghost use Rattle.board.specs.Honest.{IsFlown, IsHonestlyServed};
ghost use Rattle.board.specs.HostedDisks.{LeavesTagOf, held_so, notifies_disk, said_of, saying, waits_for};
ghost use Rattle.board.specs.Units.{DiskUnit, DoesAsSaid, SlotDisk, in_flight_of, on_hold_of, unit_at};
ghost use Rattle.board.specs.Hosting.{IsNoRestore, dropped};
ghost use Rattle.board.specs.Waiting.{may_wait, waits_beside};
ghost use Rattle.device_list.specs.List.{disk_at};
ghost use Rattle.hosted_disk.specs.Told.{has_effect};
ghost use Rattle.board.specs.Image.{Health, Tells, bytes_of};
ghost use Rattle.board.specs.Lasting.{Becomes, HasCourse, IsAnswered, IsCourse, Passage, Standing, behind, behind_all, completions, covers};
ghost use Rattle.board.specs.Line.{Move, IsLine, IsNoted, IsQuiet, IsAlone, IsRun, RunsAsItMay, SeesTheSame, events_of, own_events};
ghost use Rattle.board.specs.Machine.{Gives, IsNext, RunsOnItsOwn};
ghost use Rattle.board.specs.Marking.{IsForDevices};
ghost use Rattle.board.specs.Outcome.{Outcome};
ghost use Rattle.board.specs.declared.saved.RestoreFault.{RestoreFault};
ghost use Rattle.board.specs.Moving.{MovesTo, RanOnBoth};
ghost use Rattle.board.specs.Pausing.{ComesTo};
ghost use Rattle.board.specs.Saved.{IsCauseOf, snapshot_of};
ghost use Rattle.board.specs.Slot.{BoardSlot, SlotState, KeepsBesideDisk, KeepsBesideFurtherDisk, KeepsBesideTransmit, state_of, whole_extent};
ghost use Rattle.board.specs.Untouched.{NeedsNoMemory, touches_memory, world_over};
ghost use Rattle.board.specs.World.{BoardState, World, KeepsBoard, MayGive, Step, identities_of, world_of};
ghost use Rattle.board.specs.Within.{IsNextWithin, PieceWithin, SameTurn, Seat};

use sector_cache::Image;
use std::alloc::Allocator;

/// A piece of a slot's service has one outcome, by what waits of its output, where no call of the image fails: it pauses or
/// is answered, and leaves the same slot and the same output waiting.
pub fn a_piece_of_a_slot_has_one_outcome<A: Allocator>()
    ensures { (limit : ℕ) (pause : Pause) (stage : Stage) (budget : Budget) (old new other : SlotState)
        (before after before2 after2 : Health) (waiting left left2 output output2 : List ℕ) (turn turn2 : Turn A) →
        after.failures ≡ before.failures → after2.failures ≡ before2.failures →
        left ≡ waiting ++ output → left2 ≡ waiting ++ output2 →
        ComesTo pause stage budget old before after new output turn →
        ComesTo pause stage budget old before2 after2 other output2 turn2 →
        PieceWithin limit pause stage budget old new waiting left turn →
        PieceWithin limit pause stage budget old other waiting left2 turn2 →
        SameTurn new other left left2 turn turn2 }
{}

/// In every line of events a guest whose own events met no refusal sees what it would see alone.
pub fn each_guest_is_alone<A: Allocator>()
    ensures { (g : ℕ) (old new : World) (moves : List (Move A)) →
        IsLine old moves new → IsQuiet g old moves → IsAlone g old moves new }
{}

/// Two boards that agree on a guest's state and on its events show it the same, whatever else they
/// hold and whatever else happens on them.
pub fn nothing_else_is_seen<A: Allocator>()
    ensures { (g : ℕ) (state : SlotState) (old new old' new' : World) (moves moves' : List (Move A)) →
        IsLine old moves new → IsLine old' moves' new' →
        IsQuiet g old moves → IsQuiet g old' moves' →
        slice_get old.slots g ≡ Some state → slice_get old'.slots g ≡ Some state →
        own_events g (events_of moves) ≡ own_events g (events_of moves') →
        SeesTheSame g moves new moves' new' }
{}

/// In every line of events it is noted of each guest exactly whether an event of it has met a refusal.
pub fn refusals_are_noted<A: Allocator>()
    ensures { (g : ℕ) (old new : World) (moves : List (Move A)) →
        IsLine old moves new → IsNoted g old moves new }
{}

/// The one-slot machine is deterministic: an event has at most one outcome. That it has one is seen where
/// a board handles it.
pub fn one_outcome<A: Allocator>()
    ensures { (state : SlotState) (what : EventKind A) (one other : Outcome A) →
        IsNext state what one → IsNext state what other → one ≡ other }
{}

/// And so is a guest's whole run: its state and its events decide its records and its last state.
pub fn a_guest_alone_has_one_run<A: Allocator>()
    ensures { (g : ℕ) (state one other : SlotState) (events : List (EventKind A))
        (records records' : List (Record A)) →
        RunsOnItsOwn g state events records one → RunsOnItsOwn g state events records' other →
        (records ≡ records') × (one ≡ other) }
{}

/// No event changes what GET_ID gives: each slot keeps the identity that it was made with.
pub fn identities_stay<A: Allocator>()
    ensures { (old new : World) (moves : List (Move A)) → IsLine old moves new →
        identities_of new.slots ≡ identities_of old.slots }
{}

/// Two runs, the second from where the first ends, are one run over both lists of events.
pub fn two_runs_are_one<A: Allocator>()
    ensures { (old mid new : World) (events more : List (Event A)) (before between after : List (Record A)) →
        IsRun old mid events before between → IsRun mid new more between after →
        IsRun old new (events ++ more) before after }
{}

/// A step is a run of its one event.
pub fn a_step_is_a_run<A: Allocator>()
    ensures { (old new : World) (event : Event A) (written : Record A) (before : List (Record A)) →
        Step old event written new → IsRun old new (event ∷ []) before (before ++ written ∷ []) }
{}

/// A read of memory and an emergency write that found no memory changed nothing that can be seen, and put
/// nothing out.
pub fn want_of_memory_changes_nothing<A: Allocator>()
    ensures read { (old new : World) (slot addr len : ℕ) (written : Record A) →
        Step old (record { slot = slot; what = EventKind.MemRead addr len }) written new →
        written.reply ≡ Reply.NoMemory → KeepsBoard old written new }
    ensures emergency_write { (old new : World) (slot width value : ℕ) (written : Record A) →
        Step old (record {
          slot = slot;
          what = EventKind.Write SlotWindow.Console emergency_write width value;
        }) written new →
        written.reply ≡ Reply.NoMemory → KeepsBoard old written new }
{}

/// A transmit that found no memory, as every event that found none, keeps all of its slot that a transmit doesn't
/// reach, and the image has no part in it.
pub fn want_of_memory_keeps_the_rest<A: Allocator>()
    ensures { (old new : World) (event : Event A) (written : Record A) (before after : SlotState) →
        Step old event written new → written.reply ≡ Reply.NoMemory →
        slice_get old.slots event.slot ≡ Some before → slice_get new.slots event.slot ≡ Some after →
        KeepsBesideTransmit before after × (new.health ≡ old.health) }
{}

/// An event in which calls of the image failed keeps all of its slot that a request of one disk over the image doesn't reach.
/// Each request of its service counts one failure at most, so there are no more of them than requests.
pub fn a_failed_event_keeps_the_rest<A: Allocator>()
    ensures rest { (old new : World) (event : Event A) (written : Record A) (before after : SlotState) →
        Step old event written new → old.health.failures < new.health.failures →
        slice_get old.slots event.slot ≡ Some before → slice_get new.slots event.slot ≡ Some after →
        KeepsBesideDisk before after ⊎ KeepsBesideFurtherDisk before after }
    ensures failures { (device : BlockDevice) (start at : Site Queue Disk) (requests : List (Served Disk)) →
        ServesAll queue_kind (block_device device) start requests at →
        at.state.failures ≤ start.state.failures + length requests }
{}

/// A guest alone with its outlet has one outcome of each event, whether or not it is refused: what it sees and
/// what waits decide it.
pub fn one_outcome_within<A: Allocator>()
    ensures { (limit : ℕ) (old one other : Seat) (what : EventKind A) (reply reply' : Reply A) →
        IsNextWithin limit old what reply one → IsNextWithin limit old what reply' other →
        (reply ≡ reply') × (one ≡ other) }
{}

/// A restore is refused for one cause: the bytes' first fault where they are no snapshot, else another description, else
/// other further devices, else the block window, else the console's, else a further device's, else what waits in one.
pub fn a_restore_is_refused_for_one_cause()
    ensures { (slot : BoardSlot) (bytes : List ℕ) (one other : RestoreFault) →
        IsCauseOf slot bytes one → IsCauseOf slot bytes other → one ≡ other }
{}

/// A guest that moves to another board, whoever serves its disk, goes on as it would have. Where the host has put back the
/// bytes of its memory and its disk, the restore of what was saved brings the slot into the state in which it was saved
/// (`state`), whatever waited in its further devices. What the guest, quiet on both boards, has on the first in one slot, and
/// behind the restore on the second in another, is one run of it on its own, but for the slot's number in its records (`run`).
pub fn a_restored_guest_goes_on<A: Allocator>()
    ensures state { (h : ℕ) (saved : BoardSlot) (bytes : List ℕ) (old : World) (restore : Move A) →
        MovesTo h saved bytes old restore → slice_get restore.after.slots h ≡ Some (state_of bytes saved) }
    ensures run { (g h : ℕ) (state : SlotState) (saved : BoardSlot) (bytes : List ℕ) (old new old' new' : World)
        (restore : Move A) (moves moves' : List (Move A)) →
        IsLine old moves new → IsQuiet g old moves → slice_get old.slots g ≡ Some state →
        slice_get new.slots g ≡ Some (state_of bytes saved) → MovesTo h saved bytes old' restore →
        IsLine restore.after moves' new' → IsQuiet h restore.after moves' → RanOnBoth g state moves h moves' new' }
{}

/// A stop between two events, as a loss of power, loses nothing, from a moment on at which the image was clean and
/// until a call of it fails: what it leaves is each guest's disk as that guest sees it. So every OUT, FLUSH and
/// WRITE_ZEROES that was answered OK stands. After failures the image is clean from the next of them on.
pub fn a_stop_between_events_loses_nothing<I: Image, A: Allocator>()
    ensures clean { (old new : World) (moves : List (Move A)) → IsLine old moves new →
        new.health.failures ≡ old.health.failures → old.health.dirty ≡ false → new.health.dirty ≡ false }
    ensures left { (old : World) (moves : List (Move A)) (board : BoardState I) (left : List ℕ) →
        Tells (I.disk board.image) → IsLine old moves (world_of I.disk board) →
        (world_of I.disk board).health.failures ≡ old.health.failures → old.health.dirty ≡ false →
        I.may_leave board.image left → IsLeftAsSeen board.slots (world_of I.disk board) left }
{}

/// A stop at any moment within an event, as a loss of power, touches no other guest's disk, whatever of the event's own writes
/// was cut short and whatever failed. Where one before the event could leave these bytes alone, it leaves theirs (`known`);
/// where the image was clean then, that disk as its guest saw it (`seen`). It rests on an image that records what a stop
/// might have left, from a moment before the event.
pub fn a_cut_event_touches_no_other_disk<I: Image>()
    ensures known { (old new : BoardState I) (g since : ℕ) (own other : BoardSlot) (bytes left : List ℕ) →
        TouchesSlot I.moment I.may_leave I.left_since g old new → slice_get old.slots g ≡ Some own →
        IsApart (whole_extent own) (whole_extent other) → Only bytes (I.may_leave old.image) →
        BeginsAt (I.may_leave old.image) (I.left_since old.image) since → I.left_since new.image since left →
        state_of left other ≡ state_of bytes other }
    ensures seen { (old new : BoardState I) (g since : ℕ) (own other : BoardSlot) (left : List ℕ) →
        TouchesSlot I.moment I.may_leave I.left_since g old new → slice_get old.slots g ≡ Some own →
        IsApart (whole_extent own) (whole_extent other) → Tells (I.disk old.image) → (I.disk old.image).dirty ≡ false →
        BeginsAt (I.may_leave old.image) (I.left_since old.image) since → I.left_since new.image since left →
        state_of left other ≡ state_of (bytes_of (I.disk old.image)) other }
{}

/// And a guest whose events met refusals is told what it may be told alone, where it meets such, and is left as it may be.
pub fn each_guest_is_alone_whatever_it_meets<A: Allocator>()
    ensures { (g : ℕ) (old new : World) (moves : List (Move A)) (state : SlotState) →
        IsLine old moves new → slice_get old.slots g ≡ Some state → RunsAsItMay g state moves new }
{}

/// What the host says of a disk that it serves comes to the same whether that is the slot's own or a further one: where there
/// is something to do, the disk does as it is told, and all else of the slot stays.
pub fn a_disk_does_as_its_host_says<A: Allocator>()
    ensures { (disk : SlotDisk) (old : SlotState) (unit : DiskUnit) (said : HostEvent) (what : EventKind A)
        (before after : Health) (outcome : Outcome A) → unit_at disk old ≡ Some unit → has_effect said unit.disk ≡ true →
        said_of disk what ≡ Some said → MayGive old what before after outcome → DoesAsSaid disk said old outcome.state }
{}

/// What is in flight of a disk stays in flight with its tag, whatever its guest does, and whatever else is completed: only its
/// own completion ends it, and a drop.
pub fn a_flight_outlasts_own_events<A: Allocator>()
    ensures { (disk : SlotDisk) (old : SlotState) (tag : ℕ) (here : InFlight) (what : EventKind A) (before after : Health)
        (outcome : Outcome A) → get_or (in_flight_of disk old) tag None ≡ Some here → LeavesTagOf disk tag what →
        MayGive old what before after outcome → get_or (in_flight_of disk outcome.state) tag None ≡ Some here }
{}

/// An event that waits changes nothing, and only a write of Status or QueueReady of a disk's window and a restore may wait; nor
/// does what the host says for nothing.
pub fn what_waits_changes_nothing<A: Allocator>()
    ensures busy { (old : SlotState) (what : EventKind A) (before after : Health) (outcome : Outcome A) →
        MayGive old what before after outcome → outcome.reply ≡ Reply.Busy →
        (outcome.state ≡ old) × (may_wait what ≡ true) }
    ensures idle { (old : SlotState) (what : EventKind A) (before after : Health) (outcome : Outcome A) →
        MayGive old what before after outcome → outcome.reply ≡ Reply.Idle → outcome.state ≡ old }
{}

/// A host that never answers hangs no guest: behind a drop nothing is in flight, whatever was (`free`), so that the next event
/// doesn't wait, whichever it is, unless it is for a further disk (`passes`). What was in flight leaves its guest a window that
/// asks to be reset, and the bytes of its memory as they were (`dropped`). Behind a drop of a further disk nothing is in flight of
/// that (`further`).
pub fn a_dropped_slot_never_waits<A: Allocator>()
    ensures free { (old : SlotState) (before after : Health) (outcome : Outcome A) →
        MayGive old (EventKind.Host HostEvent.Drop) before after outcome → is_any (tags_in outcome.state.host) ≡ false }
    ensures passes { (old : SlotState) (what : EventKind A) (before mid mid' after : Health) (drop outcome : Outcome A) →
        MayGive old (EventKind.Host HostEvent.Drop) before mid drop → MayGive drop.state what mid' after outcome →
        outcome.reply ≡ Reply.Busy → waits_beside what drop.state ≡ true }
    ensures further { (n : ℕ) (old : SlotState) (before after : Health) (outcome : Outcome A) →
        MayGive old (EventKind.Device n (DeviceEvent.Host HostEvent.Drop)) before after outcome →
        IfSome (disk_at n outcome.state.devices) (λ disk. is_any disk.tags ≡ false) }
    ensures dropped { (old : SlotState) (before after : Health) (outcome : Outcome A) →
        is_any (tags_in old.host) ≡ true → MayGive old (EventKind.Host HostEvent.Drop) before after outcome →
        outcome.state ≡ dropped old }
{}

/// Of a disk on hold no further chain is taken: a free tag stays free, whatever its guest does and the host completes, until
/// it is released (`free`). It stays on hold until then, or until it takes up a snapshot (`stays`).
pub fn no_chain_is_taken_on_hold<A: Allocator>()
    ensures free { (disk : SlotDisk) (old : SlotState) (tag : ℕ) (what : EventKind A) (before after : Health)
        (outcome : Outcome A) → on_hold_of disk old ≡ true → said_of disk what ≢ Some HostEvent.Release →
        get_or (in_flight_of disk old) tag None ≡ None → MayGive old what before after outcome →
        get_or (in_flight_of disk outcome.state) tag None ≡ None }
    ensures stays { (disk : SlotDisk) (old : SlotState) (what : EventKind A) (before after : Health) (outcome : Outcome A) →
        on_hold_of disk old ≡ true → said_of disk what ≢ Some HostEvent.Release → IsNoRestore what →
        MayGive old what before after outcome → on_hold_of disk outcome.state ≡ true }
{}

/// A guest of which a disk is held and released gets what it gets without, but for the moment: where it notified the disk on
/// hold, the release comes to what the notification would have come to.
pub fn a_release_makes_up_for_a_notification<A: Allocator>()
    ensures { (disk : SlotDisk) (old : SlotState) (what : EventKind A) (waited late prompt : Outcome A) →
        IsSome (unit_at disk old) → notifies_disk disk what old ≡ true → waits_for disk what old ≡ false →
        IsNext (held_so true disk old) what waited → IsNext waited.state (saying disk HostEvent.Release) late →
        IsNext (held_so false disk old) what prompt → late.state ≡ prompt.state }
{}

/// Where a host did with a guest's disk what may become of the request that was asked for, and says so, the slot's block
/// device did what the model's does over that disk: it read what stood in memory as the chain asked, and wrote on the memory
/// as it stood at the completion, where the data that was read must stand. What the guest and the completions of other
/// operations did in between has no part in it.
pub fn an_honest_host_serves<A: Allocator>()
    ensures { (disk : SlotDisk) (device : BlockDevice) (began : HostedQueue) (tag : ℕ) (here : InFlight) (now : SlotState)
        (verdict : Verdict) (new : HostedQueue) (flown : IsFlown A disk device began tag here now verdict new) →
        IsHonestlyServed disk device began tag here now verdict new flown }
{}

/// The guest of a disk that the host serves is told what its host says, and no sooner. Nothing that a look serves at once is an
/// OUT, FLUSH or WRITE_ZEROES that is answered OK (`at_once`). A chain in flight stays so until the host completes its operation,
/// or gives up all (`becomes`). As the operation is completed, the chain is given back with a status, in a window that may be
/// served (`answered`): it is OK exactly where the host said that the operation was done, and IOERR where it failed (`told`).
pub fn a_guest_is_told_what_its_host_says<A: Allocator>()
    ensures at_once { (device : BlockDevice) (site : Site Queue Disk) (served : Served Disk) →
        ServesChain queue_kind (unasked_device device) site served → ¬ IsCommitted device site.memory served }
    ensures becomes { (disk : SlotDisk) (old : SlotState) (tag : ℕ) (here : InFlight) (what : EventKind A)
        (before after : Health) (outcome : Outcome A) → get_or (in_flight_of disk old) tag None ≡ Some here →
        MayGive old what before after outcome → Becomes disk tag here old what outcome.state }
    ensures answered { (disk : SlotDisk) (old : SlotState) (unit : DiskUnit) (tag : ℕ) (here : InFlight) (queue : Queue)
        (what : EventKind A) (verdict : Verdict) (before after : Health) (outcome : Outcome A) →
        unit_at disk old ≡ Some unit → get_or (in_flight_of disk old) tag None ≡ Some here →
        Inside old.memory here.flight.status 1 → queue_at 0 unit.window ≡ Some queue →
        said_of disk what ≡ Some (HostEvent.Complete tag verdict) → MayGive old what before after outcome →
        IsAnswered disk tag here old what (code_of (status_by verdict)) outcome.state }
    ensures told { (disk : SlotDisk) (tag : ℕ) (here : InFlight) (old : SlotState) (what : EventKind A) (status : ℕ)
        (new : SlotState) → IsAnswered disk tag here old what status new → (verdict : Verdict) →
        (said_of disk what ≡ Some (HostEvent.Complete tag verdict)) ↔ (status ≡ code_of (status_by verdict)) }
{}

/// A FLUSH that was answered OK lasts, and so does a stable write: each byte that it covers is on the medium after a stop as the
/// host reads it, until an operation that writes it is in flight again (`lasts`). It covers no byte that an operation writes
/// that was in flight beside it; but each write that was completed before it was asked. The premises are that in a course of
/// its slot the guest read OK, and that the host keeps its word with all that it said in it; what a drop or the end of the
/// course cuts short counts as failed. In each line of a board's steps each slot has such a course (`course`).
pub fn a_flush_that_was_answered_lasts<A: Allocator>()
    ensures course { (g : ℕ) (old new : World) (moves : List (Move A)) (state : SlotState) →
        IsLine old moves new → slice_get old.slots g ≡ Some state → HasCourse g state moves new }
    ensures lasts { (g : ℕ) (disk : SlotDisk) (old : Standing) (first later : List (Passage A)) (passage : Passage A)
        (new : SlotState) (tag place : ℕ) (here : InFlight) (before after : Medium) →
        IsCourse g old.state (first ++ passage ∷ later) new →
        IsAnswered disk tag here (behind_all disk old first).state passage.what (code_of RequestStatus.Success)
        passage.after → covers here ((behind_all disk old first).beside tag) place ≡ true →
        KeepsWordIn before (completions disk old (first ++ passage ∷ later)) after →
        IsUnwritten place (completions disk (behind disk (behind_all disk old first) passage) later) →
        slice_get after.left place ≡ slice_get after.held place }
{}

/// An event that touches no memory needs none. Whatever bytes memory has, they stay, and exactly the same comes of the
/// event (`gives`), also where it is refused (`may`), and so of a board's step (`step`). Of the writes to a window only
/// those to QueueNotify touch memory (`notify`), and no snapshot has a byte of it (`saved`). A write to QueueReady and a
/// restore see where memory lies, and no more. No clause can say that no byte is read whose value decides nothing.
pub fn what_touches_no_memory_needs_none<A: Allocator>()
    ensures gives { (old : SlotState) (what : EventKind A) (before after : Health) → touches_memory what old ≡ false →
        NeedsNoMemory (λ (state : SlotState) (outcome : Outcome A). Gives state what before after outcome) old }
    ensures may { (old : SlotState) (what : EventKind A) (before after : Health) → touches_memory what old ≡ false →
        NeedsNoMemory (λ (state : SlotState) (outcome : Outcome A). MayGive state what before after outcome) old }
    ensures step { (old new : World) (event : Event A) (written : Record A) (found after : SlotState)
        (memory : Memory) →
        slice_get old.slots event.slot ≡ Some found → slice_get new.slots event.slot ≡ Some after →
        touches_memory event.what found ≡ false → SameRange found.memory memory → Step old event written new →
        (after.memory ≡ found.memory) × Step (world_over event.slot found memory old) event written
        (world_over event.slot after memory new) }
    ensures notify { (state : SlotState) (window : SlotWindow) (offset width value : ℕ) →
        register_at offset ≢ Some Register.QueueNotify →
        touches_memory {A = A} (EventKind.Write window offset width value) state ≡ false }
    ensures saved { (slot : BoardSlot) (memory : Memory) → SameRange slot.memory memory →
        snapshot_of (record slot { memory = memory }) ≡ snapshot_of slot }
{}

/// Each event but the host's own write marks the pages of its guest's memory that it writes to, and clears no mark: a page
/// whose bit stays clear is as it was.
pub fn an_event_marks_its_pages<A: Allocator>()
    ensures { (old : SlotState) (what : EventKind A) (before after : Health) (outcome : Outcome A) → IsForDevices what →
        MayGive old what before after outcome → MarksWrites old.memory outcome.state.memory }
{}
