//! One guest's part of a board: its slot, of which what is in flight is held.
//!
//! Of a disk that the host serves as many requests are in flight as it has tags. Meanwhile the guest runs on: two writes of the
//! block window and a restore wait for the completions, or for a drop, and everything else is done at once. What comes of an event is stated
//! against the one-slot machine. `access` is what an embedder reaches between events, and `saved` the slot's snapshot.

ghost use Rattle.std.specs.Prelude.{◌≡◌, ◌≢◌, ◌||◌, ℕ, List, Some, IfOk, IsSome};
ghost use Rattle.guest_memory.specs.Faults.{AreGood as AreGoodRegions};
ghost use Rattle.block_device.specs.Extent.{IsWithin, TouchesExtent};
ghost use Rattle.block_device.specs.Tags.{is_any};
ghost use Rattle.board.specs.declared.in_place.InPlace.{InPlace};
ghost use Rattle.board.specs.declared.pause.Turn.{Turn};
ghost use Rattle.board.specs.declared.pause.Work.{Work};
ghost use Rattle.board.specs.declared.reply.Reply.{Reply};
ghost use Rattle.board.specs.Backing.{tags_in};
ghost use Rattle.board.specs.Fault.{HasRoom};
ghost use Rattle.board.specs.Hosting.{HostGives, must_wait, waits_now};
ghost use Rattle.board.specs.Image.{Health, sectors_of};
ghost use Rattle.board.specs.Lent.{opened_over};
ghost use Rattle.board.specs.Outcome.{replies};
ghost use Rattle.board.specs.Pausing.{Begins, Does, GoesOn, MayLackMemoryIn, PausesByLimit, ServesOver, ServesTurn, met_in};
ghost use Rattle.board.specs.Slot.{IsUnnoted, KeepsPlace, StaysInSlot, is_at_work, opened, state_of, whole_extent};
ghost use Rattle.board.specs.Within.{BeginsWithin, DecidesOver, DoesWithin, GoesOnWithin};
ghost use Rattle.board.specs.World.{MayLackMemory};

mod access;
mod saved;

use crate::event::{EventKind, SlotWindow};
use crate::pause::{Pause, Service, Turn, Work};
use crate::reply::Reply;
use crate::slot::{Answer, Slot};
use crate::spec::SlotSpec;
use block_device::HostEvent;
use chain::Budget;
use console_device::Outlet;
use guest_memory::GuestMemory;
use mmio_window::{Stage, may_stop_queues};
use sector_cache::{Image, SectorCache};
use std::alloc::{AllocError, Allocator, Global};
use std::marker::Model;

/// One guest's part of a board.
#[derive(Drop)]
pub(crate) struct Guest<A: Allocator = Global> {
    slot: Slot<A>,
}

impl<A: Allocator> Model for Guest<A> {
    ghost use Rattle.board.specs.Hosting.{HoldsFlights};
    ghost use Rattle.board.specs.Slot.{BoardSlot};

    ghost Value = { BoardSlot };

    ghost view = { λ guest. guest.slot };

    ghost invariant = { λ guest. HoldsFlights guest.slot };
}

impl<A: Allocator + Copy> Guest<A> {
    /// Opens a slot over a memory of zeros.
    pub(crate) fn open(alloc: A, spec: &SlotSpec) -> Result<Guest<A>, AllocError>
        requires memory { AreGoodRegions spec.now.regions }
        requires disk { HasRoom spec.now }
        ensures { IfOk result (λ guest. guest ≡ opened spec.now) }
    {
        let slot = Slot::open(alloc, spec)?;
        Ok(Guest { slot })
    }

    /// Opens a slot over a memory that is there.
    pub(crate) fn over(
        alloc: A,
        spec: &SlotSpec,
        memory: GuestMemory<A>,
    ) -> Result<Guest<A>, AllocError>
        requires { HasRoom spec.now }
        ensures { IfOk result (λ guest. guest ≡ opened_over spec.now memory) }
    {
        let slot = Slot::over(alloc, spec, memory)?;
        Ok(Guest { slot })
    }

    /// Takes a turn, in which a service may pause where the budget is spent, and notes a refusal. What the console puts
    /// out is appended to `out`.
    #[inline(always)]
    pub(crate) fn turn<I: Image, O: Outlet>(
        &mut self,
        alloc: A,
        work: Work<'_, A>,
        budget: Budget,
        cache: &mut SectorCache<I, A>,
        out: &mut O,
    ) -> Turn<A>
        requires lies { IsWithin (I.disk cache.old).sector_count (whole_extent self.old) }
        ensures serves { ServesOver (Does work.entry budget) self.old self.new (I.disk cache.old) (I.disk cache.new)
            result (O.bytes out.old) (O.bytes out.new) }
        ensures within { DecidesOver (λ limit. DoesWithin limit work.entry budget) (O.limit out.old) self.old self.new
            (I.disk cache.old) (I.disk cache.new) (O.bytes out.old) (O.bytes out.new) result }
        ensures limit { O.limit out.new ≡ O.limit out.old }
        ensures silent { (what : InPlace) → work.entry ≡ Work.InPlace what → O.bytes out.new ≡ O.bytes out.old }
        ensures noted { self.new.disturbed ≡ (self.old.disturbed ||
            met_in result (I.disk cache.old).failures (I.disk cache.new).failures) }
        ensures stays { StaysInSlot self.old self.new (I.disk cache.old) (I.disk cache.new) }
        ensures touches { TouchesExtent I.moment I.may_leave I.left_since (whole_extent self.old) cache.old cache.new }

        // a slot that is there is never said to be missing, and what is refused changes nothing
        ensures limited { PausesByLimit budget result }
        ensures there { result ≢ Turn.Answered Reply.BadSlot }
        ensures bad_range { result ≡ Turn.Answered Reply.BadRange →
            (self.new ≡ self.old) × (cache.new ≡ cache.old) }
        ensures no_memory { result ≡ Turn.Answered Reply.NoMemory → (image : List ℕ) →
            MayLackMemoryIn work.entry (state_of image self.old) }
    {
        match work {
            Work::Begin(what) => {
                let answer = self.begin(alloc, what, budget, cache, out);
                self.slot.note(answer)
            }
            Work::InPlace(what) => self.begin_in_place(what, budget, cache),
            Work::Resume(pause) => {
                let answer = self.resume(pause, budget, cache, out);
                self.slot.note(answer)
            }
        }
    }

    // Begins an event, and leaves it to the caller to note a refusal.
    #[inline(always)]
    fn begin<I: Image, O: Outlet>(
        &mut self,
        alloc: A,
        what: &EventKind<A>,
        budget: Budget,
        cache: &mut SectorCache<I, A>,
        out: &mut O,
    ) -> Answer<A>
        requires lies { IsWithin (I.disk cache.old).sector_count (whole_extent self.old) }
        ensures serves { ServesOver (Begins what.now budget) self.old self.new (I.disk cache.old) (I.disk cache.new)
            result.turn (O.bytes out.old) (O.bytes out.new) }
        ensures within { DecidesOver (λ limit. BeginsWithin limit what.now budget) (O.limit out.old) self.old self.new
            (I.disk cache.old) (I.disk cache.new) (O.bytes out.old) (O.bytes out.new) result.turn }
        ensures limited { PausesByLimit budget result.turn }
        ensures limit { O.limit out.new ≡ O.limit out.old }
        ensures unnoted { IsUnnoted self.old self.new (I.disk cache.old) (I.disk cache.new) result.failed }
        ensures touches { TouchesExtent I.moment I.may_leave I.left_since (whole_extent self.old) cache.old cache.new }
        ensures there { result.turn ≢ Turn.Answered Reply.BadSlot }
        ensures bad_range { result.turn ≡ Turn.Answered Reply.BadRange →
            (self.new ≡ self.old) × (cache.new ≡ cache.old) }
        ensures no_memory { result.turn ≡ Turn.Answered Reply.NoMemory → (image : List ℕ) →
            MayLackMemory (state_of image self.old) what.now }
    {
        if self.slot.is_hosted() {
            let turn = self.begin_hosted(alloc, what, budget, out);
            return Answer {
                turn,
                failed: false,
            };
        }
        self.slot.answer(alloc, what, budget, cache, out)
    }

    // Begins an event of a guest whose disk the host serves. The image has no part in it. A write goes by its parts, so that nothing
    // refers to the event: a caller who knows its kind need not store it.
    #[inline(always)]
    fn begin_hosted<O: Outlet>(
        &mut self,
        alloc: A,
        what: &EventKind<A>,
        budget: Budget,
        out: &mut O,
    ) -> Turn<A>
        requires hosted { IsSome self.old.host }
        ensures serves { (image : List ℕ) (health : Health) →
            sectors_of (state_of image self.old).extent ≡ self.old.extent.count →
            ServesTurn (Begins what.now budget) (state_of image self.old) health health (state_of image self.new) result
            (O.bytes out.old) (O.bytes out.new) }
        ensures within { (image : List ℕ) (limit : ℕ) → O.limit out.old ≡ Some limit →
            BeginsWithin limit what.now budget (state_of image self.old) (state_of image self.new)
            (O.bytes out.old) (O.bytes out.new) result }
        ensures limited { PausesByLimit budget result }
        ensures limit { O.limit out.new ≡ O.limit out.old }
        ensures place { KeepsPlace self.old self.new }
        ensures disturbed { self.new.disturbed ≡ self.old.disturbed }
        ensures there { result ≢ Turn.Answered Reply.BadSlot }
        ensures bad_range { result ≡ Turn.Answered Reply.BadRange → self.new ≡ self.old }
        ensures no_memory { result ≡ Turn.Answered Reply.NoMemory → (image : List ℕ) →
            MayLackMemory (state_of image self.old) what.now }
    {
        match what {
            EventKind::Write {
                window,
                offset,
                width,
                value,
            } => self.write_hosted(alloc, *window, *offset, *width, *value, budget, out),
            _ => self.begin_other_hosted(alloc, what, budget, out),
        }
    }

    // Begins a write to a window of a guest whose disk the host serves.
    #[inline(never)]
    fn write_hosted<O: Outlet>(
        &mut self,
        alloc: A,
        window: SlotWindow,
        offset: u16,
        width: u8,
        value: u32,
        budget: Budget,
        out: &mut O,
    ) -> Turn<A>
        requires hosted { IsSome self.old.host }
        ensures serves { (image : List ℕ) (health : Health) →
            sectors_of (state_of image self.old).extent ≡ self.old.extent.count →
            ServesTurn (Begins (EventKind.Write window offset width value) budget) (state_of image self.old) health health (state_of image self.new) result
            (O.bytes out.old) (O.bytes out.new) }
        ensures within { (image : List ℕ) (limit : ℕ) → O.limit out.old ≡ Some limit →
            BeginsWithin limit (EventKind.Write window offset width value) budget (state_of image self.old) (state_of image self.new)
            (O.bytes out.old) (O.bytes out.new) result }
        ensures limited { PausesByLimit budget result }
        ensures limit { O.limit out.new ≡ O.limit out.old }
        ensures place { KeepsPlace self.old self.new }
        ensures disturbed { self.new.disturbed ≡ self.old.disturbed }
        ensures there { result ≢ Turn.Answered Reply.BadSlot }
        ensures bad_range { result ≡ Turn.Answered Reply.BadRange → self.new ≡ self.old }
        ensures no_memory { result ≡ Turn.Answered Reply.NoMemory → (image : List ℕ) →
            MayLackMemory {A = A} (state_of image self.old) (EventKind.Write window offset width value) }
    {
        let what = EventKind::Write {
            window,
            offset,
            width,
            value,
        };
        self.hosted_turn(alloc, &what, budget, out)
    }

    // The same of any event.
    #[inline(never)]
    fn begin_other_hosted<O: Outlet>(
        &mut self,
        alloc: A,
        what: &EventKind<A>,
        budget: Budget,
        out: &mut O,
    ) -> Turn<A>
        requires hosted { IsSome self.old.host }
        ensures serves { (image : List ℕ) (health : Health) →
            sectors_of (state_of image self.old).extent ≡ self.old.extent.count →
            ServesTurn (Begins what.now budget) (state_of image self.old) health health (state_of image self.new) result
            (O.bytes out.old) (O.bytes out.new) }
        ensures within { (image : List ℕ) (limit : ℕ) → O.limit out.old ≡ Some limit →
            BeginsWithin limit what.now budget (state_of image self.old) (state_of image self.new)
            (O.bytes out.old) (O.bytes out.new) result }
        ensures limited { PausesByLimit budget result }
        ensures limit { O.limit out.new ≡ O.limit out.old }
        ensures place { KeepsPlace self.old self.new }
        ensures disturbed { self.new.disturbed ≡ self.old.disturbed }
        ensures there { result ≢ Turn.Answered Reply.BadSlot }
        ensures bad_range { result ≡ Turn.Answered Reply.BadRange → self.new ≡ self.old }
        ensures no_memory { result ≡ Turn.Answered Reply.NoMemory → (image : List ℕ) →
            MayLackMemory (state_of image self.old) what.now }
    {
        self.hosted_turn(alloc, what, budget, out)
    }

    // The same, read into its caller, who may know the kind of the event.
    #[inline(always)]
    fn hosted_turn<O: Outlet>(
        &mut self,
        alloc: A,
        what: &EventKind<A>,
        budget: Budget,
        out: &mut O,
    ) -> Turn<A>
        requires hosted { IsSome self.old.host }
        ensures serves { (image : List ℕ) (health : Health) →
            sectors_of (state_of image self.old).extent ≡ self.old.extent.count →
            ServesTurn (Begins what.now budget) (state_of image self.old) health health (state_of image self.new) result
            (O.bytes out.old) (O.bytes out.new) }
        ensures within { (image : List ℕ) (limit : ℕ) → O.limit out.old ≡ Some limit →
            BeginsWithin limit what.now budget (state_of image self.old) (state_of image self.new)
            (O.bytes out.old) (O.bytes out.new) result }
        ensures limited { PausesByLimit budget result }
        ensures limit { O.limit out.new ≡ O.limit out.old }
        ensures place { KeepsPlace self.old self.new }
        ensures disturbed { self.new.disturbed ≡ self.old.disturbed }
        ensures there { result ≢ Turn.Answered Reply.BadSlot }
        ensures bad_range { result ≡ Turn.Answered Reply.BadRange → self.new ≡ self.old }
        ensures no_memory { result ≡ Turn.Answered Reply.NoMemory → (image : List ℕ) →
            MayLackMemory (state_of image self.old) what.now }
    {
        if let EventKind::Host(told) = what {
            return Turn::Answered(self.told(*told));
        }
        if self.holds_up(what) {
            return Turn::Answered(Reply::Busy);
        }
        match self.slot.answer_beside_image(alloc, what, budget, out) {
            Ok(turn) => turn,
            Err(_) => {
                self.slot.look();
                Turn::Answered(Reply::Done)
            }
        }
    }

    // Goes on with a service that paused.
    #[inline(never)]
    fn resume<I: Image, O: Outlet>(
        &mut self,
        pause: Pause,
        budget: Budget,
        cache: &mut SectorCache<I, A>,
        out: &mut O,
    ) -> Answer<A>
        requires lies { IsWithin (I.disk cache.old).sector_count (whole_extent self.old) }
        ensures serves { ServesOver (GoesOn pause budget) self.old self.new (I.disk cache.old)
            (I.disk cache.new) result.turn (O.bytes out.old) (O.bytes out.new) }
        ensures within { DecidesOver (λ limit. GoesOnWithin limit pause budget) (O.limit out.old) self.old self.new
            (I.disk cache.old) (I.disk cache.new) (O.bytes out.old) (O.bytes out.new) result.turn }
        ensures limit { O.limit out.new ≡ O.limit out.old }
        ensures unnoted { IsUnnoted self.old self.new (I.disk cache.old) (I.disk cache.new) result.failed }
        ensures touches { TouchesExtent I.moment I.may_leave I.left_since (whole_extent self.old) cache.old cache.new }
        ensures limited { PausesByLimit budget result.turn }
        ensures there { result.turn ≢ Turn.Answered Reply.BadSlot }
        ensures in_range { result.turn ≢ Turn.Answered Reply.BadRange }
    {
        if self.slot.is_hosted() {
            let turn = self.resume_hosted(pause, budget, out);
            return Answer {
                turn,
                failed: false,
            };
        }
        self.slot
            .serve_piece(pause, Stage::Next, budget, cache, out)
    }

    // Goes on with a service of a guest whose disk the host serves: one of the block device's never paused.
    #[inline(never)]
    fn resume_hosted<O: Outlet>(&mut self, pause: Pause, budget: Budget, out: &mut O) -> Turn<A>
        requires hosted { IsSome self.old.host }
        ensures serves { (image : List ℕ) (health : Health) →
            ServesTurn (GoesOn pause budget) (state_of image self.old) health health (state_of image self.new) result
            (O.bytes out.old) (O.bytes out.new) }
        ensures within { (image : List ℕ) (limit : ℕ) → O.limit out.old ≡ Some limit →
            GoesOnWithin limit pause budget (state_of image self.old) (state_of image self.new)
            (O.bytes out.old) (O.bytes out.new) result }
        ensures limited { PausesByLimit budget result }
        ensures limit { O.limit out.new ≡ O.limit out.old }
        ensures place { KeepsPlace self.old self.new }
        ensures disturbed { self.new.disturbed ≡ self.old.disturbed }
        ensures there { result ≢ Turn.Answered Reply.BadSlot }
        ensures in_range { result ≢ Turn.Answered Reply.BadRange }
    {
        match pause.service {
            Service::Block => Turn::Answered(pause.reply()),
            Service::Receive | Service::Transmit | Service::Further { .. } => {
                self.slot
                    .serve_beside_image(pause, Stage::Next, budget, out)
            }
        }
    }
}

impl<A: Allocator> Guest<A> {
    // Does what the host says of the disk that it serves.
    fn told(&mut self, said: HostEvent) -> Reply<A>
        ensures gives { IsSome self.old.host → (image : List ℕ) →
            HostGives {A = A} said (state_of image self.old) (replies (state_of image self.new) result) }
        ensures place { KeepsPlace self.old self.new }
        ensures disturbed { self.new.disturbed ≡ self.old.disturbed }
        ensures there { result ≢ Reply.BadSlot }
        ensures in_range { result ≢ Reply.BadRange }
        ensures no_memory { result ≢ Reply.NoMemory }
    {
        if self.slot.tell(said) {
            Reply::Done
        } else {
            Reply::Idle
        }
    }

    // Whether an event waits for what is in flight.
    fn holds_up(&self, what: &EventKind<A>) -> bool
        ensures { result ≡ waits_now what.now self.now.host }
    {
        self.is_busy() && waits(what)
    }

    // Whether anything is in flight of any disk.
    fn is_at_work(&self) -> bool
        ensures { result ≡ is_at_work self.now }
    {
        self.is_busy() || self.slot.are_at_work()
    }

    // Whether anything is in flight of the slot's own disk.
    fn is_busy(&self) -> bool
        ensures { result ≡ is_any (tags_in self.now.host) }
    {
        match self.slot.host() {
            Some(disk) => disk.is_busy(),
            None => false,
        }
    }
}

// Whether an event waits for what is in flight: a write of the block window that may stop its queue, or a restore.
fn waits<A: Allocator>(what: &EventKind<A>) -> bool
    ensures { result ≡ must_wait what.now }
{
    match what {
        EventKind::Write {
            window: SlotWindow::Block,
            offset,
            ..
        } => may_stop_queues(*offset),
        EventKind::Restore { .. } => true,
        _ => false,
    }
}
