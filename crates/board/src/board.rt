//! The board: its slots over one image, and how events are handled in their order.

ghost use Rattle.std.specs.Prelude.{◌≡◌, ◌≢◌, ◌↔◌, ◌≤◌, ◌<◌, ◌++◌, ◌∷◌, [], ℕ, List, All, length, vec_len, vec_capacity, IfErr, Some, None, IfSome, IfNone, IsSomeAnd};
ghost use Rattle.std.specs.List.{slice_get};
ghost use Rattle.board.specs.Durable.{TouchesSlot};
ghost use Rattle.board.specs.Line.{AnswersMissing, IsRun, HasInterruptWords, KeepsIdle, events_done};
ghost use Rattle.board.specs.Slot.{AreInterruptWords};
ghost use Rattle.board.specs.Image.{Tells};
ghost use Rattle.board.specs.World.{Handles, HoldsAt, Answers, IsMissed, KeepsOthers, MayLackMemory, NotesRefusal, StaysInExtents, disturbed_of, met_refusal, world_of};
ghost use Rattle.board.specs.Within.{DecidesSlot, TakesWithin};

mod access;
mod devices;
mod make;
mod pieces;
mod saved;
mod view;

pub use crate::board::pieces::Taken;
use crate::bytes::Bytes;
use crate::event::{Event, EventKind};
use crate::guest::Guest;
use crate::pause::{Turn, Work};
use crate::reply::{Handled, Record, Reply, RunStop};
use chain::Budget;
use console_device::Outlet;
use sector_cache::{Image, SectorCache};
use std::alloc::{Allocator, Global};
use std::marker::Model;

/// Up to sixty-four guests over one image.
#[derive(Drop)]
pub struct Board<I: Image, A: Allocator = Global> {
    slots: Vec<Guest<A>, A>,
    cache: SectorCache<I, A>,
    alloc: A,
}

impl<I: Image, A: Allocator> Model for Board<I, A> {
    ghost use Rattle.board.specs.Extent.{AreSound};
    ghost use Rattle.board.specs.World.{BoardState, extents_of};

    ghost Value = { BoardState I };

    ghost view = { λ b. record { slots = b.slots.items; image = b.cache } };

    ghost invariant = { λ b. AreSound (I.disk b.cache).sector_count (extents_of b.slots.items) };
}

impl<I: Image, A: Allocator + Copy> Board<I, A> {
    /// Handles one event to its end, as `handle` does. What the slot's console puts out is appended to `out`.
    #[tactic(auto, using(crate::proofs::Runs::answered))]
    pub fn step<O: Outlet>(&mut self, event: &Event<A>, out: &mut O) -> Reply<A>
        ensures step { Tells (I.disk self.old.image) →
            Answers (world_of I.disk self.old) event.now result (O.bytes out.old) (O.bytes out.new)
            (world_of I.disk self.new) }

        // by an outlet with a limit, what waits in it decides what is refused
        ensures within { DecidesSlot I.disk (O.limit out.old) event.now.slot self.old self.new (λ limit found after.
            TakesWithin limit found event.now.what after (O.bytes out.old) (O.bytes out.new) result) }
        ensures limit { O.limit out.new ≡ O.limit out.old }

        ensures stays { StaysInExtents I.disk self.old self.new }
        ensures touches { TouchesSlot I.moment I.may_leave I.left_since event.now.slot self.old self.new }

        // a refusal, of memory or of the image, is noted for the event's slot
        ensures noted { NotesRefusal I.disk event.now.slot (met_refusal result) self.old self.new }

        // what is refused changes nothing; and only a read of memory, a transmit and an emergency write may
        // find no memory
        ensures bad_slot { (result ≡ Reply.BadSlot) ↔ (length self.old.slots ≤ event.now.slot) }
        ensures bad_slot_keeps { result ≡ Reply.BadSlot → self.new ≡ self.old }
        ensures missing { length self.old.slots ≤ event.now.slot → O.bytes out.new ≡ O.bytes out.old }
        ensures bad_range_keeps { result ≡ Reply.BadRange → self.new ≡ self.old }
        ensures others { KeepsOthers event.now.slot self.old.slots self.new.slots }
        ensures no_memory { result ≡ Reply.NoMemory →
            HoldsAt event.now.slot self.old.slots (λ state. MayLackMemory state event.now.what) }
    {
        self.handle(event.slot, &event.what, out).reply
    }

    /// Handles the events in their order, and appends a record for each. Where there is no memory
    /// for the next record it stops before its event.
    pub fn run(
        &mut self,
        events: &[Event<A>],
        records: &mut Vec<Record<A>, A>,
    ) -> Result<(), RunStop>
        ensures run { Tells (I.disk self.old.image) →
            IsRun (world_of I.disk self.old) (world_of I.disk self.new)
            (events_done result events.now) records.old.items records.new.items }
        ensures stopped { IfErr result (λ stop. stop.done < length events.now) }
        ensures others { KeepsIdle (events_done result events.now) self.old.slots self.new.slots }
        ensures words { All HasInterruptWords records.old.items →
            All HasInterruptWords records.new.items }
        ensures missing { All (AnswersMissing (length self.old.slots)) records.old.items →
            All (AnswersMissing (length self.old.slots)) records.new.items }
        ensures stays { StaysInExtents I.disk self.old self.new }
    {
        for (done, event) in events.iter().enumerate() {
            if records.reserve(1).is_err() {
                return Err(RunStop { done });
            }
            let mut output = Vec::new(self.alloc);
            let handled = self.handle(event.slot, &event.what, &mut output);
            put(
                records,
                Record {
                    slot: event.slot,
                    reply: handled.reply,
                    output: Bytes::from(output),
                    block_irq: handled.block_irq,
                    console_irq: handled.console_irq,
                },
            );
        }
        Ok(())
    }

    /// Handles one event of a slot to its end, and tells both interrupt words after it. What its console puts out is
    /// appended to `out`.
    #[inline(always)]
    pub fn handle<O: Outlet>(&mut self, slot: u8, what: &EventKind<A>, out: &mut O) -> Handled<A>
        ensures handles { Tells (I.disk self.old.image) →
            Handles (world_of I.disk self.old) (record { slot = slot; what = what.now })
            result.reply result.block_irq result.console_irq
            (O.bytes out.old) (O.bytes out.new) (world_of I.disk self.new) }
        ensures within { DecidesSlot I.disk (O.limit out.old) slot self.old self.new (λ limit found after.
            TakesWithin limit found what.now after (O.bytes out.old) (O.bytes out.new) result.reply) }
        ensures limit { O.limit out.new ≡ O.limit out.old }
        ensures words { AreInterruptWords result.block_irq result.console_irq }
        ensures stays { StaysInExtents I.disk self.old self.new }
        ensures touches { TouchesSlot I.moment I.may_leave I.left_since slot self.old self.new }
        ensures noted { NotesRefusal I.disk slot (met_refusal result.reply) self.old self.new }
        ensures bad_slot { (result.reply ≡ Reply.BadSlot) ↔ (length self.old.slots ≤ slot) }
        ensures bad_slot_keeps { result.reply ≡ Reply.BadSlot → self.new ≡ self.old }
        ensures missing { length self.old.slots ≤ slot →
            IsMissed self.old self.new (O.bytes out.old) (O.bytes out.new) result.block_irq result.console_irq }
        ensures bad_range_keeps { result.reply ≡ Reply.BadRange → self.new ≡ self.old }
        ensures others { KeepsOthers slot self.old.slots self.new.slots }
        ensures no_memory { result.reply ≡ Reply.NoMemory →
            HoldsAt slot self.old.slots (λ state. MayLackMemory state what.now) }
    {
        let Taken {
            turn,
            block_irq,
            console_irq,
        } = self.turn(slot, Work::Begin(what), Budget::UNLIMITED, out);
        match turn {
            Turn::Answered(reply) => Handled {
                reply,
                block_irq,
                console_irq,
            },
            Turn::More(_) => unreachable!(),
        }
    }
}

impl<I: Image, A: Allocator> Board<I, A> {
    /// Whether an event of the slot has met a refusal since the board was made: there was no memory for
    /// its answer, or a call of the image failed in it. There is no answer for a slot that isn't there.
    pub fn disturbed(&self, slot: u8) -> Option<bool>
        ensures { result ≡ slice_get (disturbed_of self.now.slots) slot }
    {
        let slot = self.slot(slot)?;
        Some(slot.slot().is_disturbed())
    }

    // The slot of that number.
    fn slot(&self, slot: u8) -> Option<&Guest<A>>
        ensures there { IfSome result (λ found. slice_get self.now.slots slot ≡ Some found.now) }
        ensures missing { IfNone result (slice_get self.now.slots slot ≡ None) }
    {
        self.slots.get(slot as usize)
    }

    /// Gives the image back as it stands.
    pub fn into_image(self) -> I
        ensures { result ≡ self.image }
    {
        let Board {
            slots: _,
            cache,
            alloc: _,
        } = self;
        cache.into_image()
    }
}

// Appends a record to a list that has room for it.
fn put<A: Allocator>(records: &mut Vec<Record<A>, A>, entry: Record<A>)
    requires { vec_len records.old < vec_capacity records.old }
    ensures { records.new.items ≡ records.old.items ++ entry ∷ [] }
{
    if records.push(entry).is_err() {
        unreachable!()
    }
}
