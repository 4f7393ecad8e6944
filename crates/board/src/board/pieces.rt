//! An event of a slot, and the pieces of its service.

ghost use Rattle.std.specs.Prelude.{◌≡◌, ◌≢◌, ◌↔◌, ◌<◌, ◌≤◌, [], Some, length};
ghost use Rattle.std.specs.List.{slice_get};
ghost use Rattle.board.specs.Durable.{TouchesSlot};
ghost use Rattle.board.specs.declared.in_place.InPlace.{InPlace};
ghost use Rattle.board.specs.declared.pause.Turn.{Turn};
ghost use Rattle.board.specs.declared.pause.Work.{Work};
ghost use Rattle.board.specs.declared.reply.Reply.{Reply};
ghost use Rattle.board.specs.Image.{Tells};
ghost use Rattle.board.specs.InPlace.{event_in};
ghost use Rattle.board.specs.Pausing.{Does, PausesByLimit, MayLackMemoryIn, TakesTurn, met_in};
ghost use Rattle.board.specs.Slot.{AreInterruptWords, BoardSlot, interrupt_words};
ghost use Rattle.board.specs.World.{Answers, HoldsAt, IsMissed, KeepsOthers, NotesRefusal, StaysInExtents, disturbed_of, extents_of, world_of};
ghost use Rattle.board.specs.Within.{DecidesSlot, DoesWithin};

use crate::board::Board;
use crate::guest::Guest;
use crate::in_place::InPlace;
use crate::pause::{Turn, Work};
use crate::reply::Reply;
use chain::Budget;
use console_device::Outlet;
use sector_cache::Image;
use std::alloc::{Allocator, Global};

/// A turn that the board took, and both interrupt words behind it.
#[derive(Drop)]
pub struct Taken<A: Allocator = Global> {
    pub turn: Turn<A>,
    pub block_irq: u8,
    pub console_irq: u8,
}

impl<A: Allocator> Taken<A> {
    // Where there is no such slot.
    #[inline(always)]
    fn missing() -> Taken<A>
        ensures { result ≡ record {
          turn = Turn.Answered Reply.BadSlot;
          block_irq = 0;
          console_irq = 0;
        } }
    {
        Taken {
            turn: Turn::Answered(Reply::BadSlot),
            block_irq: 0,
            console_irq: 0,
        }
    }

    // The slot took the turn.
    #[inline(always)]
    fn after(turn: Turn<A>, slot: &Guest<A>) -> Taken<A>
        ensures turn { result.turn ≡ turn }
        ensures shown { (result.block_irq, result.console_irq) ≡ interrupt_words slot.now }
        ensures words { AreInterruptWords result.block_irq result.console_irq }
    {
        let (block_irq, console_irq) = slot.interrupts();
        Taken {
            turn,
            block_irq,
            console_irq,
        }
    }
}

impl<I: Image, A: Allocator + Copy> Board<I, A> {
    /// A slot takes a turn, in which its service may pause where the budget is spent: an event begins, or a service that
    /// paused goes on. What its console puts out is appended to `out`; an event whose bytes are in a slice puts nothing out.
    #[inline(always)]
    pub fn turn<O: Outlet>(
        &mut self,
        slot: u8,
        work: Work<'_, A>,
        budget: Budget,
        out: &mut O,
    ) -> Taken<A>
        ensures takes { Tells (I.disk self.old.image) → slot < length self.old.slots →
            TakesTurn (Does work.entry budget) (world_of I.disk self.old) slot result.turn
            result.block_irq result.console_irq (O.bytes out.old) (O.bytes out.new) (world_of I.disk self.new) }
        ensures within { DecidesSlot I.disk (O.limit out.old) slot self.old self.new (λ limit found after.
            DoesWithin limit work.entry budget found after (O.bytes out.old) (O.bytes out.new) result.turn) }
        ensures limit { O.limit out.new ≡ O.limit out.old }
        ensures silent { (what : InPlace) → work.entry ≡ Work.InPlace what → O.bytes out.new ≡ O.bytes out.old }
        ensures shown { (found : BoardSlot) → slice_get self.new.slots slot ≡ Some found →
            (result.block_irq, result.console_irq) ≡ interrupt_words found }
        ensures words { AreInterruptWords result.block_irq result.console_irq }
        ensures stays { StaysInExtents I.disk self.old self.new }
        ensures touches { TouchesSlot I.moment I.may_leave I.left_since slot self.old self.new }
        ensures noted { NotesRefusal I.disk slot (met_in result.turn) self.old self.new }
        ensures limited { PausesByLimit budget result.turn }
        ensures bad_slot { (result.turn ≡ Turn.Answered Reply.BadSlot) ↔ (length self.old.slots ≤ slot) }
        ensures missing { length self.old.slots ≤ slot →
            IsMissed self.old self.new (O.bytes out.old) (O.bytes out.new) result.block_irq result.console_irq }
        ensures bad_range_keeps { result.turn ≡ Turn.Answered Reply.BadRange → self.new ≡ self.old }
        ensures others { KeepsOthers slot self.old.slots self.new.slots }
        ensures no_memory { result.turn ≡ Turn.Answered Reply.NoMemory →
            HoldsAt slot self.old.slots (MayLackMemoryIn work.entry) }
    {
        let Some(slot) = self.slots.get_mut(slot as usize) else {
            return Taken::missing();
        };
        let turn = slot.turn(self.alloc, work, budget, &mut self.cache, out);
        Taken::after(turn, slot)
    }

    /// Does an event whose bytes are in a slice to its end: its answer. No memory is taken.
    pub fn do_in_place(&mut self, slot: u8, what: InPlace<'_>) -> Reply<A>
        ensures step { Tells (I.disk self.old.image) → Answers (world_of I.disk self.old)
            (record { slot = slot; what = event_in what.entry }) result [] [] (world_of I.disk self.new) }
        ensures others { KeepsOthers slot self.old.slots self.new.slots }
        ensures stays { StaysInExtents I.disk self.old self.new }
        ensures touches { TouchesSlot I.moment I.may_leave I.left_since slot self.old self.new }
    {
        let mut nothing: Vec<u8, A> = Vec::new(self.alloc);
        let Taken {
            turn,
            block_irq: _,
            console_irq: _,
        } = self.turn(slot, Work::InPlace(what), Budget::UNLIMITED, &mut nothing);
        match turn {
            Turn::Answered(reply) => reply,
            Turn::More(_) => unreachable!(),
        }
    }
}
