//! What a guest does to its devices' registers, and the words that stand for its interrupt lines.

ghost use Rattle.std.specs.Prelude.{◌≡◌, ◌⊎◌, ◌↔◌, ◌<◌, ◌≤◌, IfOk, IfSome, IsErrOf, IsSome, IsSomeAnd, length, false};
ghost use Rattle.std.specs.List.{slice_get};
ghost use Rattle.std.specs.Option.{option_map};
ghost use Rattle.board.specs.declared.event.EventKind.{EventKind};
ghost use Rattle.board.specs.Slot.{interrupt_words, state_of};
ghost use Rattle.board.specs.Within.{MayPutOut};
ghost use Rattle.session.specs.declared.progress.Progress.{Progress};
ghost use Rattle.session.specs.declared.refusal.Refusal.{Refusal};
ghost use Rattle.session.specs.Answering.{Means, served_response, value_response, went_on_to};
ghost use Rattle.board.specs.declared.slot_disk.SlotDisk.{SlotDisk};
ghost use Rattle.session.specs.Operations.{HasAsked, HoldsUp};
ghost use Rattle.session.specs.Pausing.{IsToldCall, WentOn};
ghost use Rattle.session.specs.Session.{IsIdle, waits_at};
ghost use Rattle.session.specs.Windows.{device_line, line_by, lines_of};

use crate::progress::{Progress, has_asked, served};
use crate::refusal::Refusal;
use crate::response::{Response, Turned};
use crate::session::Session;
use crate::told::Told;
use crate::turn_kind::TurnKind;
use board::{Counters, EventKind, FaultNote, Reply, SlotDisk, SlotWindow};
use std::alloc::Allocator;

impl<A: Allocator + Copy> Session<A> {
    /// A guest's read of `width` bytes, 1, 2 or 4, at an offset of a window: what its register gets,
    /// extended by zeros. It is refused for a bad slot, and while a service of the slot is paused.
    pub fn read(
        &mut self,
        slot: u8,
        window: SlotWindow,
        offset: u16,
        width: u8,
    ) -> Result<u32, Refusal>
        ensures call { IsToldCall {A = A} self.old slot (EventKind.Read window offset width)
            (Means value_response result) self.new }
        ensures bad_slot { IsErrOf result Refusal.BadSlot ↔ (length self.old.slots ≤ slot) }
        ensures busy { IsErrOf result Refusal.Busy ↔ ¬ IsIdle slot self.old }
    {
        if self.is_paused(slot) {
            return Err(Refusal::Busy);
        }
        match self.board.read(slot, window, offset, width) {
            Some(value) => Ok(value),
            None => Err(Refusal::BadSlot),
        }
    }

    /// A guest's write. What it notifies is served to its end, or until the budget is spent: then more is to come, and
    /// `go_on` goes on with it. A disk that the host serves goes on while a tag is free for each request that asks
    /// for something; while one is taken a write of the block window's Status or QueueReady is busy. Where what the guest's console puts out doesn't fit
    /// behind what waits the write is refused: the chain stays on offer, those before it are served, and the same write goes
    /// on with it once there is room.
    pub fn write(
        &mut self,
        slot: u8,
        window: SlotWindow,
        offset: u16,
        width: u8,
        value: u32,
    ) -> Told<Progress>
        ensures call { IsToldCall {A = A} self.old slot (EventKind.Write window offset width value)
            (Means served_response result.answer) self.new }
        ensures asks { IfOk result.answer (λ progress.
            (progress ≡ Progress.Asks) ↔ HasAsked slot SlotDisk.Own self.old self.new) }
        ensures bad_slot { IsErrOf result.answer Refusal.BadSlot ↔ (length self.old.slots ≤ slot) }
        ensures busy { IsErrOf result.answer Refusal.Busy ↔ ((¬ IsIdle slot self.old)
            ⊎ HoldsUp {A = A} slot (EventKind.Write window offset width value) self.old) }
        ensures no_room { IsErrOf result.answer Refusal.NoRoom → IsSomeAnd (slice_get self.old.slots slot)
            (λ found. MayPutOut {A = A} (state_of self.old.image found) (EventKind.Write window offset width value)) }
        ensures waits { result.waits ≡ waits_at slot self.new }
    {
        let what = EventKind::Write {
            window,
            offset,
            width,
            value,
        };
        let before = self.in_flight(slot, SlotDisk::Own);
        let Turned { response, waits } = self.turn(slot, TurnKind::Begin(&what));
        let after = self.in_flight(slot, SlotDisk::Own);
        let asks = has_asked(before, after);
        Told {
            answer: served(response, asks),
            waits,
        }
    }

    /// Goes on with the service of a slot that is paused, within the budget of one call, and answers as the write did
    /// that it serves. Where none is paused there is nothing left to do. Operations of a further disk may begin with it, which
    /// isn't told: `in_flight` says it.
    pub fn go_on<'s>(&'s mut self, slot: u8) -> Told<Progress>
        ensures call { WentOn A self.old slot result.answer self.new }
        ensures asks { IfOk result.answer (λ progress.
            (progress ≡ Progress.Asks) ↔ HasAsked slot SlotDisk.Own self.old self.new) }
        ensures waits { result.waits ≡ waits_at slot self.new }
    {
        let kind: TurnKind<'s, A> = TurnKind::Resume;
        let Turned { response, waits } = self.turn(slot, kind);
        Told {
            answer: went_on(response),
            waits,
        }
    }
}

// What is told of a service that went on.
#[inline(always)]
fn went_on<A: Allocator>(response: Response<A>) -> Result<Progress, Refusal>
    ensures { result ≡ went_on_to response }
{
    match response {
        Response::Answered(Reply::BadSlot) => Err(Refusal::BadSlot),
        Response::Answered(Reply::NoMemory) => Err(Refusal::NoRoom),
        Response::Answered(_) | Response::Idle => Ok(Progress::Done),
        Response::More => Ok(Progress::More),
        Response::Busy => Err(Refusal::Busy),
    }
}

impl<A: Allocator> Session<A> {
    /// InterruptStatus of the slot's block window and of its console window, in this order (4.2.2).
    /// A window's interrupt line is raised while its word isn't 0.
    pub fn interrupts(&self, slot: u8) -> Option<(u8, u8)>
        ensures { result ≡ option_map interrupt_words (slice_get self.now.slots slot) }
    {
        self.board.interrupts(slot)
    }

    /// The interrupt lines of all windows of the slot, as a set of bits: bit 0 is set where the line of the block window is high,
    /// bit 1 for the console window, and bit 2 + n for that of further device n. A line is high while its window's
    /// InterruptStatus isn't 0 (4.2.2).
    #[tactic(auto, using(crate::proofs::Windows::all_lines))]
    pub fn lines(&self, slot: u8) -> Option<u32>
        ensures { result ≡ option_map lines_of (slice_get self.now.slots slot) }
    {
        let (block, console) = self.board.interrupts(slot)?;
        let low = self.device_line(slot, 0)
            + 2 * self.device_line(slot, 1)
            + 4 * self.device_line(slot, 2);
        let high = self.device_line(slot, 3)
            + 2 * self.device_line(slot, 4)
            + 4 * self.device_line(slot, 5);
        Some(line_by(block) + 2 * line_by(console) + 4 * (low + 8 * high))
    }

    // The line of a further device's window: 1 where it is high, and 0 where it is low or there is no such device.
    fn device_line(&self, slot: u8, device: u8) -> u32
        ensures value { IfSome (slice_get self.now.slots slot) (λ found. result ≡ device_line device found) }
        ensures bit { result ≤ 1 }
    {
        match self.board.device(slot, device) {
            Some(found) => line_by(found.interrupts()),
            None => 0,
        }
    }

    /// Whether a call of the image failed in an event of the slot. None of an image in memory does.
    pub fn disturbed(&self, slot: u8) -> Option<bool>
        ensures { result ≡ option_map (λ found. false) (slice_get self.now.slots slot) }
    {
        self.board.memory(slot).map(|_| false)
    }

    /// What the slot's devices did since the session was made. A restore keeps the numbers.
    pub fn counters(&self, slot: u8) -> Option<Counters>
        ensures { IsSome result ↔ (slot < length self.now.slots) }
    {
        self.board.counters(slot)
    }

    /// The last fault of a window of the slot, by which the window asked for a reset, and where it was met: none until one
    /// came. It is told in a pause and in flight too. A reset of the window and a restore keep it.
    pub fn last_fault(&self, slot: u8, window: SlotWindow) -> Option<FaultNote>
        ensures { IsSome result → slot < length self.now.slots }
    {
        self.board.last_fault(slot, window)
    }

    /// How many slots there are, from 1 to 64. They are numbered from 0.
    pub fn slots(&self) -> usize
        ensures { result ≡ length self.now.slots }
    {
        self.board.slots()
    }
}

// The line of a window with this InterruptStatus: 1 where it is high, else 0.
fn line_by(word: u8) -> u32
    ensures value { result ≡ line_by word }
    ensures bit { result ≤ 1 }
{
    u32::from(word != 0)
}
