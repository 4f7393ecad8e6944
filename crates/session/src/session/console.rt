//! A guest's console, from the outside: what is typed, its size, and what it puts out.

ghost use Rattle.std.specs.Prelude.{◌≡◌, ◌≢◌, ◌⊎◌, ◌<◌, ◌≤◌, ◌↔◌, length, min, take, drop, ◌++◌, Some, IsSome, IfSome, IfNone, IfOk, IfErr, IsErrOf};
ghost use Rattle.board.specs.declared.event.EventKind.{EventKind};
ghost use Rattle.session.specs.declared.progress.Progress.{Progress};
ghost use Rattle.session.specs.declared.refusal.Refusal.{Refusal};
ghost use Rattle.session.specs.Answering.{Means, done_response, handed_response};
ghost use Rattle.session.specs.Course.{IsTaken};
ghost use Rattle.session.specs.Pausing.{IsToldCall, taken_at};
ghost use Rattle.session.specs.Session.{IsIdle, output_of, waits_at};

use crate::handed::{Handed, handing};
use crate::refusal::Refusal;
use crate::response::Turned;
use crate::session::Session;
use crate::told::{Told, done};
use crate::turn_kind::TurnKind;
use board::{EventKind, InPlace};
use std::alloc::Allocator;

impl<A: Allocator + Copy> Session<A> {
    /// Types bytes to the guest's console, and answers how many were taken: the first ones. A console keeps
    /// 4096 until its guest reads them. Where more is to come, `go_on` goes on with the service of its receive queue. It
    /// is refused for a bad slot, and while a service of the slot is paused.
    pub fn input(&mut self, slot: u8, bytes: &[u8]) -> Told<Handed>
        ensures call { IsToldCall {A = A} self.old slot (EventKind.Input bytes.now)
            (Means handed_response result.answer) self.new }
        ensures taken { IfOk result.answer (λ handed. handed.progress ≡ Progress.More →
            taken_at slot self.new ≡ Some handed.taken) }
        ensures never_asks { IfOk result.answer (λ handed. handed.progress ≢ Progress.Asks) }
        ensures refused { IfErr result.answer (λ why. (why ≡ Refusal.BadSlot) ⊎ (why ≡ Refusal.Busy)) }
        ensures bad_slot { IsErrOf result.answer Refusal.BadSlot ↔ (length self.old.slots ≤ slot) }
        ensures busy { IsErrOf result.answer Refusal.Busy ↔ ¬ IsIdle slot self.old }
        ensures waits { result.waits ≡ waits_at slot self.new }
    {
        let Turned { response, waits } = self.begin_in_place(slot, InPlace::Input(bytes));
        let taken = self.taken(slot);
        Told {
            answer: handing(response, taken),
            waits,
        }
    }

    /// Gives the guest's console another size, of which its driver is told. It is refused for a bad slot, and while a
    /// service of the slot is paused.
    pub fn resize(&mut self, slot: u8, cols: u16, rows: u16) -> Told<()>
        ensures call { IsToldCall {A = A} self.old slot (EventKind.Resize cols rows)
            (Means done_response result.answer) self.new }
        ensures bad_slot { IsErrOf result.answer Refusal.BadSlot ↔ (length self.old.slots ≤ slot) }
        ensures busy { IsErrOf result.answer Refusal.Busy ↔ ¬ IsIdle slot self.old }
        ensures waits { result.waits ≡ waits_at slot self.new }
    {
        let what = EventKind::Resize { cols, rows };
        let Turned { response, waits } = self.turn(slot, TurnKind::Begin(&what));
        Told {
            answer: done(response),
            waits,
        }
    }
}

impl<A: Allocator> Session<A> {
    // How many bytes the event took whose service is paused, where it handed in some.
    pub(crate) fn taken(&self, slot: u8) -> Option<usize>
        ensures { result ≡ taken_at slot self.now }
    {
        self.paused(slot)?.taken
    }

    /// What the slot's console put out and nobody has taken yet, in two parts.
    pub fn output(&self, slot: u8) -> Option<(&[u8], &[u8])>
        ensures there { IsSome result ↔ (slot < length self.now.slots) }
        ensures value { IfSome result (λ parts. parts.0.now ++ parts.1.now ≡ output_of slot self.now) }
    {
        let output = self.outputs.get(slot as usize)?;
        Some(output.waiting())
    }

    /// How many bytes of what the slot's console put out wait to be taken.
    pub fn output_len(&self, slot: u8) -> Option<usize>
        ensures there { IsSome result ↔ (slot < length self.now.slots) }
        ensures value { IfSome result (λ count. count ≡ length (output_of slot self.now)) }
    {
        let output = self.outputs.get(slot as usize)?;
        Some(output.len())
    }

    /// Moves the first bytes of what the slot's console put out into `into`, as many as find room, and
    /// answers how many they are. The others stay.
    pub fn take_output(&mut self, slot: u8, into: &mut [u8]) -> Option<usize>
        ensures there { IsSome result ↔ (slot < length self.old.slots) }
        ensures count { IfSome result (λ count.
            count ≡ min (length (output_of slot self.old)) (length into.old)) }
        ensures moved { IfSome result (λ count.
            into.new ≡ take count (output_of slot self.old) ++ drop count into.old) }
        ensures taken { IfSome result (λ count.
            IsTaken self.old slot (length into.old) (take count (output_of slot self.old)) self.new) }
        ensures missing { IfNone result (self.new ≡ self.old) }
        ensures missing_into { IfNone result (into.new ≡ into.old) }
    {
        let output = self.outputs.get_mut(slot as usize)?;
        Some(output.take(into))
    }
}
