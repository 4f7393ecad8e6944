//! What the host is asked to do with a guest's disks that it serves, and what it says of them. Nothing here takes memory.

ghost use Rattle.std.specs.Prelude.{◌≡◌, ◌≢◌, ◌↔◌, ◌≤◌, All, length, IfOk, IfSome, IsErrOf, IsSomeAnd};
ghost use Rattle.std.specs.List.{slice_get};
ghost use Rattle.std.specs.Option.{option_map};
ghost use Rattle.block_device.specs.Tags.{TagIsHeld};
ghost use Rattle.board.specs.HostedDisks.{saying};
ghost use Rattle.session.specs.declared.progress.Progress.{Progress};
ghost use Rattle.session.specs.declared.refusal.Refusal.{Refusal};
ghost use Rattle.board.specs.declared.slot_disk.SlotDisk.{SlotDisk};
ghost use Rattle.session.specs.Answering.{Means, SuitsCall, served_response};
ghost use Rattle.session.specs.Operations.{AskedBy, HasNoDisk, HasNothing, hosted_disk_at, in_flight_at};
ghost use Rattle.session.specs.Pausing.{IsEventCall, IsToldCall};
ghost use Rattle.session.specs.Session.{IsIdle, waits_at};

use crate::progress::{Progress, has_asked_by, served};
use crate::response::Turned;
use crate::session::Session;
use crate::told::Told;
use crate::turn_kind::TurnKind;
use board::{DeviceEvent, EventKind, HostEvent, HostedDisk, SlotDisk};
use std::alloc::Allocator;

impl<A: Allocator + Copy> Session<A> {
    /// The host says this of a guest's disk: an operation was done or failed, what is in flight is given up, as no transfer touches
    /// its memory any more, or no further chain is taken, or chains are taken again. With a completion and a release operations may
    /// begin. It is refused for a bad slot, for a further device that is no such disk, while a service of the slot is paused, and
    /// where there is nothing to do, as with a slot's own disk that is of the image.
    #[inline(always)]
    pub fn tell(&mut self, slot: u8, disk: SlotDisk, said: HostEvent) -> Told<Progress>
        ensures call { IsToldCall {A = A} self.old slot (saying disk said) (Means served_response result.answer) self.new }
        ensures asks { IfOk result.answer (λ progress. (progress ≡ Progress.Asks) ↔
            AskedBy said (in_flight_at slot disk self.old.slots) (in_flight_at slot disk self.new.slots)) }
        ensures at_once { IfOk result.answer (λ progress. progress ≢ Progress.More) }
        ensures bad_slot { IsErrOf result.answer Refusal.BadSlot ↔ (length self.old.slots ≤ slot) }
        ensures busy { IsErrOf result.answer Refusal.Busy ↔ ¬ IsIdle slot self.old }
        ensures bad_device { IsErrOf result.answer Refusal.BadDevice ↔
            (IsIdle slot self.old × HasNoDisk slot disk self.old.slots) }
        ensures idle { IsErrOf result.answer Refusal.Idle ↔
            (IsIdle slot self.old × HasNothing slot disk said self.old.slots) }
        ensures waits { result.waits ≡ waits_at slot self.new }
    {
        let before = self.in_flight(slot, disk);
        let Turned { response, waits } = self.say(slot, disk, said);
        let after = self.in_flight(slot, disk);
        let asks = has_asked_by(said, before, after);
        Told {
            answer: served(response, asks),
            waits,
        }
    }

    // The event by which the host says this of a disk.
    #[inline(always)]
    fn say(&mut self, slot: u8, disk: SlotDisk, said: HostEvent) -> Turned<A>
        ensures call { IsEventCall self.old slot (saying disk said) result.response self.new }
        ensures suits { SuitsCall {A = A} (saying disk said) result.response }
        ensures as_many { length self.old.paused ≡ length self.old.slots }
        ensures waits { result.waits ≡ waits_at slot self.new }
    {
        match disk {
            SlotDisk::Own => self.turn(slot, TurnKind::Begin(&EventKind::Host(said))),
            SlotDisk::Further(device) => self.say_further(slot, device, said),
        }
    }

    // That of a further disk.
    #[inline(never)]
    fn say_further(&mut self, slot: u8, device: u8, said: HostEvent) -> Turned<A>
        ensures call { IsEventCall self.old slot (saying (SlotDisk.Further device) said) result.response self.new }
        ensures suits { SuitsCall {A = A} (saying (SlotDisk.Further device) said) result.response }
        ensures as_many { length self.old.paused ≡ length self.old.slots }
        ensures waits { result.waits ≡ waits_at slot self.new }
    {
        let what = DeviceEvent::Host(said);
        self.turn(slot, TurnKind::Begin(&EventKind::Device { device, what }))
    }
}

impl<A: Allocator> Session<A> {
    /// A guest's disk that its host serves: what is in flight, by tags. There is no answer where there is no such slot or device, and
    /// where the host serves no such disk.
    #[inline(always)]
    pub fn disk(&self, slot: u8, disk: SlotDisk) -> Option<&HostedDisk<A>>
        ensures value { option_map (λ disk. disk.now) result ≡ hosted_disk_at slot disk self.now.slots }

        // nothing that the host is told lies outside the guest's memory or the disk, whatever the guest has done since
        ensures inside { IfSome result (λ disk. IsSomeAnd (slice_get self.now.slots slot) (λ found.
            All (TagIsHeld disk.now.device.extent.count found.memory) disk.now.tags)) }
    {
        self.board.disk(slot, disk)
    }

    /// The tags that are in flight of a guest's disk: bit n is set where tag n is. None is of a slot's own disk that is of the image.
    /// There is no answer where there is no such slot or device, and where a further device is no such disk.
    #[inline(always)]
    pub fn in_flight(&self, slot: u8, disk: SlotDisk) -> Option<u64>
        ensures { result ≡ in_flight_at slot disk self.now.slots }
    {
        if let Some(found) = self.disk(slot, disk) {
            return Some(found.taken());
        }
        match disk {
            SlotDisk::Own if usize::from(slot) < self.slots() => Some(0),
            _ => None,
        }
    }
}
