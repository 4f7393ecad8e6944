//! The operations in flight of a disk that the host serves, in its window: what a look at the queue, a landing and a drop make of
//! the tags.

ghost use Rattle.std.specs.Prelude.{◌≡◌, ℕ, ◌*◌, ◌^◌, ◌<◌, [], All, IfNone, IfSome, List, Some, None, get_or, length};
ghost use Rattle.std.specs.Bool.{OnTrue, OnFalse};
ghost use Rattle.guest_memory.specs.Memory.{Memory, SameRange};
ghost use Rattle.sector_cache.specs.Disk.{Disk};
ghost use Rattle.mmio_window.specs.Soundness.{IsSound};
ghost use Rattle.mmio_window.specs.Window.{queue_at};
ghost use Rattle.mmio_window.specs.declared.stage.Stage.TheVariants.{Next};
ghost use Rattle.chain.specs.declared.segment.Buffer.{Buffer};
ghost use Rattle.block_device.specs.declared.hosting.Hosted.{Hosted};
ghost use Rattle.block_device.specs.Extent.{sector_len};
ghost use Rattle.block_device.specs.Flights.{AreHeld, HostedQueue, InFlight, IsLanding, IsLook, IsLookTo, LooksOnWithin, StopsWithin, given_up};
ghost use Rattle.block_device.specs.Tags.{TagIsHeld, free_tag};
ghost use Rattle.block_device.specs.Hosting.{HostsTo, HostsWithin, hosted_by};

use crate::device::{BlockDevice, REQUESTQ};
use crate::hosting::Hosted;
use crate::operation::Verdict;
use crate::tags::{Tag, Tags, with_tag};
use chain::{Budget, Chain, Progress};
use guest_memory::GuestMemory;
use mmio_window::{Stage, Token, Window};
use std::alloc::{Allocator, Global};

/// The tags of one disk in a window. How many bytes the device may read of each chain in flight is noted, to be counted.
pub type Flights<A = Global> = Tags<Token, u32, A>;

impl BlockDevice {
    /// Looks at the queue: serves chains that ask for nothing, and puts those that ask into free tags, until none is on offer
    /// or no tag is free. `room` is for the buffers of each chain.
    pub fn look<M: Allocator, A: Allocator>(
        &self,
        mem: &mut GuestMemory<M>,
        window: &mut Window,
        flights: &mut Flights<A>,
        room: &mut Chain,
    )
        requires sound { IsSound mem.old window.old }
        requires disk { sector_len * self.now.extent.count < 2 ^ 64 }
        requires held { AreHeld self.now.extent.count (record { memory = mem.old; window = window.old; tags = flights.old }) }
        ensures looks { IsLook self.now (record { memory = mem.old; window = window.old; tags = flights.old })
            (record { memory = mem.new; window = window.new; tags = flights.new }) }
        ensures held { AreHeld self.now.extent.count (record { memory = mem.new; window = window.new; tags = flights.new }) }
        ensures depth { length flights.new ≡ length flights.old }
        ensures range { SameRange mem.old mem.new }
        ensures sound { IsSound mem.new window.new }
    {
        let _ = self.look_piece(mem, window, Stage::First, Budget::UNLIMITED, flights, room);
    }

    /// Looks at the queue within a budget, of which each chain takes a part, whether it asks or not. In a pause the queue stands
    /// open: the look goes on from `Stage::Next`.
    #[tactic(auto, using(crate::proofs::Looking::looks_first, crate::proofs::Looking::fewer_behind))]
    pub fn look_piece<M: Allocator, A: Allocator>(
        &self,
        mem: &mut GuestMemory<M>,
        window: &mut Window,
        stage: Stage,
        budget: Budget,
        flights: &mut Flights<A>,
        room: &mut Chain,
    ) -> Progress
        requires sound { IsSound mem.old window.old }
        requires disk { sector_len * self.now.extent.count < 2 ^ 64 }
        requires held { AreHeld self.now.extent.count (record { memory = mem.old; window = window.old; tags = flights.old }) }
        ensures looks { IsLookTo self.now stage budget result (record { memory = mem.old; window = window.old; tags = flights.old })
            (record { memory = mem.new; window = window.new; tags = flights.new }) }
        ensures held { AreHeld self.now.extent.count (record { memory = mem.new; window = window.new; tags = flights.new }) }
        ensures depth { length flights.new ≡ length flights.old }
        ensures range { SameRange mem.old mem.new }
        ensures sound { IsSound mem.new window.new }
    {
        let mut stage = stage;
        let mut left = budget;
        while let Some(tag) = flights.lowest_free() {
            if let Some(progress) = self.look_for(
                mem, window, stage, &mut left, flights, tag, room,
            ) {
                return progress;
            }
            stage = behind_a_chain();
        }
        Progress::Done
    }

    // Looks for the next chain that asks, and puts it into this tag, which is the lowest free one. Where none does within the budget
    // it answers how the look stops.
    #[inline(always)]
    fn look_for<M: Allocator, A: Allocator>(
        &self,
        mem: &mut GuestMemory<M>,
        window: &mut Window,
        stage: Stage,
        budget: &mut Budget,
        flights: &mut Flights<A>,
        tag: usize,
        room: &mut Chain,
    ) -> Option<Progress>
        requires sound { IsSound mem.old window.old }
        requires disk { sector_len * self.now.extent.count < 2 ^ 64 }
        requires lowest { free_tag flights.old ≡ Some tag }
        requires each { All (TagIsHeld self.now.extent.count mem.old) flights.old }
        ensures asks { IfNone result (LooksOnWithin self.now stage budget.old budget.new
            (record { memory = mem.old; window = window.old; tags = flights.old })
            (record { memory = mem.new; window = window.new; tags = flights.new })) }
        ensures stops { IfSome result (λ progress. StopsWithin self.now stage budget.old progress
            (record { memory = mem.old; window = window.old; tags = flights.old })
            (record { memory = mem.new; window = window.new; tags = flights.new })) }
        ensures each { All (TagIsHeld self.now.extent.count mem.new) flights.new }
        ensures range { SameRange mem.old mem.new }
        ensures sound { IsSound mem.new window.new }
    {
        let free = &mut flights.items[tag];
        if let Some(progress) = self.look_into(mem, window, stage, budget, free, room) {
            return Some(progress);
        }
        flights.taken = with_tag::<Token>(flights.taken, tag);
        None
    }

    // Looks for the next chain that asks, and puts it into this tag, which is free. Where none does it answers how the look stops.
    fn look_into<M: Allocator, A: Allocator>(
        &self,
        mem: &mut GuestMemory<M>,
        window: &mut Window,
        stage: Stage,
        budget: &mut Budget,
        tag: &mut Tag<Token, u32, A>,
        room: &mut Chain,
    ) -> Option<Progress>
        requires sound { IsSound mem.old window.old }
        requires disk { sector_len * self.now.extent.count < 2 ^ 64 }
        requires free { tag.old ≡ None }
        ensures asks { IfNone result ((here : InFlight) × (buffers : List Buffer) × (tag.new ≡ Some here) × ((disk : Disk) →
            HostsWithin self.now stage budget.old budget.new (queue_at 0 window.old) (Hosted.Asks here.flight)
            mem.old mem.new window.old window.new buffers here.runs disk)) }
        ensures stops { IfSome result (λ progress. (tag.new ≡ None) × ((disk : Disk) → HostsTo self.now stage budget.old
            (queue_at 0 window.old) (hosted_by progress) mem.old mem.new window.old window.new [] [] disk)) }
        ensures held { TagIsHeld self.now.extent.count mem.new tag.new }
        ensures range { SameRange mem.old mem.new }
        ensures sound { IsSound mem.new window.new }
    {
        let hosted = self.host_piece(mem, window, stage, budget, room, &mut tag.runs);
        match hosted {
            Hosted::Asks(flight) => {
                // What it ensures: there are fewer than 2^32 bytes.
                let _ = room.buffers();
                tag.flight = Some(flight);
                tag.note = room.readable_len() as u32;
                None
            }
            Hosted::Done => Some(Progress::Done),
            Hosted::More => Some(Progress::More),
        }
    }
}

impl<A: Allocator> Tags<Token, u32, A> {
    /// Completes the operation of this tag by what came of it: its chain is given back, unless the device has asked to be reset
    /// meanwhile, and the tag is free. Answers false, and changes nothing, where no operation has this tag.
    pub fn land<M: Allocator>(
        &mut self,
        mem: &mut GuestMemory<M>,
        window: &mut Window,
        capacity: u64,
        tag: usize,
        verdict: Verdict,
    ) -> bool
        requires sound { IsSound mem.old window.old }
        requires held { AreHeld capacity (record { memory = mem.old; window = window.old; tags = self.old }) }
        ensures lands { OnTrue result (IsLanding tag verdict
            (record { memory = mem.old; window = window.old; tags = self.old })
            (record { memory = mem.new; window = window.new; tags = self.new })) }
        ensures idle { OnFalse result (get_or self.old tag None ≡ None) }
        ensures kept { OnFalse result (◌≡◌ {A = HostedQueue} (record { memory = mem.new; window = window.new; tags = self.new })
            (record { memory = mem.old; window = window.old; tags = self.old })) }
        ensures held { AreHeld capacity (record { memory = mem.new; window = window.new; tags = self.new }) }
        ensures depth { length self.new ≡ length self.old }
        ensures range { SameRange mem.old mem.new }
        ensures sound { IsSound mem.new window.new }
    {
        let Some((flight, readable)) = self.take(tag) else {
            return false;
        };
        if window.may_serve(REQUESTQ) {
            let written = flight.complete(mem, window, verdict);
            self.count(readable, written);
        }
        true
    }

    // Counts a chain that was in flight.
    #[inline(always)]
    fn count(&mut self, readable: u32, written: u32)
        ensures { self.new ≡ self.old }
    {
        self.counts.used(readable, written);
    }

    /// Gives up what is in flight: each tag is free, nothing is written, and the device asks to be reset (2.1.2).
    pub fn give_up(&mut self, window: &mut Window)
        ensures given_up { (m : Memory) → ◌≡◌ {A = HostedQueue}
            (record { memory = m; window = window.new; tags = self.new })
            (given_up (record { memory = m; window = window.old; tags = self.old })) }
        ensures held { (capacity : ℕ) (m : Memory) →
            AreHeld capacity (record { memory = m; window = window.new; tags = self.new }) }
        ensures sound { (m : Memory) → IsSound m window.old → IsSound m window.new }
    {
        self.free_all();
        window.needs_reset();
    }
}

// The stage of a look behind a chain that asked: the queue stands open.
#[inline(always)]
fn behind_a_chain() -> Stage
    ensures { result ≡ Next }
{
    Stage::Next
}
