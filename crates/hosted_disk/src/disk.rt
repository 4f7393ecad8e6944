//! The disk, and what its driver and its host do to it.

ghost use Rattle.std.specs.Prelude.{◌≡◌, ◌*◌, ◌^◌, ◌<◌, ◌≤◌, IfOk, None, get_or};
ghost use Rattle.std.specs.Bool.{OnTrue, OnFalse};
ghost use Rattle.guest_memory.specs.Memory.{Memory, SameRange};
ghost use Rattle.mmio_window.specs.Soundness.{IsSound};
ghost use Rattle.block_device.specs.Extent.{sector_len};
ghost use Rattle.block_device.specs.Flights.{IsLanding, given_up};
ghost use Rattle.block_device.specs.Tags.{is_any};
ghost use Rattle.hosted_disk.specs.Disk.{HoldsFlights, LooksAtQueue, LooksAtQueueTo, ServesDisk, ServesDiskTo, fresh_disk, must_wait, queue_of};
ghost use Rattle.hosted_disk.specs.Told.{DoesAsTold, has_effect};

use block_device::{BlockDevice, Extent, Flights, HostEvent, REQUESTQ, Verdict};
use chain::{Budget, Chain, Progress};
use guest_memory::GuestMemory;
use mmio_window::{Stage, Window, may_stop_queues};
use std::alloc::{AllocError, Allocator, Global};
use std::marker::Model;

/// A disk that its host serves.
#[derive(Drop)]
pub struct HostedDisk<A: Allocator = Global> {
    pub(crate) device: BlockDevice,
    pub(crate) flights: Flights<A>,
    // Whether no further chain of its queue is taken.
    pub(crate) on_hold: bool,
}

impl<A: Allocator> Model for HostedDisk<A> {
    ghost use Rattle.std.specs.Prelude.{◌*◌, ◌^◌, ◌<◌};
    ghost use Rattle.block_device.specs.Extent.{sector_len};
    ghost use Rattle.hosted_disk.specs.Disk.{HostedDisk};

    ghost Value = { HostedDisk };

    ghost view = { λ d. record { device = d.device; tags = d.flights; on_hold = d.on_hold } };

    ghost invariant = { λ d. sector_len * d.device.extent.count < 2 ^ 64 };
}

impl<A: Allocator + Copy> HostedDisk<A> {
    /// A disk of so many sectors of which so many operations may be in flight, and none is. All the memory that it will ever
    /// need is taken here.
    pub fn new(
        alloc: A,
        sectors: u64,
        read_only: bool,
        identity: [u8; 20],
        depth: u8,
    ) -> Result<HostedDisk<A>, AllocError>
        requires sectors { sector_len * sectors < 2 ^ 64 }
        requires depth { depth ≤ 64 }
        ensures { IfOk result (λ disk. disk ≡ fresh_disk sectors read_only identity depth) }
    {
        let flights = Flights::new(alloc, depth as usize)?;
        let extent = Extent {
            start: 0,
            count: sectors,
        };
        Ok(HostedDisk {
            device: BlockDevice::new(extent, read_only, identity),
            flights,
            on_hold: false,
        })
    }
}

impl<A: Allocator> HostedDisk<A> {
    /// Whether a write at this offset of its window waits for what is in flight: one that may stop its queue.
    pub fn must_wait(&self, offset: u16) -> bool
        ensures { result ≡ must_wait offset self.now }
    {
        self.flights.is_busy() && may_stop_queues(offset)
    }

    /// Has no further chain of its queue taken, or has them taken again. The queue isn't looked at.
    pub fn set_on_hold(&mut self, on_hold: bool)
        ensures { self.new ≡ record self.old { on_hold = on_hold } }
    {
        self.on_hold = on_hold;
    }

    /// Serves the queue of this number in its window, which was notified: chains that ask the host for something take free tags,
    /// unless the queue is on hold. `room` is where the chains stand, one after another.
    pub fn serve<M: Allocator>(
        &mut self,
        q: u16,
        mem: &mut GuestMemory<M>,
        window: &mut Window,
        room: &mut Chain,
    )
        requires sound { IsSound mem.old window.old }
        requires held { HoldsFlights mem.old window.old self.old }
        ensures serves { ServesDisk self.old q mem.old mem.new window.old window.new self.new }
        ensures device { self.new.device ≡ self.old.device }
        ensures kind { window.new.kind ≡ window.old.kind }
        ensures offered { window.new.negotiation.offered ≡ window.old.negotiation.offered }
        ensures range { SameRange mem.old mem.new }
        ensures sound { IsSound mem.new window.new }
        ensures held { HoldsFlights mem.new window.new self.new }
    {
        if q == REQUESTQ {
            self.look(mem, window, room);
        }
    }

    /// The same within a budget: in a pause the queue stands open, and `Stage::Next` goes on.
    pub fn serve_piece<M: Allocator>(
        &mut self,
        q: u16,
        mem: &mut GuestMemory<M>,
        window: &mut Window,
        stage: Stage,
        budget: Budget,
        room: &mut Chain,
    ) -> Progress
        requires sound { IsSound mem.old window.old }
        requires held { HoldsFlights mem.old window.old self.old }
        ensures serves { ServesDiskTo stage budget result self.old q mem.old mem.new window.old window.new self.new }
        ensures device { self.new.device ≡ self.old.device }
        ensures kind { window.new.kind ≡ window.old.kind }
        ensures offered { window.new.negotiation.offered ≡ window.old.negotiation.offered }
        ensures range { SameRange mem.old mem.new }
        ensures sound { IsSound mem.new window.new }
        ensures held { HoldsFlights mem.new window.new self.new }
    {
        if q == REQUESTQ {
            self.look_piece(mem, window, stage, budget, room)
        } else {
            Progress::Done
        }
    }

    /// Does what the host says, and looks at the queue where further chains may be taken. False where there is nothing to do:
    /// nothing has changed then.
    pub fn tell<M: Allocator>(
        &mut self,
        said: HostEvent,
        mem: &mut GuestMemory<M>,
        window: &mut Window,
        room: &mut Chain,
    ) -> bool
        requires sound { IsSound mem.old window.old }
        requires held { HoldsFlights mem.old window.old self.old }
        ensures found { result ≡ has_effect said self.old }
        ensures does { OnTrue result (DoesAsTold said self.old mem.old mem.new window.old window.new self.new) }
        ensures kept { OnFalse result (self.new ≡ self.old) }
        ensures unwritten { OnFalse result (mem.new ≡ mem.old) }
        ensures untouched { OnFalse result (window.new ≡ window.old) }
        ensures device { self.new.device ≡ self.old.device }
        ensures kind { window.new.kind ≡ window.old.kind }
        ensures offered { window.new.negotiation.offered ≡ window.old.negotiation.offered }
        ensures range { SameRange mem.old mem.new }
        ensures sound { IsSound mem.new window.new }
        ensures held { HoldsFlights mem.new window.new self.new }
    {
        match said {
            HostEvent::Complete { tag, verdict } => {
                if !self.land(tag, verdict, mem, window) {
                    return false;
                }
                self.look(mem, window, room);
                true
            }
            HostEvent::Drop => self.give_up(window),
            HostEvent::Hold => {
                let free = !self.on_hold;
                self.on_hold = true;
                free
            }
            HostEvent::Release => {
                if !self.on_hold {
                    return false;
                }
                self.on_hold = false;
                self.look(mem, window, room);
                true
            }
        }
    }

    // Looks at the queue, unless it is on hold.
    fn look<M: Allocator>(
        &mut self,
        mem: &mut GuestMemory<M>,
        window: &mut Window,
        room: &mut Chain,
    )
        requires sound { IsSound mem.old window.old }
        requires held { HoldsFlights mem.old window.old self.old }
        ensures looks { LooksAtQueue self.old mem.old mem.new window.old window.new self.new }
        ensures device { self.new.device ≡ self.old.device }
        ensures kind { window.new.kind ≡ window.old.kind }
        ensures offered { window.new.negotiation.offered ≡ window.old.negotiation.offered }
        ensures range { SameRange mem.old mem.new }
        ensures sound { IsSound mem.new window.new }
        ensures held { HoldsFlights mem.new window.new self.new }
    {
        if !self.on_hold {
            self.device.look(mem, window, &mut self.flights, room);
        }
    }

    // A piece of that, within a budget.
    fn look_piece<M: Allocator>(
        &mut self,
        mem: &mut GuestMemory<M>,
        window: &mut Window,
        stage: Stage,
        budget: Budget,
        room: &mut Chain,
    ) -> Progress
        requires sound { IsSound mem.old window.old }
        requires held { HoldsFlights mem.old window.old self.old }
        ensures looks { LooksAtQueueTo stage budget result self.old mem.old mem.new window.old window.new self.new }
        ensures device { self.new.device ≡ self.old.device }
        ensures kind { window.new.kind ≡ window.old.kind }
        ensures offered { window.new.negotiation.offered ≡ window.old.negotiation.offered }
        ensures range { SameRange mem.old mem.new }
        ensures sound { IsSound mem.new window.new }
        ensures held { HoldsFlights mem.new window.new self.new }
    {
        if self.on_hold {
            return Progress::Done;
        }
        self.device
            .look_piece(mem, window, stage, budget, &mut self.flights, room)
    }

    // Completes the operation of this tag. False where no operation has the tag.
    fn land<M: Allocator>(
        &mut self,
        tag: u8,
        verdict: Verdict,
        mem: &mut GuestMemory<M>,
        window: &mut Window,
    ) -> bool
        requires sound { IsSound mem.old window.old }
        requires held { HoldsFlights mem.old window.old self.old }
        ensures lands { OnTrue result (IsLanding tag verdict (queue_of mem.old window.old self.old)
            (queue_of mem.new window.new self.new)) }
        ensures idle { OnFalse result (get_or self.old.tags tag None ≡ None) }
        ensures rest { self.new ≡ record self.old { tags = self.new.tags } }
        ensures kept { OnFalse result (self.new ≡ self.old) }
        ensures unwritten { OnFalse result (mem.new ≡ mem.old) }
        ensures untouched { OnFalse result (window.new ≡ window.old) }
        ensures kind { window.new.kind ≡ window.old.kind }
        ensures offered { window.new.negotiation.offered ≡ window.old.negotiation.offered }
        ensures range { SameRange mem.old mem.new }
        ensures sound { IsSound mem.new window.new }
        ensures held { HoldsFlights mem.new window.new self.new }
    {
        let capacity = self.device.extent.count;
        self.flights
            .land(mem, window, capacity, tag as usize, verdict)
    }

    // Gives up what is in flight. False where nothing is.
    fn give_up(&mut self, window: &mut Window) -> bool
        ensures value { result ≡ is_any self.old.tags }
        ensures gives { OnTrue result ((m : Memory) →
            queue_of m window.new self.new ≡ given_up (queue_of m window.old self.old)) }
        ensures rest { self.new ≡ record self.old { tags = self.new.tags } }
        ensures kept { OnFalse result (self.new ≡ self.old) }
        ensures untouched { OnFalse result (window.new ≡ window.old) }
        ensures kind { window.new.kind ≡ window.old.kind }
        ensures offered { window.new.negotiation.offered ≡ window.old.negotiation.offered }
        ensures sound { (m : Memory) → IsSound m window.old → IsSound m window.new }
        ensures held { (m : Memory) → HoldsFlights m window.old self.old → HoldsFlights m window.new self.new }
    {
        let busy = self.flights.is_busy();
        if busy {
            self.flights.give_up(window);
        }
        busy
    }
}
