//! The queue of a device whose disk the host serves. Chains are served, and those that ask for the disk stay in flight until
//! the host has done their operations, with the bytes in guest memory, and completes them in any order.

ghost use Rattle.std.specs.Prelude.{◌≡◌, ◌*◌, ◌^◌, ◌<◌, All, length};
ghost use Rattle.guest_memory.specs.Memory.{Inside, Memory, SameRange};
ghost use Rattle.chain.specs.Buffers.{Within};
ghost use Rattle.chain.specs.Bytes.{writable_of};
ghost use Rattle.sector_cache.specs.Disk.{Disk};
ghost use Rattle.mmio_window.specs.Queue.{IsAhead, LiesIn, made_as};
ghost use Rattle.mmio_window.specs.Soundness.{IsSound};
ghost use Rattle.mmio_window.specs.Window.{queue_at};
ghost use Rattle.block_device.specs.Extent.{sector_len};
ghost use Rattle.block_device.specs.Hosting.{CompletesIn, HasStatusAt, HostsWithin, IfAsks, IsGivenBack, IsInFlight, hosted_by};
ghost use Rattle.block_device.specs.Operation.{LiesInside};

use crate::device::{BlockDevice, REQUESTQ};
use crate::on_host::OnHost;
use crate::operation::{Operation, Verdict};
use crate::transfer::Done;
use chain::{Budget, Chain, Progress, Runs, Virtqueue};
use guest_memory::GuestMemory;
use mmio_window::{Queue, Stage, Token, Window, serve_queue, show};
use negotiation::{Features, Flags};
use std::alloc::Allocator;

/// A chain in flight: the host works on its operation. Its runs stand in the caller's room.
#[derive(Drop)]
pub struct Flight<T> {
    /// By which its queue gives it back.
    pub token: T,
    /// What the host is asked to do.
    pub operation: Operation,
    /// The address of its status.
    pub status: u64,
    /// How many bytes of the chain the device may write; the last one is the status.
    pub writable: u32,
}

/// How a piece came out.
#[derive(Drop)]
pub enum Hosted {
    /// A chain is in flight.
    Asks(Flight<Token>),
    /// The budget is spent, and a chain is on offer.
    More,
    /// The service has ended.
    Done,
}

impl Hosted {
    /// How a piece came out in which no chain asked.
    #[inline]
    fn by(progress: Progress) -> Hosted
        ensures { result ≡ hosted_by progress }
    {
        match progress {
            Progress::More => Hosted::More,
            Progress::Done => Hosted::Done,
        }
    }
}

impl BlockDevice {
    /// Serves a piece of a service in the window of this device, up to a chain that asks for the disk and is in flight from
    /// then on. Its buffers are left in `room`, where the bytes of its operation lie in `runs`, and what is left of the budget in
    /// `budget`. The queue stands open, and `Stage::Next` goes on behind the chain.
    pub(crate) fn host_piece<M: Allocator>(
        &self,
        mem: &mut GuestMemory<M>,
        window: &mut Window,
        stage: Stage,
        budget: &mut Budget,
        room: &mut Chain,
        runs: &mut Runs,
    ) -> Hosted
        requires sound { IsSound mem.old window.old }
        requires disk { sector_len * self.now.extent.count < 2 ^ 64 }
        ensures served { (disk : Disk) → HostsWithin self.now stage budget.old budget.new (queue_at 0 window.old) result
            mem.old mem.new window.old window.new room.new runs.new disk }
        ensures flight { IfAsks (IsInFlight mem.new window.new) result }

        // Nothing that the host is told lies outside the guest's memory or its disk.
        ensures inside { IfAsks (λ flight. LiesInside self.now.extent.count mem.new flight.operation runs.new) result }

        ensures range { SameRange mem.old mem.new }
        ensures sound { IsSound mem.new window.new }
    {
        let negotiated = window.negotiation().negotiated();
        let stable = !negotiated.contains(Features::BLOCK_FLUSH);
        let Some(queue) = window.queue(REQUESTQ) else {
            return Hosted::Done;
        };
        let mut device = OnHost { device: self };
        match serve_queue(&mut device, runs, mem, queue, stage, *budget, room) {
            Err(asked) => {
                *budget = asked.left;
                let operation = self.tell(room, asked.why, stable, runs);
                queue.launch(&asked.token);
                Hosted::Asks(Flight::of(asked.token, operation, room))
            }
            Ok(left) => Hosted::by(show(window, REQUESTQ, left, room)),
        }
    }
}

impl Flight<Token> {
    // A chain that asks for this, and is in flight from now on.
    fn of(token: Token, operation: Operation, chain: &Chain) -> Flight<Token>
        requires { 0 < length (writable_of chain.now) }
        ensures token { result.token ≡ token }
        ensures operation { result.operation ≡ operation }
        ensures status { HasStatusAt chain.now result }
        ensures inside { (m : Memory) → All (Within m) chain.now → Inside m result.status 1 }
    {
        // What it ensures: there are fewer than 2^32 bytes.
        let _ = chain.buffers();
        Flight {
            token,
            operation,
            status: chain.last_writable(),
            writable: chain.writable_len() as u32,
        }
    }

    /// Completes the chain in flight by how its operation came out: its status, its used entry, and the end of its
    /// service, whose driver is notified where it wants to be. Answers its used length.
    pub(crate) fn complete<M: Allocator>(
        self,
        mem: &mut GuestMemory<M>,
        window: &mut Window,
        verdict: Verdict,
    ) -> u32
        requires sound { IsSound mem.old window.old }
        requires flight { IsInFlight mem.old window.old self }
        ensures completes { CompletesIn self verdict mem.old mem.new window.old window.new }
        ensures range { SameRange mem.old mem.new }
        ensures sound { IsSound mem.new window.new }
    {
        let Some(queue) = window.queue(REQUESTQ) else {
            unreachable!();
        };
        let written = self.give_back(mem, queue, verdict);
        if queue.close(mem) {
            window.used_interrupt();
        }
        written
    }

    /// Writes the status of the chain in flight, and gives it back. Answers how many bytes its used entry says.
    fn give_back<M: Allocator>(
        self,
        mem: &mut GuestMemory<M>,
        queue: &mut Queue,
        verdict: Verdict,
    ) -> u32
        requires queue { LiesIn mem.old queue.old }
        requires ahead { IsAhead queue.old self.token }
        requires status { Inside mem.old self.status 1 }
        requires some { 0 < self.writable }
        ensures gives { IsGivenBack self verdict mem.old mem.new queue.old queue.new }
        ensures range { SameRange mem.old mem.new }
        ensures queue { LiesIn mem.new queue.new }
        ensures made { made_as queue.new ≡ made_as queue.old }
    {
        let room = u64::from(self.writable - 1);
        let done = Done::by(self.operation.kind, verdict, room);
        mem.part_mut(self.status, 1)
            .copy_from_slice(&[done.status.code()]);
        let used = done.used(u64::from(self.writable));
        queue.land(mem, self.token, used);
        used.len
    }
}
