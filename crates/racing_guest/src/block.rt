//! The block device: its window, and its disk, which its host serves.

ghost use Rattle.std.specs.Prelude.{◌≡◌, ◌*◌, ◌^◌, ◌<◌, ◌≤◌, IfNone, IfOk, IfSome, Some, false, is_some};
ghost use Rattle.std.specs.Bool.{OnTrue, OnFalse};
ghost use Rattle.guest_memory.specs.Memory.{Memory, SameRange};
ghost use Rattle.mmio_window.specs.Interrupts.{interrupt_bits};
ghost use Rattle.mmio_window.specs.Window.{queue_at};
ghost use Rattle.shared_memory.specs.Sightings.{memory};
ghost use Rattle.block_device.specs.Extent.{sector_len};
ghost use Rattle.block_device.specs.Tags.{is_any};
ghost use Rattle.racing_hosted_disk.specs.Told.{has_effect};
ghost use Rattle.racing_guest.specs.Block.{IsSoundBlock, IsToldBy, IsWrittenBy, NotifiesBlock, block_register, fresh_block, is_notified, must_wait};
ghost use Rattle.racing_guest.specs.Place.{block_moved};
ghost use Rattle.racing_guest.specs.Reply.{is_busy};

mod looking;

use self::looking::{look, told};
use crate::reply::{GuestQueue, Reply};
use block_device::{HostEvent, REQUESTQ};
use chain::{Chain, Progress};
use mmio_window::{Action, DeviceKind, Token, Window, may_stop_queues};
use racing_hosted_disk::{LookLimits, RacingHostedDisk};
use racing_ring::Room;
use racing_window::put_to;
use shared_memory::{RangesOf, Shared};
use std::alloc::{AllocError, Allocator, Global};
use std::marker::Model;

/// A block device (5.2) of a guest that runs on.
#[derive(Drop)]
pub struct RacingBlock<A: Allocator = Global> {
    window: Window,
    disk: RacingHostedDisk<Token, A>,
}

impl<A: Allocator> Model for RacingBlock<A> {
    ghost use Rattle.racing_guest.specs.Block.{RacingBlock};

    ghost Value = { RacingBlock };

    ghost view = { λ b. record { window = b.window; disk = b.disk } };
}

impl<A: Allocator + Copy> RacingBlock<A> {
    /// One of so many sectors, as after a reset, of which so many operations may be in flight. All the memory that it will ever
    /// need is taken here.
    pub fn new(
        alloc: A,
        sectors: u64,
        read_only: bool,
        identity: [u8; 20],
        depth: u8,
    ) -> Result<RacingBlock<A>, AllocError>
        requires sectors { sector_len * sectors < 2 ^ 64 }
        requires depth { depth ≤ 64 }
        ensures fresh { IfOk result (λ block. block ≡ fresh_block sectors read_only identity depth) }
        ensures sound { IfOk result (λ block. (m : Memory) → IsSoundBlock m block) }
    {
        let disk = RacingHostedDisk::new(alloc, sectors, read_only, identity, depth)?;
        let window = Window::new(DeviceKind::Block, disk.device().features());
        Ok(RacingBlock { window, disk })
    }
}

impl<A: Allocator> RacingBlock<A> {
    /// Its window, to be looked at.
    pub fn window(&self) -> &Window
        ensures { result.now ≡ self.now.window }
    {
        &self.window
    }

    /// Its disk, to be looked at: what is in flight, and what the host is asked to do.
    pub fn disk(&self) -> &RacingHostedDisk<Token, A>
        ensures { result.now ≡ self.now.disk }
    {
        &self.disk
    }

    /// InterruptStatus of its window (4.2.2).
    pub fn interrupts(&self) -> u8
        ensures { result ≡ interrupt_bits self.now.window.interrupts }
    {
        self.window.interrupts()
    }

    /// What a read of its window gives (4.2.2).
    pub fn read(&self, offset: u16, width: u8) -> u32
        ensures { result ≡ block_register offset width self.now }
    {
        let config = self.disk.device().config();
        self.window.read(offset, width, &config)
    }

    /// Whether a write at this offset of its window waits for what is in flight: one that may stop its queue.
    pub fn must_wait(&self, offset: u16) -> bool
        ensures { result ≡ must_wait offset self.now }
    {
        self.disk.is_busy() && may_stop_queues(offset)
    }

    /// Writes its window's registers, and looks at its queue where the write notifies it. `Busy` where the write waits for what
    /// is in flight: nothing has changed then.
    pub fn write<M: Shared>(
        &mut self,
        offset: u16,
        width: u8,
        value: u32,
        mem: &mut M,
        limits: LookLimits,
        chain: &mut Chain,
        room: &mut Room,
    ) -> Reply
        requires sound { IsSoundBlock (memory (M.sightings mem.old)) self.old }
        ensures waits { is_busy result ≡ must_wait offset self.old }
        ensures writes { IsWrittenBy result offset width value M.races limits (M.sightings mem.old)
            (M.sightings mem.new) self.old self.new }
        ensures range { SameRange (memory (M.sightings mem.old)) (memory (M.sightings mem.new)) }
        ensures sound { IsSoundBlock (memory (M.sightings mem.new)) self.new }
    {
        if self.must_wait(offset) {
            return Reply::Busy;
        }
        let action = self.window.write(offset, width, value, &RangesOf(&*mem));
        if !is_notified(action) {
            return Reply::Done;
        }
        Reply::of(GuestQueue::Block, self.serve(mem, limits, chain, room))
    }

    /// Looks at its queue, where the window is live and the queue ready. After `Progress::More` the caller looks once more,
    /// since its driver may not notify.
    #[inline(always)]
    pub fn serve<M: Shared>(
        &mut self,
        mem: &mut M,
        limits: LookLimits,
        chain: &mut Chain,
        room: &mut Room,
    ) -> Progress
        requires sound { IsSoundBlock (memory (M.sightings mem.old)) self.old }
        ensures serves { NotifiesBlock M.races limits (queue_at 0 self.old.window) (M.sightings mem.old)
            (M.sightings mem.new) self.old self.new result }
        ensures range { SameRange (memory (M.sightings mem.old)) (memory (M.sightings mem.new)) }
        ensures sound { IsSoundBlock (memory (M.sightings mem.new)) self.new }
    {
        look(&mut self.window, &mut self.disk, mem, limits, chain, room)
    }

    /// Puts its queue to this place, while nothing is in flight. False where the device may not serve the queue, or its ring has no
    /// such place: nothing has changed then.
    pub fn put_to(&mut self, place: u16) -> bool
        requires idle { is_any self.old.disk.tags ≡ false }
        ensures there { result ≡ is_some (block_moved place self.old) }
        ensures moved { OnTrue result (block_moved place self.old ≡ Some self.new) }
        ensures kept { OnFalse result (self.new ≡ self.old) }
        ensures sound { (m : Memory) → IsSoundBlock m self.old → IsSoundBlock m self.new }
    {
        put_to(&mut self.window, REQUESTQ, place)
    }

    /// Does what the host says of its disk, and looks at its queue where further chains may be taken. `None` where there is
    /// nothing to do: nothing has changed then.
    pub fn tell<M: Shared>(
        &mut self,
        said: HostEvent,
        mem: &mut M,
        limits: LookLimits,
        chain: &mut Chain,
        room: &mut Room,
    ) -> Option<Progress>
        requires sound { IsSoundBlock (memory (M.sightings mem.old)) self.old }
        ensures found { is_some result ≡ has_effect said self.old.disk }
        ensures does { IfSome result (IsToldBy said M.races limits (queue_at 0 self.old.window) (M.sightings mem.old)
            (M.sightings mem.new) self.old self.new) }
        ensures kept { IfNone result (self.new ≡ self.old) }
        ensures unwritten { IfNone result (M.sightings mem.new ≡ M.sightings mem.old) }
        ensures range { SameRange (memory (M.sightings mem.old)) (memory (M.sightings mem.new)) }
        ensures sound { IsSoundBlock (memory (M.sightings mem.new)) self.new }
    {
        told(
            &mut self.window,
            &mut self.disk,
            said,
            mem,
            limits,
            chain,
            room,
        )
    }
}

// Whether a write notifies the device's queue.
fn is_notified(action: Action) -> bool
    ensures { result ≡ is_notified action }
{
    matches!(action, Action::Notify(REQUESTQ))
}
