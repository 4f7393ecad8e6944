//! The guest: its block device and its console.

ghost use Rattle.std.specs.Prelude.{◌≡◌, ◌*◌, ◌^◌, ◌<◌, ◌≤◌, IfOk};
ghost use Rattle.guest_memory.specs.Memory.{Memory, SameRange};
ghost use Rattle.shared_memory.specs.Sightings.{memory};
ghost use Rattle.block_device.specs.Extent.{sector_len};
ghost use Rattle.racing_guest.specs.Guest.{IsServedAgain, IsSoundGuest, WritesGuest, fresh_guest, service_limits, write_waits};
ghost use Rattle.racing_guest.specs.Reply.{is_busy};

mod memory;
mod outside;
mod place;
mod view;

use crate::block::RacingBlock;
use crate::console::RacingConsole;
use crate::reply::{GuestQueue, GuestWindow, Reply};
use crate::spec::GuestSpec;
use chain::Chain;
use console_device::{NoMemory, Outlet};
use racing_hosted_disk::LookLimits;
use racing_ring::Room;
use racing_service::Limits;
use shared_memory::Shared;
use std::alloc::{Allocator, Global};
use std::marker::Model;

/// A guest whose CPUs run on while it is served. It shares nothing with any other guest.
#[derive(Drop)]
pub struct RacingGuest<A: Allocator = Global> {
    block: RacingBlock<A>,
    console: RacingConsole<A>,
    // Where chains stand, one after another.
    chain: Box<Chain, A>,
    room: Box<Room, A>,
}

impl<A: Allocator> Model for RacingGuest<A> {
    ghost use Rattle.racing_guest.specs.Guest.{RacingGuest};

    ghost Value = { RacingGuest };

    ghost view = { λ g. record { block = g.block; console = g.console } };
}

impl<A: Allocator + Copy> RacingGuest<A> {
    /// Both devices as after a reset. All the memory that they will ever need is taken here.
    pub fn new(alloc: A, spec: &GuestSpec) -> Result<RacingGuest<A>, NoMemory>
        requires sectors { sector_len * spec.now.sectors < 2 ^ 64 }
        requires depth { spec.now.depth ≤ 64 }
        ensures fresh { IfOk result (λ guest. guest ≡ fresh_guest spec.now) }
        ensures sound { IfOk result (λ guest. (m : Memory) → IsSoundGuest m guest) }
    {
        let made = RacingBlock::new(
            alloc,
            spec.sectors,
            spec.read_only,
            spec.identity,
            spec.depth,
        );
        let Ok(block) = made else {
            return Err(NoMemory);
        };
        let console = RacingConsole::new(alloc, spec.cols, spec.rows)?;
        let (Ok(chain), Ok(room)) = (Box::new(alloc, Chain::new()), Box::new(alloc, Room::new()))
        else {
            return Err(NoMemory);
        };
        Ok(RacingGuest {
            block,
            console,
            chain,
            room,
        })
    }
}

impl<A: Allocator> RacingGuest<A> {
    /// Writes a window's registers, and lets its device do its part. What the console puts out is appended to `out`.
    pub fn write<M: Shared, O: Outlet>(
        &mut self,
        window: GuestWindow,
        offset: u16,
        width: u8,
        value: u32,
        mem: &mut M,
        limits: LookLimits,
        out: &mut O,
    ) -> Reply
        requires sound { IsSoundGuest (memory (M.sightings mem.old)) self.old }
        ensures waits { is_busy result ≡ write_waits window offset self.old }
        ensures writes { WritesGuest window offset width value M.races limits (O.limit out.old)
            (M.sightings mem.old) (M.sightings mem.new) self.old self.new (O.bytes out.old) (O.bytes out.new) result }
        ensures limit { O.limit out.new ≡ O.limit out.old }
        ensures range { SameRange (memory (M.sightings mem.old)) (memory (M.sightings mem.new)) }
        ensures sound { IsSoundGuest (memory (M.sightings mem.new)) self.new }
    {
        let chain = &mut *self.chain;
        let room = &mut *self.room;
        match window {
            GuestWindow::Block => self
                .block
                .write(offset, width, value, mem, limits, chain, room),
            GuestWindow::Console => {
                let limits = service_limits(limits);
                self.console
                    .write(offset, width, value, mem, limits, chain, room, out)
            }
        }
    }

    /// Serves a queue once more, where that was answered by `Reply::More`.
    pub fn serve_again<M: Shared, O: Outlet>(
        &mut self,
        queue: GuestQueue,
        mem: &mut M,
        limits: LookLimits,
        out: &mut O,
    ) -> Reply
        requires sound { IsSoundGuest (memory (M.sightings mem.old)) self.old }
        ensures serves { IsServedAgain M.races limits (O.limit out.old) (M.sightings mem.old)
            (M.sightings mem.new) self.old self.new (O.bytes out.old) (O.bytes out.new) queue result }
        ensures limit { O.limit out.new ≡ O.limit out.old }
        ensures range { SameRange (memory (M.sightings mem.old)) (memory (M.sightings mem.new)) }
        ensures sound { IsSoundGuest (memory (M.sightings mem.new)) self.new }
    {
        let chain = &mut *self.chain;
        let room = &mut *self.room;
        let few = service_limits(limits);
        match queue {
            GuestQueue::Block => Reply::of(queue, self.block.serve(mem, limits, chain, room)),
            GuestQueue::Receive => {
                Reply::of(queue, self.console.serve_receive(mem, few, chain, room))
            }
            GuestQueue::Transmit => {
                match self.console.serve_transmit(mem, few, chain, room, out) {
                    Ok(progress) => Reply::of(queue, progress),
                    Err(NoMemory) => Reply::NoMemory,
                }
            }
        }
    }
}

// How much one service of the console may do.
fn service_limits(limits: LookLimits) -> Limits
    ensures { result ≡ service_limits limits }
{
    Limits {
        budget: limits.budget,
        rounds: limits.rounds,
    }
}
