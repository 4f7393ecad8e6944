//! The console: its window, what is typed to it, and what it puts out.

ghost use Rattle.std.specs.Prelude.{◌≡◌, IfOk, OnErr, Some, false, is_some};
ghost use Rattle.std.specs.Bool.{OnTrue, OnFalse};
ghost use Rattle.guest_memory.specs.Memory.{Memory, SameRange};
ghost use Rattle.mmio_window.specs.Interrupts.{interrupt_bits};
ghost use Rattle.mmio_window.specs.Writing.{action_of};
ghost use Rattle.shared_memory.specs.Sightings.{memory};
ghost use Rattle.console_device.specs.Input.{fitting};
ghost use Rattle.racing_guest.specs.Console.{IsActedOn, IsRefused, IsSoundConsole, Receives, Transmits, console_register, fresh_console, with_console_written, with_size, with_typed};
ghost use Rattle.racing_guest.specs.Place.{console_moved};
ghost use Rattle.racing_guest.specs.Reply.{is_busy};

mod serving;

use self::serving::{receive, transmit};
use crate::reply::{GuestQueue, Reply};
use chain::{Chain, Progress};
use console_device::{ConsoleDevice, EMERGENCY_WRITE, NoMemory, Outlet, RECEIVEQ, TRANSMITQ};
use mmio_window::{Action, DeviceKind, Window};
use racing_ring::Room;
use racing_service::Limits;
use racing_window::put_to;
use shared_memory::{RangesOf, Shared};
use std::alloc::{Allocator, Global};
use std::marker::Model;

/// A console (5.3) of a guest that runs on.
#[derive(Drop)]
pub struct RacingConsole<A: Allocator = Global> {
    window: Window,
    device: ConsoleDevice<A>,
}

impl<A: Allocator> Model for RacingConsole<A> {
    ghost use Rattle.racing_guest.specs.Console.{RacingConsole};

    ghost Value = { RacingConsole };

    ghost view = { λ c. record { window = c.window; device = c.device } };
}

impl<A: Allocator + Copy> RacingConsole<A> {
    /// One of this size, as after a reset, to which nothing was typed. All the memory that it will ever need is taken here.
    pub fn new(alloc: A, cols: u16, rows: u16) -> Result<RacingConsole<A>, NoMemory>
        ensures fresh { IfOk result (λ console. console ≡ fresh_console cols rows) }
        ensures sound { IfOk result (λ console. (m : Memory) → IsSoundConsole m console) }
    {
        let device = ConsoleDevice::new(alloc, cols, rows)?;
        Ok(RacingConsole {
            window: Window::new(DeviceKind::Console, device.features()),
            device,
        })
    }
}

impl<A: Allocator> RacingConsole<A> {
    /// Its window, to be looked at.
    pub fn window(&self) -> &Window
        ensures { result.now ≡ self.now.window }
    {
        &self.window
    }

    /// What stands behind its window, to be looked at.
    pub fn device(&self) -> &ConsoleDevice<A>
        ensures { result.now ≡ self.now.device }
    {
        &self.device
    }

    /// InterruptStatus of its window (4.2.2).
    pub fn interrupts(&self) -> u8
        ensures { result ≡ interrupt_bits self.now.window.interrupts }
    {
        self.window.interrupts()
    }

    /// What a read of its window gives (4.2.2).
    pub fn read(&self, offset: u16, width: u8) -> u32
        ensures { result ≡ console_register offset width self.now }
    {
        self.window.read(offset, width, &self.device.config())
    }

    /// Puts the queue of this number to this place. False where the device may not serve it, or its ring has no such place: nothing
    /// has changed then.
    pub fn put_to(&mut self, q: u16, place: u16) -> bool
        ensures there { result ≡ is_some (console_moved q place self.old) }
        ensures moved { OnTrue result (console_moved q place self.old ≡ Some self.new) }
        ensures kept { OnFalse result (self.new ≡ self.old) }
        ensures sound { (m : Memory) → IsSoundConsole m self.old → IsSoundConsole m self.new }
    {
        put_to(&mut self.window, q, place)
    }

    /// Writes its window's registers, and does what the write leaves to be done: a service of the queue that it notifies, or the
    /// byte of an emergency write. `NoMemory` where `out` has no room for what goes out.
    pub fn write<M: Shared, O: Outlet>(
        &mut self,
        offset: u16,
        width: u8,
        value: u32,
        mem: &mut M,
        limits: Limits,
        chain: &mut Chain,
        room: &mut Room,
        out: &mut O,
    ) -> Reply
        requires sound { IsSoundConsole (memory (M.sightings mem.old)) self.old }
        ensures at_once { is_busy result ≡ false }
        ensures acts { IsActedOn M.races limits (O.limit out.old) (M.sightings mem.old) (M.sightings mem.new)
            (with_console_written offset width value (memory (M.sightings mem.old)) self.old) self.new
            (O.bytes out.old) (O.bytes out.new) result (action_of offset width value self.old.window) }
        ensures limit { O.limit out.new ≡ O.limit out.old }
        ensures range { SameRange (memory (M.sightings mem.old)) (memory (M.sightings mem.new)) }
        ensures sound { IsSoundConsole (memory (M.sightings mem.new)) self.new }
    {
        match self.window.write(offset, width, value, &RangesOf(&*mem)) {
            Action::Notify(RECEIVEQ) => {
                Reply::of(
                    GuestQueue::Receive,
                    self.serve_receive(mem, limits, chain, room),
                )
            }
            Action::Notify(TRANSMITQ) => {
                match self.serve_transmit(mem, limits, chain, room, out) {
                    Ok(progress) => Reply::of(GuestQueue::Transmit, progress),
                    Err(NoMemory) => Reply::NoMemory,
                }
            }
            Action::ConfigWrite {
                offset: EMERGENCY_WRITE,
                value,
                ..
            } => match self.device.emergency((value % 256) as u8, out) {
                Ok(()) => Reply::Done,
                Err(NoMemory) => Reply::NoMemory,
            },
            _ => Reply::Done,
        }
    }

    /// Fills the chains of its receive queue from pending input, where the window is live and the queue ready. After
    /// `Progress::More` the caller serves it once more, since its driver may not notify.
    pub fn serve_receive<M: Shared>(
        &mut self,
        mem: &mut M,
        limits: Limits,
        chain: &mut Chain,
        room: &mut Room,
    ) -> Progress
        requires sound { IsSoundConsole (memory (M.sightings mem.old)) self.old }
        ensures receives { Receives M.races limits (M.sightings mem.old) (M.sightings mem.new) self.old self.new result }
        ensures range { SameRange (memory (M.sightings mem.old)) (memory (M.sightings mem.new)) }
        ensures sound { IsSoundConsole (memory (M.sightings mem.new)) self.new }
    {
        let (window, device) = (&mut self.window, &mut self.device);
        receive(window, device, mem, limits, chain, room)
    }

    /// Puts out the chains of its transmit queue, where the window is live and the queue ready. A chain for whose bytes `out` has
    /// no room stays on offer: `NoMemory`. After `Progress::More` the caller serves it once more, since its driver may not
    /// notify.
    pub fn serve_transmit<M: Shared, O: Outlet>(
        &mut self,
        mem: &mut M,
        limits: Limits,
        chain: &mut Chain,
        room: &mut Room,
        out: &mut O,
    ) -> Result<Progress, NoMemory>
        requires sound { IsSoundConsole (memory (M.sightings mem.old)) self.old }
        ensures transmits { IfOk result (λ progress. Transmits M.races limits (M.sightings mem.old)
            (M.sightings mem.new) self.old self.new progress (O.limit out.old) (O.bytes out.old) (O.bytes out.new)) }
        ensures refused { OnErr result (IsRefused M.races limits (O.limit out.old) (M.sightings mem.old)
            (M.sightings mem.new) self.old self.new (O.bytes out.old) (O.bytes out.new)) }
        ensures limit { O.limit out.new ≡ O.limit out.old }
        ensures range { SameRange (memory (M.sightings mem.old)) (memory (M.sightings mem.new)) }
        ensures sound { IsSoundConsole (memory (M.sightings mem.new)) self.new }
        ensures device { self.new.device ≡ self.old.device }
    {
        transmit(&mut self.window, mem, limits, chain, room, out)
    }

    /// Takes what is typed, as much of it as fits: how many bytes that is. The caller serves the receive queue then.
    pub fn input(&mut self, bytes: &[u8]) -> usize
        ensures count { result ≡ fitting self.old.device.pending bytes.now }
        ensures typed { self.new ≡ with_typed bytes.now self.old }
    {
        self.device.input(bytes)
    }

    /// Changes the size, of which the driver is told where there is one.
    pub fn resize(&mut self, cols: u16, rows: u16)
        ensures resized { self.new ≡ with_size cols rows self.old }
        ensures sound { (m : Memory) → IsSoundConsole m self.old → IsSoundConsole m self.new }
    {
        self.device.resize(cols, rows);
        self.window.config_changed();
    }
}
