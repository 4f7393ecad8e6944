//! One slot: a guest's memory and devices, and how its events are served.
//!
//! Nothing here knows of other slots, nor of what is in flight. What a slot does is stated against the machine whose disk
//! is of the image, and `guest` lifts that to any disk. `hosting` has what comes of an event beside the disk, `memory` the events of
//! the guest's memory, `window` those of its devices' windows, `service` serves their queues, `console` is what is done to the console
//! from outside, and `devices` the further devices.

ghost use Rattle.std.specs.Prelude.{◌≡◌, ◌≢◌, ◌||◌, ℕ, List, IfOk};
ghost use Rattle.guest_memory.specs.Faults.{AreGood as AreGoodRegions};
ghost use Rattle.guest_memory.specs.Pages.{bits_of};
ghost use Rattle.guest_memory.specs.Memory.{Inside, IsRest};
ghost use Rattle.block_device.specs.Extent.{IsWithin, TouchesExtent};
ghost use Rattle.board.specs.Backing.{KeepsHost};
ghost use Rattle.board.specs.Lending.{LendsBytes, with_page_bits};
ghost use Rattle.board.specs.Pausing.{BeginsOverImage, PausesByLimit, ServesOver, lacks_memory_in};
ghost use Rattle.board.specs.Slot.{AreInterruptWords, IsUnnoted, interrupt_words, opened, state_of, whole_extent};
ghost use Rattle.board.specs.World.{MayLackMemory};
ghost use Rattle.board.specs.Fault.{HasRoom};
ghost use Rattle.board.specs.Lent.{opened_over};
ghost use Rattle.board.specs.Within.{BeginsWithinOverImage, DecidesOver};
ghost use Rattle.board.specs.declared.pause.Pause.{Pause};
ghost use Rattle.board.specs.declared.pause.Turn.{Turn};
ghost use Rattle.board.specs.declared.reply.Reply.{Reply};
ghost use Rattle.std.specs.Borrow.{sem};

mod console;
mod device_begins;
mod devices;
mod hosting;
mod memory;
mod saved;
mod service;
mod view;
mod window;

use crate::check::spare;
use crate::counters::Counters;
use crate::event::EventKind;
use crate::own_disk::OwnDisk;
use crate::pause::Turn;
use crate::reply::Reply;
pub(crate) use crate::slot::memory::copy_out;
use crate::spec::SlotSpec;
use chain::{Budget, Chain};
use console_device::{ConsoleDevice, Outlet};
use device_list::{DeviceList, MOST_DEVICES};
use guest_memory::GuestMemory;
use mmio_window::{DeviceKind, Stage, Window};
use sector_cache::{Image, SectorCache};
use std::alloc::{AllocError, Allocator, Global};
use std::marker::Model;
use std_alloc::vec::Lodged;

/// One guest's part of a board.
#[derive(Drop)]
pub(crate) struct Slot<A: Allocator = Global> {
    memory: GuestMemory<A>,
    disk: OwnDisk<A>,
    // How many sectors of the image the slot has behind those of its own disk, for its further disks.
    spare: u64,
    block: Window,
    console_device: ConsoleDevice<A>,
    console: Window,
    devices: DeviceList<A>,
    // The room for each chain of all devices' services, one after another. What it holds between them isn't seen.
    chain: Chain,
    // Whether an event of the slot has met a refusal.
    disturbed: bool,
    // The notifications and refusals; the chain counts the rest. None of it is seen.
    counters: Counters,
}

impl<A: Allocator> Model for Slot<A> {
    ghost use Rattle.board.specs.Slot.{BoardSlot, IsSoundSlot};

    ghost Value = { BoardSlot };

    ghost view = { λ s. record {
      memory = s.memory;
      extent = s.disk.extent;
      spare = s.spare;
      host = s.disk.host;
      read_only = s.disk.read_only;
      identity = s.disk.identity;
      block = s.block;
      console = s.console;
      pending = s.console_device.pending;
      cols = s.console_device.cols;
      rows = s.console_device.rows;
      devices = s.devices;
      disturbed = s.disturbed;
    } };

    ghost invariant = { λ s. IsSoundSlot s.memory s.disk.read_only s.block s.console s.console_device.pending s.devices };
}

// What came of an event, or of a piece of its service.
#[derive(Drop)]
pub(crate) struct Answer<A: Allocator = Global> {
    pub turn: Turn<A>,
    // Whether a call of the image failed.
    pub failed: bool,
}

impl<A: Allocator + Copy> Slot<A> {
    /// Opens a slot over a memory of zeros.
    pub(crate) fn open(alloc: A, spec: &SlotSpec) -> Result<Slot<A>, AllocError>
        requires memory { AreGoodRegions spec.now.regions }
        requires disk { HasRoom spec.now }
        ensures { IfOk result (λ slot. slot ≡ opened spec.now) }
    {
        let Ok(memory) = GuestMemory::with_regions(alloc, spec.regions.as_slice()) else {
            return Err(AllocError);
        };
        Slot::over(alloc, spec, memory)
    }

    /// Opens a slot over a memory that is there.
    pub(crate) fn over(
        alloc: A,
        spec: &SlotSpec,
        memory: GuestMemory<A>,
    ) -> Result<Slot<A>, AllocError>
        requires { HasRoom spec.now }
        ensures { IfOk result (λ slot. slot ≡ opened_over spec.now memory) }
    {
        let Ok(console_device) = ConsoleDevice::new(alloc, spec.cols, spec.rows) else {
            return Err(AllocError);
        };
        let disk = OwnDisk::open(alloc, spec)?;
        let features = disk.of_image().features();
        Ok(Slot {
            memory,
            disk,
            spare: spare(spec),
            block: Window::new(DeviceKind::Block, features),
            console: Window::new(DeviceKind::Console, console_device.features()),
            console_device,
            devices: DeviceList::new(alloc),
            chain: Chain::new(),
            disturbed: false,
            counters: Counters::default(),
        })
    }
}

impl<A: Allocator + Copy> Slot<A> {
    /// Notes a refusal, and hands on what the event came to.
    #[inline(always)]
    pub(crate) fn note(&mut self, answer: Answer<A>) -> Turn<A>
        ensures turn { result ≡ answer.turn }
        ensures noted { self.new ≡ record self.old {
          disturbed = self.old.disturbed || (lacks_memory_in answer.turn || answer.failed);
        } }
    {
        let Answer { turn, failed } = answer;
        if failed || matches!(turn, Turn::Answered(Reply::NoMemory)) {
            self.disturbed = true;
            self.counters.refused();
        }
        turn
    }

    /// Handles an event of a slot whose disk is of the image, and leaves it to the caller to note a refusal.
    #[inline(always)]
    pub(crate) fn answer<I: Image, O: Outlet>(
        &mut self,
        alloc: A,
        what: &EventKind<A>,
        budget: Budget,
        cache: &mut SectorCache<I, A>,
        out: &mut O,
    ) -> Answer<A>
        requires lies { IsWithin (I.disk cache.old).sector_count (whole_extent self.old) }
        ensures serves { ServesOver (BeginsOverImage what.now budget) self.old self.new (I.disk cache.old) (I.disk cache.new)
            result.turn (O.bytes out.old) (O.bytes out.new) }
        ensures within { DecidesOver (λ limit. BeginsWithinOverImage limit what.now budget) (O.limit out.old) self.old self.new
            (I.disk cache.old) (I.disk cache.new) (O.bytes out.old) (O.bytes out.new) result.turn }
        ensures limit { O.limit out.new ≡ O.limit out.old }
        ensures unnoted { IsUnnoted self.old self.new (I.disk cache.old) (I.disk cache.new) result.failed }
        ensures host { KeepsHost self.old.host self.new.host }
        ensures touches { TouchesExtent I.moment I.may_leave I.left_since (whole_extent self.old) cache.old cache.new }
        ensures limited { PausesByLimit budget result.turn }
        ensures there { result.turn ≢ Turn.Answered Reply.BadSlot }
        ensures bad_range { result.turn ≡ Turn.Answered Reply.BadRange →
            (self.new ≡ self.old) × (cache.new ≡ cache.old) }
        ensures no_memory { result.turn ≡ Turn.Answered Reply.NoMemory → (image : List ℕ) →
            MayLackMemory (state_of image self.old) what.now }
    {
        match self.answer_beside_image(alloc, what, budget, out) {
            Ok(turn) => Answer {
                turn,
                failed: false,
            },
            Err(pause) => self.serve_piece(pause, Stage::First, budget, cache, out),
        }
    }
}

impl<A: Allocator> Slot<A> {
    /// Whether an event of the slot has met a refusal.
    pub(crate) fn is_disturbed(&self) -> bool
        ensures { result ≡ self.now.disturbed }
    {
        self.disturbed
    }

    /// What the slot's devices did.
    pub(crate) fn counters(&self) -> Counters {
        let mut counters = self.counters.with(self.chain.counts());
        if let Some(disk) = self.disk.host() {
            counters = counters.with(disk.counts());
        }
        for device in 0..MOST_DEVICES as u8 {
            if let Some(disk) = self.devices.disk(device) {
                counters = counters.with(disk.counts());
            }
        }
        counters
    }

    /// The guest's memory.
    pub(crate) fn memory(&self) -> &GuestMemory<A>
        ensures { result.now ≡ self.now.memory }
    {
        &self.memory
    }

    /// The bytes of the guest's memory from `addr` to the end of the region that holds it, to be written.
    pub(crate) fn memory_mut(&mut self, addr: u64) -> &mut [u8]
        requires { Inside self.old.memory addr 1 }
        ensures* writes_back { sem 𝓛 (LendsBytes A.row A.Allocator self.entry addr result) }
        ensures rest { IsRest self.old.memory addr result.now }
    {
        self.memory.region_mut(addr)
    }

    /// Has the bits of the memory's pages kept in these bytes from now on.
    pub(crate) fn keep_pages(&mut self, bits: Vec<u8, Lodged>)
        ensures { self.new ≡ with_page_bits self.old (bits_of bits.items) }
    {
        self.memory.keep_pages(bits);
    }

    /// InterruptStatus of the block window and of the console window.
    #[inline(always)]
    pub(crate) fn interrupts(&self) -> (u8, u8)
        ensures value { result ≡ interrupt_words self.now }
        ensures words { AreInterruptWords result.0 result.1 }
    {
        (self.block.interrupts(), self.console.interrupts())
    }
}
