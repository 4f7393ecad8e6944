//! What somebody sees of a slot's devices who only looks. There is no answer for a slot that isn't there.

ghost use Rattle.std.specs.Prelude.{◌≡◌, ◌↔◌, ◌<◌, IsSome, IfSome, IsSomeAnd, is_some, length};
ghost use Rattle.std.specs.List.{slice_get};
ghost use Rattle.std.specs.Option.{option_map};
ghost use Rattle.board.specs.Hosting.{device_at};

use crate::board::Board;
use crate::counters::Counters;
use crate::event::SlotWindow;
use block_device::BlockDevice;
use console_device::ConsoleDevice;
use mmio_window::{FaultNote, Window};
use sector_cache::Image;
use std::alloc::Allocator;

impl<I: Image, A: Allocator> Board<I, A> {
    /// What the slot's devices did since the board was made. A restore keeps the numbers.
    pub fn counters(&self, slot: u8) -> Option<Counters>
        ensures { IsSome result ↔ (slot < length self.now.slots) }
    {
        let slot = self.slot(slot)?;
        Some(slot.slot().counters())
    }

    /// The last fault of a window of the slot, and where it was met: none until one came. A reset of the window and a restore
    /// keep it. No clause speaks of what is told.
    pub fn last_fault(&self, slot: u8, window: SlotWindow) -> Option<FaultNote>
        ensures { IsSome result → slot < length self.now.slots }
    {
        let window = match window {
            SlotWindow::Block => self.block_window(slot)?,
            SlotWindow::Console => self.console_window(slot)?,
        };
        window.last_fault()
    }

    /// The window of the slot's block device. Its ConfigGeneration is always 0.
    pub fn block_window(&self, slot: u8) -> Option<&Window>
        ensures there { IsSome result ↔ (slot < length self.now.slots) }
        ensures value { IfSome result (λ window.
            IsSomeAnd (slice_get self.now.slots slot) (λ found. window.now ≡ found.block)) }
        ensures generation { IfSome result (λ window. window.now.config_generation ≡ 0) }
    {
        let slot = self.slot(slot)?;
        Some(slot.slot().block_window())
    }

    /// The window of the slot's console.
    pub fn console_window(&self, slot: u8) -> Option<&Window>
        ensures there { IsSome result ↔ (slot < length self.now.slots) }
        ensures value { IfSome result (λ window.
            IsSomeAnd (slice_get self.now.slots slot) (λ found. window.now ≡ found.console)) }
    {
        let slot = self.slot(slot)?;
        Some(slot.slot().console_window())
    }

    /// The slot's block device, as its guest knows it. Its extent is of the image, or of a disk of its own, from the first
    /// sector on, that the host serves.
    pub fn block_device(&self, slot: u8) -> Option<BlockDevice>
        ensures there { IsSome result ↔ (slot < length self.now.slots) }
        ensures value { IfSome result (λ device.
            IsSomeAnd (slice_get self.now.slots slot) (λ found. device ≡ device_at found)) }
    {
        let slot = self.slot(slot)?;
        Some(*slot.slot().device())
    }

    /// Whether the host serves the slot's disk.
    pub fn is_hosted(&self, slot: u8) -> Option<bool>
        ensures { result ≡ option_map (λ found. is_some found.host) (slice_get self.now.slots slot) }
    {
        let slot = self.slot(slot)?;
        Some(slot.slot().is_hosted())
    }

    /// The slot's console.
    pub fn console_device(&self, slot: u8) -> Option<&ConsoleDevice<A>>
        ensures there { IsSome result ↔ (slot < length self.now.slots) }
        ensures pending { IfSome result (λ device.
            IsSomeAnd (slice_get self.now.slots slot) (λ found. device.now.pending ≡ found.pending)) }
        ensures size { IfSome result (λ device. IsSomeAnd (slice_get self.now.slots slot)
            (λ found. (device.now.cols ≡ found.cols) × (device.now.rows ≡ found.rows))) }
    {
        let slot = self.slot(slot)?;
        Some(slot.slot().console_device())
    }
}
