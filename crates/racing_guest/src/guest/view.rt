//! A guest, as its drivers and its host see it.

ghost use Rattle.std.specs.Prelude.{◌≡◌, None, get_or};
ghost use Rattle.mmio_window.specs.Interrupts.{interrupt_bits};
ghost use Rattle.block_device.specs.Tags.{operation_in, runs_in, taken_bits};
ghost use Rattle.racing_guest.specs.Guest.{register, window_of};

use crate::block::RacingBlock;
use crate::console::RacingConsole;
use crate::guest::RacingGuest;
use crate::reply::GuestWindow;
use block_device::Operation;
use chain::Segment;
use std::alloc::Allocator;

impl<A: Allocator> RacingGuest<A> {
    /// Its block device, to be looked at.
    pub fn block(&self) -> &RacingBlock<A>
        ensures { result.now ≡ self.now.block }
    {
        &self.block
    }

    /// Its console, to be looked at.
    pub fn console(&self) -> &RacingConsole<A>
        ensures { result.now ≡ self.now.console }
    {
        &self.console
    }

    /// What a read of a window gives (4.2.2).
    pub fn read(&self, window: GuestWindow, offset: u16, width: u8) -> u32
        ensures { result ≡ register window offset width self.now }
    {
        match window {
            GuestWindow::Block => self.block.read(offset, width),
            GuestWindow::Console => self.console.read(offset, width),
        }
    }

    /// InterruptStatus of a window (4.2.2).
    pub fn interrupts(&self, window: GuestWindow) -> u8
        ensures { result ≡ interrupt_bits (window_of window self.now).interrupts }
    {
        match window {
            GuestWindow::Block => self.block.interrupts(),
            GuestWindow::Console => self.console.interrupts(),
        }
    }

    /// The tags in flight of the disk: bit n is set where tag n is taken.
    pub fn taken(&self) -> u64
        ensures { result ≡ taken_bits self.now.block.disk.tags }
    {
        self.block.disk().taken()
    }

    /// What the host is asked to do by this tag.
    pub fn operation(&self, tag: u8) -> Option<Operation>
        ensures { result ≡ operation_in (get_or self.now.block.disk.tags tag None) }
    {
        self.block.disk().operation(tag)
    }

    /// Where the bytes of this tag's operation lie: no runs where it is free.
    pub fn runs(&self, tag: u8) -> &[Segment]
        ensures { result.now ≡ runs_in (get_or self.now.block.disk.tags tag None) }
    {
        self.block.disk().runs(tag)
    }
}
