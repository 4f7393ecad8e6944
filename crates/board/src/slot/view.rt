//! A slot as somebody sees it who only looks.

ghost use Rattle.std.specs.Prelude.{◌≡◌};

use crate::slot::Slot;
use console_device::ConsoleDevice;
use mmio_window::Window;
use std::alloc::Allocator;

impl<A: Allocator> Slot<A> {
    /// The block device's window.
    pub(crate) fn block_window(&self) -> &Window
        ensures value { result.now ≡ self.now.block }
        ensures generation { result.now.config_generation ≡ 0 }
    {
        &self.block
    }

    /// The console's window.
    pub(crate) fn console_window(&self) -> &Window
        ensures { result.now ≡ self.now.console }
    {
        &self.console
    }

    /// The console.
    pub(crate) fn console_device(&self) -> &ConsoleDevice<A>
        ensures pending { result.now.pending ≡ self.now.pending }
        ensures cols { result.now.cols ≡ self.now.cols }
        ensures rows { result.now.rows ≡ self.now.rows }
    {
        &self.console_device
    }
}
