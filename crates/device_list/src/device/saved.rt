//! A device as it is saved, and whether it takes that up.

ghost use Rattle.std.specs.Prelude.{◌≡◌, ◌↔◌, IfSome, IsTrue, Some};
ghost use Rattle.guest_memory.specs.Memory.{Memory};
ghost use Rattle.mmio_window.specs.Saved.{saved_window, window_restored};
ghost use Rattle.mmio_window.specs.Soundness.{IsSound};
ghost use Rattle.device_list.specs.Model.{kind_of};
ghost use Rattle.device_list.specs.Device.{IsSoundDevice};
ghost use Rattle.device_list.specs.Saved.{SuitsDevice, saved_device};

use crate::device::VirtioDevice;
use guest_memory::GuestMemory;
use mmio_window::{SavedWindow, Window};
use negotiation::Flags;
use snapshot::SavedDevice;
use std::alloc::Allocator;

impl<A: Allocator> VirtioDevice<A> {
    /// What is saved of the device. It restores the window over every memory for which that is sound.
    pub(crate) fn saved(&self) -> SavedDevice
        ensures value { result ≡ saved_device self.now }
        ensures back { (m : Memory) → IsSoundDevice m self.now →
            window_restored (kind_of self.now.model) m result.window ≡ Some self.now.window }
    {
        SavedDevice {
            device_id: self.model.device_id(),
            mac: self.model.mac(),
            mtu: self.model.mtu(),
            sectors: self.model.sectors(),
            identity: self.model.identity(),
            window: self.window.saved(),
        }
    }

    /// Whether the device is of the description that was saved.
    pub(crate) fn suits(&self, saved: &SavedDevice) -> bool
        ensures { IsTrue result ↔ SuitsDevice saved.now self.now }
    {
        saved.device_id == self.model.device_id()
            && saved.mac == self.model.mac()
            && saved.mtu == self.model.mtu()
            && saved.sectors == self.model.sectors()
            && saved.identity == self.model.identity()
            && saved.window.negotiation.offered == self.window.negotiation().offered().bits()
    }

    /// Its window as it was saved, if it can stand so.
    pub(crate) fn window_restored<M: Allocator>(
        &self,
        saved: &SavedWindow,
        mem: &GuestMemory<M>,
    ) -> Option<Window>
        ensures value { result ≡ window_restored (kind_of self.now.model) mem.now saved.now }
        ensures kind { IfSome result (λ window. window.kind ≡ kind_of self.now.model) }
        ensures sound { IfSome result (IsSound mem.now) }
        ensures again { IfSome result (λ window. saved_window window ≡ saved.now) }
    {
        Window::restored(self.model.kind(), saved, mem)
    }

    /// Puts a window in the place of its own.
    pub(crate) fn put_window(&mut self, window: Window)
        ensures { self.new ≡ record self.old { window = window } }
    {
        self.window = window.in_place_of(&self.window);
    }
}
