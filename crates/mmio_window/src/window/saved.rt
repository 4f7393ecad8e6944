//! A window as plain numbers, and back.

ghost use Rattle.std.specs.Prelude.{◌≡◌, Some, IfSome};
ghost use Rattle.guest_memory.specs.Memory.{Memory};
ghost use Rattle.mmio_window.specs.Saved.{saved_window, window_restored};
ghost use Rattle.mmio_window.specs.Soundness.{IsSound};

use crate::device_kind::DeviceKind;
use crate::queue_registers::QueueRegisters;
use crate::saved::{SavedNegotiation, SavedSelectors, SavedWindow};
use crate::window::Window;
use guest_memory::GuestMemory;
use negotiation::{Features, Flags, Negotiation, Status};
use std::alloc::Allocator;

impl Window {
    /// What the window keeps, as plain numbers. They restore it over every memory for which it is sound.
    pub fn saved(&self) -> SavedWindow
        ensures value { result ≡ saved_window self.now }
        ensures back { (m : Memory) → IsSound m self.now →
            window_restored self.now.kind m result ≡ Some self.now }
    {
        SavedWindow {
            negotiation: SavedNegotiation {
                offered: self.negotiation.offered().bits(),
                status: self.negotiation.status().bits(),
                accepted: self.negotiation.accepted().bits(),
            },
            selectors: SavedSelectors {
                device_features: self.device_features_sel,
                driver_features: self.driver_features_sel,
                queue: self.queue_sel,
                shm: self.shm_sel,
            },
            queue_0: self.queue_0.saved(),
            queue_1: self.queue_1.saved(),
            interrupts: self.interrupts,
            config_generation: self.config_generation,
        }
    }

    /// The window of a device of this kind as it was saved, over a guest's memory. There is none where status and
    /// features can't stand so, or a queue was ready that can't be.
    pub fn restored<A: Allocator>(
        kind: DeviceKind,
        from: &SavedWindow,
        mem: &GuestMemory<A>,
    ) -> Option<Window>
        ensures value { result ≡ window_restored kind mem.now from.now }
        ensures kind { IfSome result (λ window. window.kind ≡ kind) }
        ensures sound { IfSome result (IsSound mem.now) }
        ensures again { IfSome result (λ window. saved_window window ≡ from.now) }
    {
        let offered = Features::from_bits_retain(from.negotiation.offered);
        let status = Status::from_bits_retain(from.negotiation.status);
        let accepted = Features::from_bits_retain(from.negotiation.accepted);
        let negotiation = Negotiation::standing(status, offered, accepted)?;
        let queue_0 = QueueRegisters::restored(&from.queue_0, &negotiation, mem)?;
        let queue_1 = QueueRegisters::restored(&from.queue_1, &negotiation, mem)?;
        Some(Window {
            kind,
            negotiation,
            device_features_sel: from.selectors.device_features,
            driver_features_sel: from.selectors.driver_features,
            queue_sel: from.selectors.queue,
            queue_0,
            queue_1,
            interrupts: from.interrupts,
            shm_sel: from.selectors.shm,
            config_generation: from.config_generation,
            last_fault: None,
        })
    }

    /// The window in the place of another one, whose last fault it goes on telling.
    pub fn in_place_of(self, other: &Window) -> Window
        ensures { result ≡ self }
    {
        Window {
            last_fault: other.last_fault,
            ..self
        }
    }
}
