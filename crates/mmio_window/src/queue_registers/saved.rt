//! A queue's registers as plain numbers, and back.

ghost use Rattle.std.specs.Prelude.{◌≡◌, Some, IfSome};
ghost use Rattle.guest_memory.specs.Memory.{Memory};
ghost use Rattle.negotiation.specs.Negotiation.{NegotiationState};
ghost use Rattle.mmio_window.specs.Saved.{queue_restored, saved_queue};
ghost use Rattle.mmio_window.specs.Soundness.{HasItsRing};

use crate::queue::Queue;
use crate::queue_registers::QueueRegisters;
use crate::saved::{Reached, SavedQueue};
use guest_memory::GuestMemory;
use negotiation::{Flags, Negotiation, Status};
use std::alloc::Allocator;

impl QueueRegisters {
    /// The registers as plain numbers.
    pub(crate) fn saved(&self) -> SavedQueue
        ensures value { result ≡ saved_queue self.now }
        ensures back { (m : Memory) (n : NegotiationState) → HasItsRing m n self.now → queue_restored m n result ≡ Some self.now }
    {
        SavedQueue {
            number: self.number,
            descriptor_area: self.descriptor_area,
            driver_area: self.driver_area,
            device_area: self.device_area,
            reached: self.reached(),
        }
    }

    // How far the queue is served, while it is ready.
    fn reached(&self) -> Option<Reached>
        ensures value { result ≡ (saved_queue self.now).reached }
        ensures back { (m : Memory) (n : NegotiationState) → HasItsRing m n self.now →
            queue_restored m n (record (saved_queue self.now) { reached = result }) ≡ Some self.now }
    {
        match &self.ring {
            Some(ring) => Some(ring.reached()),
            None => None,
        }
    }

    /// The registers as they were saved, with their ring where the queue was ready.
    pub(crate) fn restored<A: Allocator>(
        from: &SavedQueue,
        negotiation: &Negotiation,
        mem: &GuestMemory<A>,
    ) -> Option<QueueRegisters>
        ensures value { result ≡ queue_restored mem.now negotiation.now from.now }
        ensures again { IfSome result (λ registers. saved_queue registers ≡ from.now) }
    {
        let mut registers = QueueRegisters {
            number: from.number,
            descriptor_area: from.descriptor_area,
            driver_area: from.driver_area,
            device_area: from.device_area,
            ring: None,
        };
        if let Some(reached) = from.reached {
            if !negotiation.status().contains(Status::FEATURES_OK) {
                return None;
            }
            let ring = registers.new_ring(negotiation.negotiated(), mem)?;
            registers.ring = Some(ring.served_to(reached)?);
        }
        Some(registers)
    }
}
