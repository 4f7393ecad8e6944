//! The registers of one queue: what its driver sets up, and the ring that it gets when it is made ready.

ghost use Rattle.std.specs.Prelude.{◌≡◌};
ghost use Rattle.negotiation.specs.Features.{feature_bits};
ghost use Rattle.mmio_window.specs.QueueRegisters.{no_queue, queue_written, ring_of, set_up, with_high, with_low, with_ready_written};

mod saved;

use crate::queue::Queue;
use crate::register::Register;
use chain::Setup;
use guest_memory::Ranged;
use negotiation::{Features, Flags, Negotiation, Status};
use packed_ring::PackedRing;
use split_ring::SplitRing;

/// The registers of one queue (4.2.2), and its ring while it is ready.
#[derive(Drop)]
pub struct QueueRegisters {
    /// The size of the queue.
    pub number: u32,
    /// The address of the descriptor area.
    pub descriptor_area: u64,
    /// The address of the driver area.
    pub driver_area: u64,
    /// The address of the device area.
    pub device_area: u64,
    /// The ring, while the queue is ready.
    pub ring: Option<Queue>,
}

impl QueueRegisters {
    /// Nothing is set up.
    pub fn new() -> QueueRegisters
        ensures { result ≡ no_queue }
    {
        QueueRegisters {
            number: 0,
            descriptor_area: 0,
            driver_area: 0,
            device_area: 0,
            ring: None,
        }
    }

    /// Takes a write to one of the queue's registers. While the queue is ready its size and addresses stay.
    pub fn write<M: Ranged>(
        &mut self,
        register: Register,
        value: u32,
        negotiation: &Negotiation,
        mem: &M,
    )
        ensures { self.new ≡ queue_written register value (M.ranged mem.now) negotiation.now self.old }
    {
        if register == Register::QueueReady {
            self.write_ready(value, negotiation, mem);
        } else if self.ring.is_none() {
            self.set_up(register, value);
        }
    }

    // A write to QueueReady.
    fn write_ready<M: Ranged>(&mut self, value: u32, negotiation: &Negotiation, mem: &M)
        ensures { self.new ≡ with_ready_written value (M.ranged mem.now) negotiation.now self.old }
    {
        match value {
            0 => self.ring = None,
            1 => {
                if self.ring.is_none() && negotiation.status().contains(Status::FEATURES_OK) {
                    self.ring = self.new_ring(negotiation.negotiated(), mem);
                }
            }
            _ => {}
        }
    }

    // A write to the size or to an address.
    fn set_up(&mut self, register: Register, value: u32)
        ensures { self.new ≡ set_up register value self.old }
    {
        match register {
            Register::QueueNum => self.number = value,
            Register::QueueDescLow => set_low(&mut self.descriptor_area, value),
            Register::QueueDescHigh => set_high(&mut self.descriptor_area, value),
            Register::QueueDriverLow => set_low(&mut self.driver_area, value),
            Register::QueueDriverHigh => set_high(&mut self.driver_area, value),
            Register::QueueDeviceLow => set_low(&mut self.device_area, value),
            Register::QueueDeviceHigh => set_high(&mut self.device_area, value),
            _ => {}
        }
    }

    // The ring that the queue gets as it is made ready, if it can be served.
    fn new_ring<M: Ranged>(&self, features: Features, mem: &M) -> Option<Queue>
        ensures { result ≡ ring_of (M.ranged mem.now) (feature_bits features) self.now }
    {
        let setup = Setup {
            size: self.number,
            desc: self.descriptor_area,
            driver: self.driver_area,
            device: self.device_area,
            indirect: features.contains(Features::INDIRECT_DESC),
            event_idx: features.contains(Features::EVENT_IDX),
        };
        if features.contains(Features::RING_PACKED) {
            Some(Queue::Packed(PackedRing::new(mem, setup)?))
        } else {
            Some(Queue::Split(SplitRing::new(mem, setup)?))
        }
    }
}

// Replaces the low half of an address.
fn set_low(address: &mut u64, half: u32)
    ensures { address.new ≡ with_low half address.old }
{
    *address = *address >> 32 << 32 | u64::from(half);
}

// Replaces the high half of an address.
fn set_high(address: &mut u64, half: u32)
    ensures { address.new ≡ with_high half address.old }
{
    *address = u64::from(half) << 32 | *address & 0xffff_ffff;
}
