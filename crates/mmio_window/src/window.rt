//! The window itself: its state, the queues that it lends, and its device's events.

ghost use Rattle.std.specs.Prelude.{◌≡◌, ◌<◌, ◌≤◌, IfSome, IsSome, IsTrue, Some, is_some};
ghost use Rattle.std.specs.Borrow.{sem};
ghost use Rattle.std.specs.Option.{option_copied_mut};
ghost use Rattle.negotiation.specs.Features.{feature_bits};
ghost use Rattle.negotiation.specs.Negotiation.{is_live};
ghost use Rattle.mmio_window.specs.DeviceKind.{queue_of};
ghost use Rattle.mmio_window.specs.Interrupts.{interrupt_bits};
ghost use Rattle.mmio_window.specs.Lending.{LendsQueue};
ghost use Rattle.guest_memory.specs.Memory.{Memory};
ghost use Rattle.mmio_window.specs.Queue.{LiesIn};
ghost use Rattle.mmio_window.specs.Soundness.{IsSound};
ghost use Rattle.mmio_window.specs.Window.{fresh_window, queue_at, with_config_changed, with_config_interrupt, with_reset_asked, with_used_interrupt};

mod offer;
mod read;
mod saved;
mod view;
mod write;

use crate::device_kind::{DeviceKind, QueueIndex};
use crate::fault_note::FaultNote;
use crate::interrupts::Interrupts;
use crate::queue::Queue;
use crate::queue_registers::QueueRegisters;
use negotiation::{Features, Flags, Negotiation, Status};
use std::marker::Model;

/// The register window of one device (4.2.2).
#[derive(Drop)]
pub struct Window {
    kind: DeviceKind,
    negotiation: Negotiation,
    device_features_sel: u32,
    driver_features_sel: u32,
    queue_sel: u32,
    queue_0: QueueRegisters,
    queue_1: QueueRegisters,
    interrupts: Interrupts,
    shm_sel: u32,
    config_generation: u32,
    // The last fault of its queues, beside the proof: no register shows it, and neither a reset nor a restore takes it away.
    last_fault: Option<FaultNote>,
}

impl Model for Window {
    ghost use Rattle.mmio_window.specs.Window.{WindowState};

    ghost Value = { WindowState };

    ghost view = { λ w. record {
      kind = w.kind;
      negotiation = w.negotiation;
      device_features_sel = w.device_features_sel;
      driver_features_sel = w.driver_features_sel;
      queue_sel = w.queue_sel;
      queue_0 = w.queue_0;
      queue_1 = w.queue_1;
      interrupts = w.interrupts;
      shm_sel = w.shm_sel;
      config_generation = w.config_generation;
    } };
}

impl Window {
    /// The window of a device of this kind that offers these features, as after a reset.
    pub fn new(kind: DeviceKind, offered: Features) -> Window
        ensures value { result ≡ fresh_window kind (feature_bits offered) 0 }
        ensures sound { (m : Memory) → IsSound m result }
    {
        Window {
            kind,
            negotiation: Negotiation::new(offered),
            device_features_sel: 0,
            driver_features_sel: 0,
            queue_sel: 0,
            queue_0: QueueRegisters::new(),
            queue_1: QueueRegisters::new(),
            interrupts: Interrupts::NONE,
            shm_sel: 0,
            config_generation: 0,
            last_fault: None,
        }
    }

    /// The queue that the device may serve: there exactly where the window is live and the queue ready.
    pub fn queue(&mut self, q: u16) -> Option<&mut Queue>
        ensures* writes_back { sem 𝓛 (LendsQueue q self.entry result) }
        ensures value { option_copied_mut result ≡ queue_at q self.old }
        ensures lies { (m : Memory) → IsSound m self.old → IfSome (option_copied_mut result) (LiesIn m) }
    {
        match self.served(u32::from(q)) {
            Some(QueueIndex::Queue0) => self.queue_0.ring.as_mut(),
            Some(QueueIndex::Queue1) => self.queue_1.ring.as_mut(),
            None => None,
        }
    }

    /// Whether the device may serve the queue.
    pub fn may_serve(&self, q: u16) -> bool
        ensures { result ≡ is_some (queue_at q self.now) }
    {
        self.served(u32::from(q)).is_some()
    }

    // Which queue of the device has this number, where the window is live and the queue ready (2.1.2).
    fn served(&self, q: u32) -> Option<QueueIndex>
        ensures served { is_some result ≡ is_some (queue_at q self.now) }
        ensures live { IsSome result → IsTrue (is_live self.now.negotiation) }
        ensures named { IfSome result (λ index. queue_of self.now.kind q ≡ Some index) }
        ensures below { IsSome result → q < 2 }
    {
        if self.negotiation.live() && self.is_ready(q) {
            self.kind.queue(q)
        } else {
            None
        }
    }

    /// A buffer was used.
    pub fn used_interrupt(&mut self)
        ensures after { self.new ≡ with_used_interrupt self.old }
        ensures sound { (m : Memory) → IsSound m self.old → IsSound m self.new }
    {
        self.interrupts.used_buffer = true;
    }

    /// The configuration or the status changed.
    pub fn config_interrupt(&mut self)
        ensures after { self.new ≡ with_config_interrupt self.old }
        ensures sound { (m : Memory) → IsSound m self.old → IsSound m self.new }
    {
        self.interrupts.configuration_change = true;
    }

    /// The device met an error and asks to be reset (2.1.2).
    pub fn needs_reset(&mut self)
        ensures after { self.new ≡ with_reset_asked self.old }
        ensures sound { (m : Memory) → IsSound m self.old → IsSound m self.new }
    {
        self.negotiation.set_needs_reset();
        self.config_interrupt();
    }

    /// Notes the fault of a queue in the place of the one before.
    pub(crate) fn note(&mut self, fault: FaultNote)
        ensures { self.new ≡ self.old }
    {
        self.last_fault = Some(fault);
    }

    /// The configuration changed. Of a block device it never does, so nothing happens there.
    pub fn config_changed(&mut self)
        ensures after { self.new ≡ with_config_changed self.old }
        ensures sound { (m : Memory) → IsSound m self.old → IsSound m self.new }
    {
        if self.kind.changes_configuration() {
            self.config_generation = self.config_generation.wrapping_add(1);
            if self.negotiation.status().contains(Status::DRIVER_OK) {
                self.config_interrupt();
            }
        }
    }

    /// The bits of InterruptStatus, which are at most 3.
    pub fn interrupts(&self) -> u8
        ensures value { result ≡ interrupt_bits self.now.interrupts }
        ensures most { result ≤ 3 }
    {
        self.interrupts.bits()
    }
}
