//! A window as somebody sees it who only looks.

ghost use Rattle.std.specs.Prelude.{◌≡◌, Some, None, IfSome, IfNone};
ghost use Rattle.mmio_window.specs.Window.{registers_of};

use crate::device_kind::QueueIndex;
use crate::fault_note::FaultNote;
use crate::queue_registers::QueueRegisters;
use crate::window::Window;
use negotiation::Negotiation;

impl Window {
    /// Its status and features.
    pub fn negotiation(&self) -> &Negotiation
        ensures { result.now ≡ self.now.negotiation }
    {
        &self.negotiation
    }

    /// The registers of a queue, and its ring while it is ready. There are none where the device has no such queue.
    pub fn registers(&self, q: u32) -> Option<&QueueRegisters>
        ensures there { IfSome result (λ found. registers_of q self.now ≡ Some found.now) }
        ensures missing { IfNone result (registers_of q self.now ≡ None) }
    {
        match self.kind.queue(q) {
            Some(QueueIndex::Queue0) => Some(&self.queue_0),
            Some(QueueIndex::Queue1) => Some(&self.queue_1),
            None => None,
        }
    }

    /// The queue that the queue registers speak of.
    pub fn queue_sel(&self) -> u32
        ensures { result ≡ self.now.queue_sel }
    {
        self.queue_sel
    }

    /// The last fault of its queues, and where it was met: none until one came. A reset and a restore keep it. No clause
    /// speaks of it.
    pub fn last_fault(&self) -> Option<FaultNote> {
        self.last_fault
    }

    /// How often the configuration changed, modulo 2^32.
    pub fn config_generation(&self) -> u32
        ensures { result ≡ self.now.config_generation }
    {
        self.config_generation
    }
}
