//! Whether a chain waits in a queue.

ghost use Rattle.std.specs.Prelude.{◌≡◌};
ghost use Rattle.mmio_window.specs.Offering.{has_offer, is_offered};
ghost use Rattle.mmio_window.specs.Queue.{LiesIn};
ghost use Rattle.mmio_window.specs.Soundness.{IsSound};
ghost use Rattle.mmio_window.specs.Window.{queue_at};

use crate::queue::Queue;
use crate::queue_registers::QueueRegisters;
use crate::window::Window;
use chain::{Chain, Virtqueue};
use guest_memory::GuestMemory;
use std::alloc::Allocator;

impl Window {
    /// Whether a chain is on offer in a queue that the device may serve: a service that is opened now finds one, or a fault
    /// in its place. `room` is where the chain stands: what it holds before is of no account.
    pub fn has_offer<M: Allocator>(&self, q: u16, mem: &GuestMemory<M>, room: &mut Chain) -> bool
        requires sound { IsSound mem.now self.now }
        ensures { result ≡ is_offered mem.now (queue_at q self.now) }
    {
        if !self.may_serve(q) {
            return false;
        }
        match self.registers(u32::from(q)) {
            Some(
                QueueRegisters {
                    ring: Some(queue),
                    ..
                },
            ) => has_offer(queue, mem, room),
            _ => false,
        }
    }
}

/// Whether a service that is opened now finds a chain. A copy of the queue is asked, so that the queue stays as it is.
fn has_offer<M: Allocator>(queue: &Queue, mem: &GuestMemory<M>, room: &mut Chain) -> bool
    requires { LiesIn mem.now queue.now }
    ensures { result ≡ has_offer mem.now queue.now }
{
    let mut asked = queue.copied();
    asked.open(mem).is_ok() && !matches!(asked.take(mem, room), Ok(None))
}
