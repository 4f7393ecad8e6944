//! Whether a window can stand over another memory than the one that its queues were made ready over.

ghost use Rattle.std.specs.Prelude.{◌≡◌, IsTrue};
ghost use Rattle.guest_memory.specs.Memory.{Memory};
ghost use Rattle.mmio_window.specs.Soundness.{IsSound};
ghost use Rattle.shared_memory.specs.Sightings.{memory};
ghost use Rattle.racing_window.specs.Memory.{is_made_ready, queue_fits, window_fits};

use mmio_window::{QueueRegisters, Register, SavedQueue, Window};
use negotiation::Negotiation;
use shared_memory::{RangesOf, Shared};

/// Whether each ready queue of the window could be made ready over this memory, as a write to QueueReady judges it: its areas are
/// aligned and lie there. The window is then sound for it.
pub fn fits<M: Shared>(window: &Window, mem: &M) -> bool
    ensures fits { result ≡ window_fits (memory (M.sightings mem.now)) window.now }
    ensures sound { IsTrue result → (m : Memory) → IsSound m window.now → IsSound (memory (M.sightings mem.now)) window.now }
{
    let saved = window.saved();
    let negotiation = window.negotiation();
    queue_fits(&saved.queue_0, negotiation, mem) && queue_fits(&saved.queue_1, negotiation, mem)
}

// Whether a queue isn't ready, or could be made so again over this memory.
fn queue_fits<M: Shared>(queue: &SavedQueue, negotiation: &Negotiation, mem: &M) -> bool
    ensures { result ≡ queue_fits (memory (M.sightings mem.now)) negotiation.now queue.now }
{
    queue.reached.is_none() || is_made_ready(queue, negotiation, mem)
}

// Whether a queue with these registers could be made ready over this memory.
fn is_made_ready<M: Shared>(queue: &SavedQueue, negotiation: &Negotiation, mem: &M) -> bool
    ensures { result ≡ is_made_ready (memory (M.sightings mem.now)) negotiation.now queue.now }
{
    let mut registers = QueueRegisters {
        number: queue.number,
        descriptor_area: queue.descriptor_area,
        driver_area: queue.driver_area,
        device_area: queue.device_area,
        ring: None,
    };
    registers.write(Register::QueueReady, 1, negotiation, &RangesOf(mem));
    registers.ring.is_some()
}
