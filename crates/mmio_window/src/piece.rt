//! A piece of a service of a window's queue, of any device, and what the window shows of it.

ghost use Rattle.std.specs.Prelude.{◌≡◌, IfOk, IfErr};
ghost use Rattle.guest_memory.specs.Memory.{SameRange};
ghost use Rattle.mmio_window.specs.Leaving.{IsKept};
ghost use Rattle.mmio_window.specs.Pieces.{LeavesChain, ServesTo, fitting};
ghost use Rattle.mmio_window.specs.Soundness.{IsSound};
ghost use Rattle.mmio_window.specs.Window.{queue_at};

use crate::queue_handler::QueueHandler;
use crate::service::{Left, serve_queue, show};
use crate::stage::Stage;
use crate::window::Window;
use chain::{Budget, Chain, Progress, Virtqueue};
use guest_memory::GuestMemory;
use std::alloc::Allocator;

/// Serves a piece of the queue of this number in its device's window. Where the window isn't live or the queue not
/// ready, nothing happens. Where the device leaves a chain on offer the service ends, and those before it are used.
#[inline(always)]
pub fn serve_piece<B, D: QueueHandler<B>, M: Allocator>(
    device: &mut D,
    backend: &mut B,
    q: u16,
    mem: &mut GuestMemory<M>,
    window: &mut Window,
    stage: Stage,
    budget: Budget,
    room: &mut Chain,
) -> Result<Progress, D::Refusal>
    requires sound { IsSound mem.old window.old }
    requires ready { D.IsReady device.old backend.old }
    ensures serves { IfOk result (λ progress. ServesTo stage (fitting (D.device (D.setup device.old backend.old)))
        budget q (queue_at q window.old) progress mem.old mem.new window.old window.new
        (D.state device.old backend.old) (D.state device.new backend.new)) }
    ensures leaves { IfErr result (LeavesChain (D.device (D.setup device.old backend.old))
        (D.Refuses (D.setup device.old backend.old) backend.new) stage budget q (queue_at q window.old)
        mem.old mem.new window.old window.new (D.state device.old backend.old) (D.state device.new backend.new)) }
    ensures setup { D.setup device.new backend.new ≡ D.setup device.old backend.old }
    ensures keeps { IsKept D.Keeps device.old backend.old device.new backend.new }
    ensures ready { D.IsReady device.new backend.new }
    ensures range { SameRange mem.old mem.new }
    ensures sound { IsSound mem.new window.new }
{
    let Some(queue) = window.queue(q) else {
        return Ok(Progress::Done);
    };
    match serve_queue(device, backend, mem, queue, stage, budget, room) {
        Ok(left) => Ok(show(window, q, left, room)),
        Err(refused) => {
            let fault = None;
            let wanted = queue.close(mem);
            let _ = show(window, q, Left::Closed { fault, wanted }, room);
            Err(refused.why)
        }
    }
}
