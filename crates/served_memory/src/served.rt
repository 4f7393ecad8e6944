//! What a device's queues are served by.

ghost use Rattle.std.specs.Prelude.{◌≡◌, IfOk, IfErr};
ghost use Rattle.guest_memory.specs.Memory.{SameRange};
ghost use Rattle.mmio_window.specs.Soundness.{IsSound};
ghost use Rattle.mmio_window.specs.Window.{queue_at};
ghost use Rattle.served_memory.specs.Laws.{WorldLaws};
ghost use Rattle.served_memory.specs.World.{LeftBy, World};

use chain::{Chain, Progress};
use chain_handler::{ChainHandler, Standing};
use guest_memory::GuestMemory;
use mmio_window::{Stage, Window, serve_piece};
use racing_service::Limits;
use std::alloc::Allocator;

/// A guest's memory, by which a device serves its queues.
pub trait Served {
    /// Where a service puts what it reads, beside the chain.
    type Room;

    // what a service is
    ghost world: { World };

    ghost laws: { WorldLaws world };

    // what the memory is seen as
    ghost seen: { Self → world.Seen };

    /// Serves a piece of the queue of this number in its device's window. Where the window isn't live or the queue not ready,
    /// nothing happens. Where the device leaves a chain on offer the service ends, and those before it are used. What `chain`
    /// and `room` hold before is of no account.
    fn serve<B, H: ChainHandler<B>>(
        &mut self,
        device: &mut Standing<H>,
        backend: &mut B,
        q: u16,
        window: &mut Window,
        stage: Stage,
        limits: Limits,
        chain: &mut Chain,
        room: &mut Self::Room,
    ) -> Result<Progress, H::Refusal>
        requires sound { IsSound (world.last (seen self.old)) window.old }
        requires ready { H.IsReady device.old.0 backend.old }
        ensures serves { IfOk result (λ progress. world.ServesTo (H.device (H.setup device.old.0 backend.old)) stage limits q
            (queue_at q window.old) progress (seen self.old) (seen self.new) window.old window.new
            (H.state device.old.0 backend.old) (H.state device.new.0 backend.new)) }
        ensures leaves { IfErr result (LeftBy (H.device (H.setup device.old.0 backend.old))
            (H.Refuses (H.setup device.old.0 backend.old) backend.new)
            (world.RefusedTo (H.device (H.setup device.old.0 backend.old)) stage limits q (queue_at q window.old)
            (seen self.old) (seen self.new) window.old window.new
            (H.state device.old.0 backend.old) (H.state device.new.0 backend.new)) (H.state device.new.0 backend.new)) }
        ensures setup { H.setup device.new.0 backend.new ≡ H.setup device.old.0 backend.old }
        ensures ready { H.IsReady device.new.0 backend.new }
        ensures range { SameRange (world.last (seen self.old)) (world.last (seen self.new)) }
        ensures sound { IsSound (world.last (seen self.new)) window.new };
}

/// A guest that stands still.
impl<A: Allocator> Served for GuestMemory<A> {
    ghost use Rattle.served_memory.specs.World.{standing};
    ghost use Rattle.served_memory.specs.Standing.{standing_laws};

    type Room = ();

    ghost world = { standing };

    ghost laws = { standing_laws };

    ghost seen = { λ m. m };

    #[inline(always)]
    fn serve<B, H: ChainHandler<B>>(
        &mut self,
        device: &mut Standing<H>,
        backend: &mut B,
        q: u16,
        window: &mut Window,
        stage: Stage,
        limits: Limits,
        chain: &mut Chain,
        _room: &mut (),
    ) -> Result<Progress, H::Refusal> {
        let budget = limits.budget;
        serve_piece(device, backend, q, self, window, stage, budget, chain)
    }
}
