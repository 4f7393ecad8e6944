//! The handler of a queue: it serves chains, one at a time, over what stands behind it.

ghost use Rattle.std.specs.Prelude.{◌≡◌, ℕ, List, IfOk, IfErr, OnErr};
ghost use Rattle.guest_memory.specs.Memory.{Memory, SameRange};
ghost use Rattle.chain.specs.declared.segment.Buffer.{Buffer};
ghost use Rattle.chain.specs.Buffers.{Good};
ghost use Rattle.chain.specs.Service as service;
ghost use Rattle.chain.specs.Service.{Does};

use chain::{Chain, Used};
use guest_memory::GuestMemory;
use std::alloc::Allocator;

/// The handler of one queue of a device, over a backend `B`, as an image or a stream of bytes.
pub trait QueueHandler<B> {
    /// Why a chain is left on offer.
    type Refusal;

    // what a service of it changes
    ghost State: { Type 0 };

    ghost state: { Self → B → State };

    // what it doesn't change, and what the device is to a service by that
    ghost Setup: { Type 0 };

    ghost setup: { Self → B → Setup };

    ghost device: { Setup → service.Device State };

    // this chain may be left on offer, for this; the backend is left so
    ghost Refuses: { Setup → B → State → Memory → List Buffer → Self.Refusal → Type 0 };

    // what must hold before a chain, and holds after it
    ghost IsReady: { Self → B → Type 0 };

    // what one chain keeps
    ghost Keeps: { Self → B → Self → B → Type 0 };

    /// Whether it takes a chain.
    fn takes(&self, backend: &B) -> bool
        ensures { result ≡ (device (setup self.now backend.now)).takes (state self.now backend.now) };

    /// Serves one chain, or leaves all as it was.
    fn serve<M: Allocator>(
        &mut self,
        mem: &mut GuestMemory<M>,
        chain: &Chain,
        backend: &mut B,
    ) -> Result<Used, Self::Refusal>
        requires good { Good mem.old chain.now }
        requires ready { IsReady self.old backend.old }
        ensures does { IfOk result (λ used. Does (device (setup self.old backend.old)) mem.old mem.new chain.now
            (state self.old backend.old) (state self.new backend.new) used.len used.wrote) }
        ensures refuses { IfErr result (Refuses (setup self.old backend.old) backend.new (state self.old backend.old)
            mem.old chain.now) }
        ensures kept { OnErr result (state self.new backend.new ≡ state self.old backend.old) }
        ensures unwritten { OnErr result (mem.new ≡ mem.old) }
        ensures setup { setup self.new backend.new ≡ setup self.old backend.old }
        ensures keeps { Keeps self.old backend.old self.new backend.new }
        ensures ready { IsReady self.new backend.new }
        ensures range { SameRange mem.old mem.new };
}
