//! The handler of a queue: it serves chains, one at a time, over what stands behind it.
//!
//! It is over any `Shared` memory, so it is the same for a guest that stands still while it is served and for one that runs on.

ghost use Rattle.std.specs.Prelude.{◌≡◌, ℕ, List, IfOk, IfErr, OnErr};
ghost use Rattle.chain.specs.declared.segment.Buffer.{Buffer};
ghost use Rattle.chain.specs.Buffers.{Good};
ghost use Rattle.chain.specs.Service as service;
ghost use Rattle.shared_memory.specs.Sightings.{memory};
ghost use Rattle.chain_handler.specs.Device.{DoesRaced, RefusesRaced};

use chain::{Chain, Used};
use shared_memory::Shared;

/// The handler of one queue over a backend `B`, as an image or a stream of bytes. A guest that runs on may write the chain
/// meanwhile.
pub trait ChainHandler<B> {
    /// Why a chain is left on offer.
    type Refusal;

    // what a service of it changes
    ghost State: { Type 0 };

    ghost state: { Self → B → State };

    // what it doesn't change, and what the device is to a service by that
    ghost Setup: { Type 0 };

    ghost setup: { Self → B → Setup };

    ghost device: { Setup → service.Device State };

    // by these readable bytes the chain of these buffers may be left on offer, for this; the backend is left so
    ghost Refuses: { Setup → B → State → List ℕ → List Buffer → Self.Refusal → Type 0 };

    // what must hold before a chain, and holds after it
    ghost IsReady: { Self → B → Type 0 };

    /// Whether it takes a chain.
    fn takes(&self, backend: &B) -> bool
        ensures { result ≡ (device (setup self.now backend.now)).takes (state self.now backend.now) };

    /// Serves one chain: reads of it what it needs, and then stores what it writes. Or it leaves the chain on offer, once it
    /// has read.
    fn serve<M: Shared>(
        &mut self,
        mem: &mut M,
        chain: &Chain,
        backend: &mut B,
    ) -> Result<Used, Self::Refusal>
        requires good { Good (memory (M.sightings mem.old)) chain.now }
        requires ready { IsReady self.old backend.old }
        ensures does { IfOk result (λ used. DoesRaced (device (setup self.old backend.old)) M.races
            (M.sightings mem.old) (M.sightings mem.new) chain.now (state self.old backend.old)
            (state self.new backend.new) used.len used.wrote) }
        ensures refuses { IfErr result (RefusesRaced (Refuses (setup self.old backend.old) backend.new) M.races
            (M.sightings mem.old) (M.sightings mem.new) chain.now (state self.old backend.old)) }
        ensures kept { OnErr result (state self.new backend.new ≡ state self.old backend.old) }
        ensures setup { setup self.new backend.new ≡ setup self.old backend.old }
        ensures ready { IsReady self.new backend.new };
}
