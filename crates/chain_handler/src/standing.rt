//! A handler to a service of a guest that stands still.

use crate::handler::ChainHandler;
use chain::{Chain, Used};
use guest_memory::GuestMemory;
use mmio_window::QueueHandler;
use std::alloc::Allocator;

/// The handler of a queue whose guest stands still while it is served.
#[derive(Drop)]
pub struct Standing<H>(pub H);

impl<B, H: ChainHandler<B>> QueueHandler<B> for Standing<H> {
    type Refusal = H::Refusal;

    ghost use Rattle.chain.specs.Bytes.{readable_of};

    ghost State = { H.State };

    ghost state = { λ here backend. H.state here.0 backend };

    ghost Setup = { H.Setup };

    ghost setup = { λ here backend. H.setup here.0 backend };

    ghost device = { H.device };

    ghost Refuses = { λ fixed left state memory buffers why.
        H.Refuses fixed left state (readable_of memory buffers) buffers why };

    ghost IsReady = { λ here backend. H.IsReady here.0 backend };

    ghost Keeps = { λ here backend there later. Unit {0} };

    fn takes(&self, backend: &B) -> bool {
        self.0.takes(backend)
    }

    fn serve<M: Allocator>(
        &mut self,
        mem: &mut GuestMemory<M>,
        chain: &Chain,
        backend: &mut B,
    ) -> Result<Used, H::Refusal> {
        self.0.serve(mem, chain, backend)
    }
}
