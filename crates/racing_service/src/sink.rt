//! The smallest device.

use chain::{Chain, Used};
use chain_handler::ChainHandler;
use shared_memory::Shared;

/// A device that takes each chain and writes nothing, as that of a queue whose host discards what it is sent.
#[derive(Clone, Copy)]
pub struct Sink;

impl ChainHandler<()> for Sink {
    ghost use Rattle.racing_service.specs.Sink.{sink};

    type Refusal = ();

    ghost State = { Unit {0} };

    ghost state = { λ here nothing. tt };

    ghost Setup = { Unit {0} };

    ghost setup = { λ here nothing. tt };

    ghost device = { λ fixed. sink };

    ghost Refuses = { λ fixed nothing here readable buffers why. ⊥ };

    ghost IsReady = { λ here nothing. Unit {0} };

    fn takes(&self, backend: &()) -> bool {
        let _ = backend;
        true
    }

    fn serve<M: Shared>(
        &mut self,
        mem: &mut M,
        chain: &Chain,
        backend: &mut (),
    ) -> Result<Used, ()> {
        let _ = mem;
        let _ = chain;
        let _ = backend;
        Ok(Used::UNWRITTEN)
    }
}
