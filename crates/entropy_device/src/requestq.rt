//! The requestq's handler: it serves chains over the pool.

use crate::device::EntropyDevice;
use chain::{Chain, Used};
use chain_handler::ChainHandler;
use shared_memory::Shared;

/// Puts the pool's bytes into chains. It refuses none.
#[derive(Drop)]
pub(crate) struct Requestq;

impl ChainHandler<EntropyDevice> for Requestq {
    type Refusal = ();

    ghost use Rattle.std.specs.Prelude.{ℕ, List};
    ghost use Rattle.entropy_device.specs.Device.{entropy};

    ghost State = { List ℕ };

    ghost state = { λ here pool. pool };

    ghost Setup = { Unit {0} };

    ghost setup = { λ here pool. tt };

    ghost device = { λ fixed. entropy };

    ghost Refuses = { λ fixed left pool readable buffers why. ⊥ };

    ghost IsReady = { λ here pool. Unit {0} };

    fn takes(&self, pool: &EntropyDevice) -> bool {
        !pool.is_empty()
    }

    fn serve<M: Shared>(
        &mut self,
        mem: &mut M,
        chain: &Chain,
        pool: &mut EntropyDevice,
    ) -> Result<Used, ()> {
        let count = pool.fill(mem, chain);
        Ok(Used {
            len: count as u32,
            wrote: count > 0,
        })
    }
}
