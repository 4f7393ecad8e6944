//! The device to a service of its queue: it leaves each request on offer, as it was judged.

use crate::disk::RacingDisk;
use block_device::Request;
use chain::{Chain, Runs, Used};
use chain_handler::ChainHandler;
use shared_memory::Shared;

/// A chain without a place for a status is used at once. Any other is left, with its request and the runs of its segments.
impl ChainHandler<Runs> for RacingDisk {
    type Refusal = Request;

    ghost use Rattle.std.specs.Prelude.{◌*◌, ◌^◌, ◌<◌};
    ghost use Rattle.block_device.specs.declared.device.BlockDevice.{BlockDevice};
    ghost use Rattle.block_device.specs.Extent.{sector_len};
    ghost use Rattle.block_device.specs.Hosting.{hosted_device};
    ghost use Rattle.racing_disk.specs.Telling.{IsLeft};

    ghost State = { Unit {0} };

    ghost state = { λ here runs. tt };

    ghost Setup = { BlockDevice };

    ghost setup = { λ here runs. here.device };

    ghost device = { λ fixed. hosted_device fixed };

    ghost Refuses = { λ fixed runs state readable buffers request. IsLeft fixed readable buffers request runs };

    ghost IsReady = { λ here runs. sector_len * here.device.extent.count < 2 ^ 64 };

    fn takes(&self, runs: &Runs) -> bool {
        let _ = runs;
        true
    }

    fn serve<M: Shared>(
        &mut self,
        mem: &mut M,
        chain: &Chain,
        runs: &mut Runs,
    ) -> Result<Used, Request> {
        let writable = chain.writable_len();
        if writable == 0 {
            return Ok(Used::UNWRITTEN);
        }
        Err(self.request(mem, chain, writable - 1, runs))
    }
}
