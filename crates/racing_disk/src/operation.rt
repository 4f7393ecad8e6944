//! What the host is asked to do for a chain, which stays in flight until it is done.

ghost use Rattle.std.specs.Prelude.{◌≡◌, ◌*◌, ◌^◌, ◌<◌, ℕ, List, true};
ghost use Rattle.guest_memory.specs.Memory.{Inside, Memory};
ghost use Rattle.chain.specs.Buffers.{Good};
ghost use Rattle.block_device.specs.Asking.{asks_image};
ghost use Rattle.block_device.specs.Extent.{sector_len};
ghost use Rattle.block_device.specs.Operation.{LiesInside, operation_of, runs_by};
ghost use Rattle.racing_disk.specs.Telling.{HasStatus, IsLeft, WasLeft};

use crate::disk::RacingDisk;
use block_device::{Flight, Request};
use chain::{Chain, Runs};
use racing_service::RacingQueue;

impl RacingDisk {
    /// Leaves the chain that was taken last in flight, whose request asks for the disk. `runs` has then where the bytes of its
    /// operation lie. `stable` is whether its driver can't flush.
    pub fn launch<Q: RacingQueue>(
        &self,
        queue: &mut Q,
        token: Q::Token,
        request: Request,
        stable: bool,
        chain: &Chain,
        runs: &mut Runs,
    ) -> Flight<Q::Token>
        requires taken { Q.IsTaken queue.old token }
        requires disk { sector_len * self.now.device.extent.count < 2 ^ 64 }
        requires left { WasLeft self.now.device chain.now request runs.old }
        requires asks { asks_image request ≡ true }
        ensures launched { queue.new ≡ Q.kind.still.launched queue.old (Q.entry_of token) }
        ensures token { result.token ≡ token }
        ensures ahead { Q.IsAhead queue.new result.token }
        ensures lies { (m : Memory) → Q.LiesIn m queue.old → Q.LiesIn m queue.new }
        ensures operation { result.operation ≡ operation_of stable request }
        ensures runs { (readable : List ℕ) → IsLeft self.now.device readable chain.now request runs.old →
            runs.new ≡ runs_by request readable chain.now }
        ensures status { HasStatus chain.now result.status result.writable }

        // Nothing that the host is told lies outside the guest's memory or its disk.
        ensures inside { (m : Memory) → Good m chain.now → LiesInside self.now.device.extent.count m result.operation runs.new }
        ensures room { (m : Memory) → Good m chain.now → Inside m result.status 1 }
    {
        // What it ensures: there are fewer than 2^32 bytes.
        let _ = chain.buffers();
        let operation = self.device.tell(chain, request, stable, runs);
        queue.launch(&token);
        Flight {
            token,
            operation,
            status: chain.last_writable(),
            writable: chain.writable_len() as u32,
        }
    }
}
