//! A chain that is answered at once: what it is given is stored byte by byte, the status last.

ghost use Rattle.std.specs.Prelude.{◌≡◌, ℕ, List, false};
ghost use Rattle.guest_memory.specs.Memory.{SameRange};
ghost use Rattle.chain.specs.Buffers.{Good};
ghost use Rattle.shared_memory.specs.Sightings.{memory};
ghost use Rattle.block_device.specs.Asking.{asks_image};
ghost use Rattle.racing_disk.specs.Answering.{HasFound, IsAnsweredIn};
ghost use Rattle.racing_disk.specs.Telling.{IsLeft, WasLeft};

use crate::disk::RacingDisk;
use block_device::{Done, Request, RequestStatus};
use chain::{Chain, Runs};
use chain_handler::store_in_chain;
use racing_service::RacingQueue;
use shared_memory::Shared;

impl RacingDisk {
    /// Answers the chain that was taken last, whose request asks nothing of the disk, and gives it back. Answers its used
    /// length.
    pub fn answer<Q: RacingQueue, M: Shared>(
        &self,
        mem: &mut M,
        queue: &mut Q,
        token: Q::Token,
        request: Request,
        chain: &Chain,
        runs: &Runs,
    ) -> u32
        requires lies { Q.LiesIn (memory (M.sightings mem.old)) queue.old }
        requires taken { Q.IsTaken queue.old token }
        requires good { Good (memory (M.sightings mem.old)) chain.now }
        requires left { WasLeft self.now.device chain.now request runs.now }
        requires asks { asks_image request ≡ false }
        ensures answered { (readable : List ℕ) → IsLeft self.now.device readable chain.now request runs.now →
            IsAnsweredIn Q.kind self.now.device M.races (M.sightings mem.old) (M.sightings mem.new) readable chain.now
            (Q.entry_of token) result queue.old queue.new }
        ensures lies { Q.LiesIn (memory (M.sightings mem.new)) queue.new }
    {
        // What it ensures: there are fewer than 2^32 bytes.
        let _ = chain.buffers();
        let done = self.store_found(mem, request, chain, runs);
        mem.store_u8(chain.last_writable(), done.status.code());
        let used = done.used(chain.writable_len());
        queue.give(mem, token, used);
        used.len
    }

    /// Stores what a request finds that asks nothing of the disk.
    fn store_found<M: Shared>(
        &self,
        mem: &mut M,
        request: Request,
        chain: &Chain,
        runs: &Runs,
    ) -> Done
        requires good { Good (memory (M.sightings mem.old)) chain.now }
        requires left { WasLeft self.now.device chain.now request runs.now }
        requires asks { asks_image request ≡ false }
        ensures found { HasFound self.now.device M.races (M.sightings mem.old) (M.sightings mem.new) chain.now request
            result.len result.status }
        ensures range { SameRange (memory (M.sightings mem.old)) (memory (M.sightings mem.new)) }
    {
        let _ = runs;
        match request {
            Request::GetId => {
                store_in_chain(mem, chain, 0, &self.device.identity);
                Done {
                    len: 20,
                    status: RequestStatus::Success,
                }
            }
            Request::Rejected(status) => Done { len: 0, status },
            _ => unreachable!(),
        }
    }
}
