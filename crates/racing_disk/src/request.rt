//! One request as its driver wrote it (5.2.6): its header and its segments are copied once, and everything that can be
//! refused without the disk is refused by that copy.

ghost use Rattle.std.specs.Prelude.{◌*◌, ◌^◌, ◌<◌};
ghost use Rattle.chain.specs.Buffers.{Good};
ghost use Rattle.shared_memory.specs.Sightings.{Loads, memory};
ghost use Rattle.block_device.specs.Extent.{sector_len};
ghost use Rattle.racing_disk.specs.Judging.{IsJudged};

use crate::disk::RacingDisk;
use crate::header::read_header;
use block_device::{HEADER_LEN, Headed, Request, RequestStatus};
use chain::{Chain, Runs};
use shared_memory::Shared;

impl RacingDisk {
    /// The request that a chain holds, with `room` writable bytes before the status. Of a WRITE_ZEROES `runs` has then what
    /// its segments name.
    pub fn request<M: Shared>(
        &self,
        mem: &mut M,
        chain: &Chain,
        room: u64,
        runs: &mut Runs,
    ) -> Request
        requires good { Good (memory (M.sightings mem.old)) chain.now }
        requires disk { sector_len * self.now.device.extent.count < 2 ^ 64 }
        ensures judged { IsJudged self.now.device (M.sightings mem.old) (M.sightings mem.new) chain.now room result runs.new }
        ensures loads { Loads M.races (M.sightings mem.old) (M.sightings mem.new) }
    {
        let readable = chain.readable_len();
        if readable < HEADER_LEN {
            return Request::Rejected(RequestStatus::IoError);
        }
        let header = read_header(mem, chain);
        match self.device.headed_by(header, readable, room) {
            Headed::Known(request) => request,
            Headed::Zeroes(_) => self.zeroes_request(mem, chain, readable - HEADER_LEN, runs),
        }
    }
}
