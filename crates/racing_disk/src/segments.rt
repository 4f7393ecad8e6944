//! The segments of a WRITE_ZEROES (5.2.6), by one copy. What the host is told is made of the segments that were judged.

ghost use Rattle.std.specs.Prelude.{◌≡◌, ◌+◌, ◌*◌, ◌^◌, ◌<◌, ◌≤◌, false, IfErr, IfOk};
ghost use Rattle.chain.specs.Buffers.{Good};
ghost use Rattle.chain.specs.Bytes.{len_of};
ghost use Rattle.shared_memory.specs.Sightings.{Loads, memory};
ghost use Rattle.block_device.specs.declared.request.Request.TheVariants.{Rejected};
ghost use Rattle.block_device.specs.Extent.{sector_len};
ghost use Rattle.block_device.specs.Request.{AreJudged, write_zeroes_request_of};
ghost use Rattle.block_device.specs.Zeroes.{max_write_zeroes_seg, segment_len};
ghost use Rattle.racing_disk.specs.Copying.{HasPayload};
ghost use Rattle.racing_disk.specs.Judging.{IsZeroing};
ghost use Rattle.racing_disk.specs.Segments.{HasSegments};

use crate::disk::RacingDisk;
use block_device::{
    HEADER_LEN, MOST_SEGMENT_BYTES, Request, RequestStatus, Segments, are_segments,
};
use chain::{Chain, Runs};
use chain_handler::read_in_chain;
use shared_memory::Shared;

/// The segments in the `len` bytes behind the header of a chain, which are copied into `bytes`.
fn read_segments<M: Shared>(
    mem: &mut M,
    chain: &Chain,
    len: u64,
    bytes: &mut [u8; MOST_SEGMENT_BYTES],
) -> Segments
    requires good { Good (memory (M.sightings mem.old)) chain.now }
    requires payload { len_of false chain.now ≡ 16 + len }
    requires few { len ≤ segment_len * max_write_zeroes_seg }
    ensures copied { HasPayload (M.sightings mem.old) (M.sightings mem.new) chain.now
        (λ payload. HasSegments len payload result) }
    ensures loads { Loads M.races (M.sightings mem.old) (M.sightings mem.new) }
{
    let payload = &mut bytes[..len as usize];
    read_in_chain(mem, chain, HEADER_LEN, payload);
    Segments::of(payload)
}

impl RacingDisk {
    /// WRITE_ZEROES of the segments in `len` bytes.
    pub(crate) fn zeroes_request<M: Shared>(
        &self,
        mem: &mut M,
        chain: &Chain,
        len: u64,
        runs: &mut Runs,
    ) -> Request
        requires good { Good (memory (M.sightings mem.old)) chain.now }
        requires disk { sector_len * self.now.device.extent.count < 2 ^ 64 }
        requires payload { len_of false chain.now ≡ 16 + len }
        ensures zeroing { HasPayload (M.sightings mem.old) (M.sightings mem.new) chain.now
            (λ payload. IsZeroing self.now.device payload result runs.new) }
        ensures loads { Loads M.races (M.sightings mem.old) (M.sightings mem.new) }
    {
        match self.judged_segments(mem, chain, len) {
            Ok(segments) => {
                segments.tell(self.device.extent.count, runs);
                Request::WriteZeroes {
                    segments: segments.as_slice().len() as u64,
                }
            }
            Err(status) => Request::Rejected(status),
        }
    }

    /// The segments of a WRITE_ZEROES whose data has `len` bytes, or the status by which it is rejected. No other call
    /// reads them.
    fn judged_segments<M: Shared>(
        &self,
        mem: &mut M,
        chain: &Chain,
        len: u64,
    ) -> Result<Segments, RequestStatus>
        requires good { Good (memory (M.sightings mem.old)) chain.now }
        requires payload { len_of false chain.now ≡ 16 + len }
        ensures ok { IfOk result (λ segments. HasPayload (M.sightings mem.old) (M.sightings mem.new) chain.now
            (λ payload. AreJudged self.now.device payload segments)) }
        ensures err { IfErr result (λ status. HasPayload (M.sightings mem.old) (M.sightings mem.new) chain.now
            (λ payload. write_zeroes_request_of self.now.device payload ≡ Rejected status)) }
        ensures loads { Loads M.races (M.sightings mem.old) (M.sightings mem.new) }
    {
        if self.device.read_only || !are_segments(len) {
            return Err(RequestStatus::IoError);
        }
        let mut bytes = [0; MOST_SEGMENT_BYTES];
        let segments = read_segments(mem, chain, len, &mut bytes);
        self.device.judged(segments)
    }
}
