//! What a host that serves a disk itself is asked to do with it, and what it says of that.

ghost use Rattle.std.specs.Prelude.{◌≡◌, ◌*◌, ◌^◌, ◌<◌};
ghost use Rattle.block_device.specs.Extent.{sector_len};
ghost use Rattle.block_device.specs.Operation.{HasPlaces, operation_of, runs_with};

use crate::device::BlockDevice;
use crate::header::HEADER_LEN;
use crate::request::{Request, SECTOR_LEN};
use chain::{Chain, Runs};

/// What is to be done (5.2.6).
#[derive(Clone, Copy, Debug, PartialEq, Eq)]
pub enum OperationKind {
    /// Bytes of the disk go into the runs.
    In,
    /// The bytes of the runs go to the disk.
    Out,
    /// What was written before reaches the medium.
    Flush,
    /// The runs become zeros. They are of the disk.
    Zeroes,
}

/// An operation on one guest's disk. Its bytes lie in runs: of guest memory, or of a ZEROES on the disk.
#[derive(Clone, Copy, Debug, PartialEq, Eq)]
pub struct Operation {
    pub kind: OperationKind,
    /// The first byte on the disk; 0 of FLUSH and ZEROES.
    pub start: u64,
    /// How many bytes the runs of an IN or OUT have; 0 of FLUSH and ZEROES.
    pub len: u64,
    /// Whether what it writes has to be on the medium before it is completed, since the driver can't flush (5.2.6.2).
    pub stable: bool,
}

impl Operation {
    /// Brings to the medium what was written before.
    const FLUSH: Operation = Operation {
        kind: OperationKind::Flush,
        start: 0,
        len: 0,
        stable: false,
    };
}

/// How an operation came out, as the host says.
#[derive(Clone, Copy, Debug, PartialEq, Eq)]
pub enum Verdict {
    /// All of it was done. What was read stands in guest memory.
    Done,
    /// It failed. What was to be read may be there in part, or not at all.
    Failed,
}

/// What the host says of a disk that it serves.
#[derive(Clone, Copy, Debug, PartialEq, Eq)]
pub enum HostEvent {
    /// The operation of this tag is done, or failed.
    Complete { tag: u8, verdict: Verdict },
    /// No transfer touches the guest's memory any more: what is in flight is given up, and the device asks to be reset
    /// (2.1.2).
    Drop,
    /// No further chain is taken until `Release`.
    Hold,
    /// Chains are taken again, first those that wait.
    Release,
}

impl BlockDevice {
    /// What the host is told of a request: the operation, and in `runs` where its bytes lie. Those of a WRITE_ZEROES
    /// stand there already. `stable` is whether its driver can't flush.
    pub fn tell(&self, chain: &Chain, request: Request, stable: bool, runs: &mut Runs) -> Operation
        requires disk { sector_len * self.now.extent.count < 2 ^ 64 }
        requires places { HasPlaces self.now.extent.count chain.now request }
        ensures operation { result ≡ operation_of stable request }
        ensures runs { runs.new ≡ runs_with runs.old request chain.now }
    {
        match request {
            Request::Read { sector, count } => {
                let len = SECTOR_LEN * count;
                chain.runs(true, 0, len, runs);
                Operation {
                    kind: OperationKind::In,
                    start: SECTOR_LEN * sector,
                    len,
                    stable: false,
                }
            }
            Request::Write { sector, count } => {
                let len = SECTOR_LEN * count;
                chain.runs(false, HEADER_LEN, HEADER_LEN + len, runs);
                Operation {
                    kind: OperationKind::Out,
                    start: SECTOR_LEN * sector,
                    len,
                    stable,
                }
            }
            Request::WriteZeroes { .. } => Operation {
                kind: OperationKind::Zeroes,
                stable,
                ..Operation::FLUSH
            },
            Request::Flush => {
                runs.clear();
                Operation::FLUSH
            }
            Request::Rejected(_) | Request::GetId => unreachable!(),
        }
    }
}
