//! What a disk is asked for, as C has it.

ghost use Rattle.std.specs.Prelude.{◌≡◌, ◌≤◌, length};
ghost use Rattle.c_values.specs.Operation.{kind_code, told_operation, told_run, told_runs, verdict_of};

use block_device::{OperationKind, Verdict};
use chain::Segment;

/// One operation on a guest's disk.
#[derive(Clone, Copy, Debug, PartialEq, Eq)]
#[repr(C)]
pub struct Operation {
    /// IN, OUT, FLUSH or ZEROES, from 0 on.
    pub kind: u32,
    /// How many runs it has.
    pub runs: u32,
    /// The first byte on the disk.
    pub start: u64,
    /// How many bytes the runs of an IN or OUT have.
    pub len: u64,
    /// Whether what it writes is to be on the medium before it is completed.
    pub stable: bool,
}

/// `len` bytes from `at` on, of guest memory or of a disk.
#[derive(Clone, Copy, Debug, PartialEq, Eq)]
#[repr(C)]
pub struct Run {
    pub at: u64,
    pub len: u64,
}

impl Operation {
    /// An operation with its runs, of which there are 256 at most.
    pub fn of(operation: block_device::Operation, runs: &[Segment]) -> Operation
        requires { length runs.now ≤ 256 }
        ensures { result ≡ told_operation operation runs.now }
    {
        Operation {
            kind: number_of(operation.kind),
            runs: runs.len() as u32,
            start: operation.start,
            len: operation.len,
            stable: operation.stable,
        }
    }
}

impl Run {
    // A run of guest memory or of a disk.
    fn of(run: Segment) -> Run
        ensures { result ≡ told_run run }
    {
        Run {
            at: run.addr,
            len: u64::from(run.len),
        }
    }
}

// The number of a kind.
fn number_of(kind: OperationKind) -> u32
    ensures { result ≡ kind_code kind }
{
    match kind {
        OperationKind::In => 0,
        OperationKind::Out => 1,
        OperationKind::Flush => 2,
        OperationKind::Zeroes => 3,
    }
}

/// Tells the first of these runs, as many as find room.
pub fn tell_runs(runs: &[Segment], room: &mut [Run])
    ensures { room.new ≡ told_runs runs.now room.old }
{
    for place in 0..runs.len() {
        if place >= room.len() {
            return;
        }
        room[place] = Run::of(runs[place]);
    }
}

/// What came of an operation.
pub fn verdict(failed: bool) -> Verdict
    ensures { result ≡ verdict_of failed }
{
    if failed {
        Verdict::Failed
    } else {
        Verdict::Done
    }
}
