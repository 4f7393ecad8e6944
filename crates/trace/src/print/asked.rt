//! The last field of a record where the host serves a disk: what it is asked to do.
//!
//! It is put operation by operation, in the order of their tags.

ghost use Rattle.std.specs.Prelude.{◌≡◌, ◌++◌, ◌∷◌, []};
ghost use Rattle.std.specs.List.{flat_map};
ghost use Rattle.trace.specs.Asked.{begun_field, device_mark, kind_field, none_mark, operation_field, other_run, run_field, runs_field, sign_before, stable_mark};
ghost use Rattle.trace.specs.Sends.{Sends, waiting};

use crate::print::buffer::Buffer;
use crate::print::records::put_num;
use block_device::{Operation, OperationKind};
use chain::Segment;
use std::alloc::Allocator;
use std::io::Write;

/// Puts an operation that began with an event, by its tag, with the runs where its bytes lie; of a further disk also by the
/// disk's number.
pub fn put_begun<W: Write, B: Allocator>(
    buffer: &mut Buffer<B>,
    out: &mut W,
    is_first: bool,
    device: Option<u8>,
    tag: u8,
    operation: Operation,
    runs: &[Segment],
)
    ensures { Sends (W.contents out.old) (W.contents out.new) (waiting buffer.old)
        (sign_before is_first ++ begun_field (record { device = device; tag = tag; operation = operation; runs = runs.now })) (waiting buffer.new) }
{
    buffer.put(out, sign_before(is_first));
    put_device(buffer, out, device);
    put_num(buffer, out, u64::from(tag));
    buffer.put(out, b"=");
    put_operation(buffer, out, operation, runs);
}

/// Puts the end of the line, where no operation began a `-` before it.
pub fn put_asked_end<W: Write, B: Allocator>(buffer: &mut Buffer<B>, out: &mut W, is_none: bool)
    ensures { Sends (W.contents out.old) (W.contents out.new) (waiting buffer.old) (none_mark is_none ++ 10 ∷ []) (waiting buffer.new) }
{
    let end: &[u8] = if is_none { b"-\n" } else { b"\n" };
    buffer.put(out, end);
}

// What stands before an operation.
fn sign_before(is_first: bool) -> &'static [u8]
    ensures { result.now ≡ sign_before is_first }
{
    if is_first { b"" } else { b";" }
}

// Puts the number of a further disk, and nothing of the slot's own.
fn put_device<W: Write, B: Allocator>(buffer: &mut Buffer<B>, out: &mut W, device: Option<u8>)
    ensures { Sends (W.contents out.old) (W.contents out.new) (waiting buffer.old) (device_mark device) (waiting buffer.new) }
{
    if let Some(number) = device {
        put_num(buffer, out, u64::from(number));
        buffer.put(out, b"/");
    }
}

// Puts an operation and its runs.
fn put_operation<W: Write, B: Allocator>(
    buffer: &mut Buffer<B>,
    out: &mut W,
    operation: Operation,
    runs: &[Segment],
)
    ensures { Sends (W.contents out.old) (W.contents out.new) (waiting buffer.old) (operation_field operation runs.now) (waiting buffer.new) }
{
    buffer.put(out, kind_name(operation.kind));
    buffer.put(out, stable_name(operation.stable));
    buffer.put(out, b":");
    put_num(buffer, out, operation.start);
    buffer.put(out, b":");
    put_num(buffer, out, operation.len);
    buffer.put(out, b":");
    put_runs(buffer, out, runs);
}

// How a kind of operation is spelled.
fn kind_name(kind: OperationKind) -> &'static [u8]
    ensures { result.now ≡ kind_field kind }
{
    match kind {
        OperationKind::In => b"in",
        OperationKind::Out => b"out",
        OperationKind::Flush => b"flush",
        OperationKind::Zeroes => b"zeroes",
    }
}

// What follows it where the operation has to be on the medium before it is done.
fn stable_name(stable: bool) -> &'static [u8]
    ensures { result.now ≡ stable_mark stable }
{
    if stable { b"-stable" } else { b"" }
}

// Puts runs, or `-` where there are none.
fn put_runs<W: Write, B: Allocator>(buffer: &mut Buffer<B>, out: &mut W, runs: &[Segment])
    ensures { Sends (W.contents out.old) (W.contents out.new) (waiting buffer.old) (runs_field runs.now) (waiting buffer.new) }
{
    let [first, others @ ..] = runs else {
        buffer.put(out, b"-");
        return;
    };
    put_run(buffer, out, *first);
    put_others(buffer, out, others);
}

// Puts the runs behind the first, each after a comma.
fn put_others<W: Write, B: Allocator>(buffer: &mut Buffer<B>, out: &mut W, runs: &[Segment])
    ensures { Sends (W.contents out.old) (W.contents out.new) (waiting buffer.old) (flat_map other_run runs.now) (waiting buffer.new) }
{
    for run in runs {
        buffer.put(out, b",");
        put_run(buffer, out, *run);
    }
}

// Puts one run.
fn put_run<W: Write, B: Allocator>(buffer: &mut Buffer<B>, out: &mut W, run: Segment)
    ensures { Sends (W.contents out.old) (W.contents out.new) (waiting buffer.old) (run_field run) (waiting buffer.new) }
{
    put_num(buffer, out, run.addr);
    buffer.put(out, b"+");
    put_num(buffer, out, u64::from(run.len));
}
