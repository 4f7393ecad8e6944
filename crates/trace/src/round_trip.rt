//! There and back: a trace printed, and its text read.

ghost use Rattle.std.specs.Prelude.{◌≡◌, IfOk};
ghost use Rattle.trace.specs.Printable.{IsPrintable};
ghost use Rattle.trace.specs.Text.{content};

use crate::fault::{FaultKind, TraceFault};
use crate::no_memory::NoMemory;
use crate::print::print_trace;
use crate::read::read_trace;
use crate::trace::Trace;
use std::alloc::Allocator;

/// Prints a trace and reads the text: the same trace, for want of memory alone not. `is_printable` is the
/// test.
pub fn read_back<A: Allocator + Copy>(alloc: A, trace: &Trace<A>) -> Result<Trace<A>, NoMemory>
    requires { IsPrintable (content trace.now) }
    ensures { IfOk result (λ back. content back ≡ content trace.now) }
{
    let text = print_trace(alloc, trace)?;
    match read_trace(alloc, &text) {
        Ok(back) => Ok(back),
        Err(TraceFault { kind, .. }) => match kind {
            FaultKind::NoMemory => Err(NoMemory),
            _ => unreachable!(),
        },
    }
}
