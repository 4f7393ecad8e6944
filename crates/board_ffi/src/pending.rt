//! What waits for a guest and for its host once a call is answered.

ghost use Rattle.std.specs.Prelude.{◌≡◌, IfNone, IfSome};
ghost use Rattle.board_ffi.specs.Calls.{TellsOf, pending_by};

use c_values::Pending;
use session::{Session, Waits};

/// Tells what waits for a slot; of one that isn't there nothing is told.
pub(crate) fn tell(session: &Session, slot: u8, pending: &mut Pending)
    ensures { TellsOf slot session.now pending.old pending.new }
{
    if let (Some((block, console)), Some(output)) = (
        session.interrupts(slot),
        session.output_len(slot),
    ) {
        *pending = Pending::of(block, console, output);
    }
}

/// Tells what a call of a slot told.
#[inline(always)]
pub(crate) fn tell_waits(waits: Option<Waits>, pending: &mut Pending)
    ensures told { IfSome waits (λ found. pending.new ≡ pending_by found) }
    ensures missing { IfNone waits (pending.new ≡ pending.old) }
{
    if let Some(waits) = waits {
        *pending = Pending::of(waits.block_irq, waits.console_irq, waits.output);
    }
}
