//! What waits once a call is answered.

ghost use Rattle.std.specs.Prelude.{◌≡◌};
ghost use Rattle.racing_ffi.specs.Calls.{pending_by};

use c_values::Pending;
use racing_session::Waits;

/// What a call told, as C has it.
pub(crate) fn pending_of(waits: Waits) -> Pending
    ensures { result ≡ pending_by waits }
{
    Pending::of(waits.block_irq, waits.console_irq, waits.output)
}
