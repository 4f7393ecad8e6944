//! Whether the host serves a disk of a trace: each record then says what it is asked to do.

ghost use Rattle.std.specs.Prelude.{◌≡◌};
ghost use Rattle.trace.specs.Asked.{is_host, is_hosted};

use board::{Backing, SlotSpec};

/// Whether the disk of some slot is the host's.
pub fn is_hosted(slots: &[SlotSpec]) -> bool
    ensures { result ≡ is_hosted slots.now }
{
    slots.iter().any(|slot| is_host(slot.backing))
}

// Whether a disk is the host's.
fn is_host(backing: Backing) -> bool
    ensures { result ≡ is_host backing }
{
    matches!(backing, Backing::Host { .. })
}
