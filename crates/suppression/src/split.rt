//! Used buffer notifications of a split queue: the available ring's flags and used_event (2.7.7).

ghost use Rattle.std.specs.Prelude.{◌+◌, ◌*◌, ◌≤◌, ◌↔◌, IsTrue};
ghost use Rattle.guest_memory.specs.Memory.{Inside};
ghost use Rattle.suppression.specs.Split.{SplitWants};

use crate::places::is_passed;
use guest_memory::GuestMemory;
use std::alloc::Allocator;

/// Bit 0 of the available ring's flags: the driver asks for no notification.
const VIRTQ_AVAIL_F_NO_INTERRUPT: u16 = 1;

/// The idx fields of a split queue's rings count modulo this.
const IDX_MODULUS: u32 = 1 << 16;

/// Whether the driver of a split queue of size `n` wants a notification of the `count` used entries
/// that were placed from place `from` on (2.7.7). Places are values of the used idx. Its area, the
/// available ring, is read as it is now; `event_idx` is whether VIRTIO_F_EVENT_IDX was negotiated.
#[tactic(auto, using(guest_memory::proofs::Ranges::inside_part))]
pub fn split_wants<A: Allocator>(
    mem: &GuestMemory<A>,
    driver_area: u64,
    n: u16,
    event_idx: bool,
    from: u16,
    count: u16,
) -> bool
    // The flags, the idx, n entries and used_event.
    requires area { Inside mem.now driver_area (6 + 2 * n) }
    requires most { count ≤ n }
    ensures { IsTrue result ↔ SplitWants mem.now driver_area n event_idx from count }
{
    let entries = 2 * u64::from(n);
    // So no address in the area passes 2^64.
    mem.fits(driver_area, 6 + entries);
    if event_idx {
        let used_event = mem.read_u16(driver_area + 4 + entries);
        is_passed(IDX_MODULUS, from, count, u32::from(used_event))
    } else {
        count > 0 && mem.read_u16(driver_area) & VIRTQ_AVAIL_F_NO_INTERRUPT == 0
    }
}
