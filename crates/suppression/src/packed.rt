//! Used buffer notifications of a packed queue: the driver event suppression structure (2.8.10).

ghost use Rattle.std.specs.Prelude.{◌≡◌, ℕ, ◌*◌, ◌%◌, ◌^◌, ◌<◌, ◌↔◌, length, IsTrue, IsSome, IfSome};
ghost use Rattle.guest_memory.specs.Memory.{Memory, Inside, num, part_of};
ghost use Rattle.suppression.specs.Packed.{PackedWants, IsEventPlace};

use crate::places::is_passed;
use guest_memory::GuestMemory;
use std::alloc::Allocator;

/// The bits of the structure's second number that hold its flags.
const RING_EVENT_FLAGS: u16 = 0b11;

/// The driver asks for no notification.
const RING_EVENT_FLAGS_DISABLE: u16 = 1;

/// The driver asks for a notification once the named place was passed.
const RING_EVENT_FLAGS_DESC: u16 = 2;

/// The bits of the structure's first number that hold an offset into the ring.
const EVENT_OFFSET: u16 = 0x7fff;

/// The bit of the structure's first number that holds a wrap counter.
const EVENT_WRAP: u16 = 1 << 15;

/// Whether the driver of a packed queue of size `n` wants a notification of the `passed` places from
/// place `from` on, skipped ones included (2.8.10). A place is a position with a wrap counter of 1, or
/// `n` more than a position with 0. The driver's area is read as it is now; `event_idx` is whether
/// VIRTIO_F_EVENT_IDX was negotiated.
pub fn packed_wants<A: Allocator>(
    mem: &GuestMemory<A>,
    driver_area: u64,
    n: u16,
    event_idx: bool,
    from: u16,
    passed: u16,
) -> bool
    requires area { Inside mem.now driver_area 4 }
    requires place { from < 2 * n }
    requires most { passed < 2 * n }
    ensures { IsTrue result ↔ PackedWants mem.now driver_area n event_idx from passed }
{
    packed_wants_by(mem.slice(driver_area, 4), n, event_idx, from, passed)
}

/// The same by the four bytes of the structure, as they were read.
pub fn packed_wants_by(structure: &[u8], n: u16, event_idx: bool, from: u16, passed: u16) -> bool
    requires four { length structure.now ≡ 4 }
    requires place { from < 2 * n }
    requires most { passed < 2 * n }
    ensures { (m : Memory) (driver_area : ℕ) → Inside m driver_area 4 → structure.now ≡ part_of m driver_area 4
        → IsTrue result ↔ PackedWants m driver_area n event_idx from passed }
{
    let flags = u16::from_le_bytes([structure[2], structure[3]]);
    match flags & RING_EVENT_FLAGS {
        RING_EVENT_FLAGS_DISABLE => false,
        RING_EVENT_FLAGS_DESC if event_idx => {
            let event = u16::from_le_bytes([structure[0], structure[1]]);
            match event_place(event, n) {
                Some(place) => is_passed(2 * u32::from(n), from, passed, place),
                None => false,
            }
        }
        _ => passed > 0,
    }
}

/// The place that a driver names by an offset and a wrap counter. An offset beside the ring of `n` names none.
fn event_place(event: u16, n: u16) -> Option<u32>
    ensures named { IsSome result ↔ (event % 2 ^ 15 < n) }
    ensures below { IfSome result (λ place. place < 2 * n) }
    ensures place { IfSome result (λ place. (m : Memory) (addr : ℕ) → event ≡ num m addr 2 → IsEventPlace m addr n place) }
{
    let offset = event & EVENT_OFFSET;
    if offset >= n {
        None
    } else if event & EVENT_WRAP == 0 {
        Some(u32::from(n) + u32::from(offset))
    } else {
        Some(u32::from(offset))
    }
}
