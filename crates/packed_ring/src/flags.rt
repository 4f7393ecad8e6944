//! The flags by which a driver and its device hand over a descriptor.

ghost use Rattle.std.specs.Prelude.{◌≡◌, ◌&&◌, ◌==◌, not, if◌then◌else◌};
ghost use Rattle.packed_ring.specs.Ring.{avail_flag, bit_of, used_flag, used_flags};

use indirect::WRITE;

/// The driver has made the descriptor available, where the flag equals its wrap counter (VIRTQ_DESC_F_AVAIL,
/// 2.8.1).
const AVAIL: u16 = 1 << 7;

/// The device has used the descriptor, where the flag equals its wrap counter (VIRTQ_DESC_F_USED).
const USED: u16 = 1 << 15;

/// Whether flags are those of an available descriptor at a wrap counter (2.8.1).
#[inline(always)]
pub fn are_available(flags: u16, wrap_counter: bool) -> bool
    ensures { result ≡ (bit_of flags avail_flag == (if wrap_counter then 1 else 0)
        && not (bit_of flags used_flag == (if wrap_counter then 1 else 0))) }
{
    (flags & AVAIL != 0) == wrap_counter && (flags & USED != 0) != wrap_counter
}

/// The flags of a used descriptor at a wrap counter (2.8.1, 2.8.3).
pub fn flags_of_used(wrap_counter: bool, wrote: bool) -> u16
    ensures { result ≡ used_flags (if wrap_counter then 1 else 0) wrote }
{
    let both = if wrap_counter { AVAIL | USED } else { 0 };
    let write = if wrote { WRITE } else { 0 };
    both | write
}
