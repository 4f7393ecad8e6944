//! Bytes and words that their owner hands over by a pointer. No other function here sees one.

ghost use Rattle.std.specs.Prelude.{◌≡◌, ℕ, ◌*◌, ◌^◌, ◌<◌, List, [], length};
ghost use Rattle.std.specs.Borrow.{full_share, sem, u8};
ghost use Rattle.std.specs.Ptr.{lies_at};
ghost use Rattle.std.specs.contracts.sync.atomic.AtomicU64.{the_row as AtomicWord};
ghost use Rattle.guest_bytes.specs.Loaned.{loaned, IsRun};
ghost use denote.Array.{Array};

use std::sync::atomic::AtomicU64;
use std_alloc::vec::{Lodged, lodge};

/// The `len` bytes from `ptr` on, which the caller owns and gives up. None is touched here, and a drop frees none.
pub unsafe fn lend(ptr: *mut u8, len: usize) -> Vec<u8, Lodged>
    ghost items: { List ℕ }
    requires* { sem 𝓛 (lies_at (Array u8 len) full_share ptr items) ∗ ⌜ len < 2 ^ 63 ⌝ }
    ensures { result.items ≡ items }
{
    lend_run(ptr, len)
}

/// The `count` words from `ptr` on, which the caller gives up but for single atomic steps of whoever else has them. None is
/// touched here, and a drop frees none.
pub unsafe fn lend_words(ptr: *mut AtomicU64, count: usize) -> Vec<AtomicU64, Lodged>
    ghost words: { List (Unit {0}) }
    requires* { sem 𝓛 (lies_at (Array AtomicWord count) full_share ptr words) ∗ ⌜ 8 * count < 2 ^ 63 ⌝ }
    ensures { length result.items ≡ count }
{
    lend_run(ptr, count)
}

// The `len` values that a loan owns. Of none the pointer may be null.
pub(crate) unsafe fn lend_run<T>(ptr: *mut T, len: usize) -> Vec<T, Lodged>
    ghost items: { List T }
    requires* { sem 𝓛 (loaned T.row ptr len items) ∗ ⌜ IsRun T.row len items ⌝ }
    ensures { result.items ≡ items }
{
    if len == 0 {
        return none();
    }
    lodge(ptr, len, len)
}

// No values.
fn none<T>() -> Vec<T, Lodged>
    ensures { result.items ≡ [] }
{
    Vec::new(Lodged)
}
