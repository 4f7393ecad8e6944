//! The bits of a memory's pages: which were written.

ghost use Rattle.std.specs.Prelude.{◌≡◌, ◌+◌, ◌*◌, ◌^◌, ◌≤◌, ◌<◌, length, slice_set, true};
ghost use Rattle.guest_memory.specs.Pages.{bits_of, marked};

/// How many bytes a page has.
const PAGE_SIZE: u64 = 4096;

/// Sets the bits of the pages that the `n` bytes from place `from` on lie in, where there are bits for them.
#[inline(never)]
pub fn mark_pages(bits: &mut [u8], from: u64, n: u64)
    requires { from + n ≤ 2 ^ 64 }
    ensures { bits_of bits.new ≡ marked 0 from n (bits_of bits.old) }
{
    if n == 0 {
        return;
    }
    let first = from / PAGE_SIZE;
    let last = (from + (n - 1)) / PAGE_SIZE;
    let pages = (bits.len() as u64).saturating_mul(8);
    let end = (last + 1).min(pages);
    for page in first..end {
        set(bits, page as usize);
    }
}

// Sets the bit of a page.
fn set(bits: &mut [u8], page: usize)
    requires { page < 8 * length bits.old }
    ensures bits { bits_of bits.new ≡ slice_set (bits_of bits.old) page true }
    ensures len { length bits.new ≡ length bits.old }
{
    bits[page / 8] |= 1 << (page % 8);
}
