//! The memory that a host lends, loan by loan.

ghost use Rattle.std.specs.Prelude.{◌≡◌, ◌*◌, ◌≤◌, ◌↔◌, [], All, map, IfOk, IsTrue, OnOk};
ghost use Rattle.std.specs.Vec.{vec_items};
ghost use Rattle.c_values.specs.Loans.{TakesFirst};

use guest_bytes::Lends;
use std::alloc::{AllocError, Global};
use std_alloc::vec::Lodged;

/// How many bytes of memory a byte of bits stands for: eight pages of 4096.
const BYTES_OF_EIGHT_PAGES: u64 = 0x8000;

/// Whether so many bytes have a bit for each page of a memory of so many addresses.
pub fn have_bits(bytes: usize, len: u64) -> bool
    ensures { IsTrue result ↔ (len ≤ 4096 * (8 * bytes)) }
{
    len <= (bytes as u64).saturating_mul(BYTES_OF_EIGHT_PAGES)
}

/// What all loans lend, in their order, in whose places are then empty ones. Where there is no memory for the list, only the first
/// may be taken.
pub fn taken<L: Lends>(
    alloc: Global,
    loans: &mut [L],
) -> Result<Vec<Vec<L::Value, Lodged>>, AllocError>
    ensures taken { IfOk result (λ lent. map vec_items lent.items ≡ map L.values loans.old) }
    ensures left { OnOk result (All (λ loan. L.values loan ≡ []) loans.new) }
    ensures front { TakesFirst (λ loan. L.values loan ≡ []) loans.old loans.new }
{
    let mut lent = Vec::with_capacity(alloc, loans.len())?;
    for place in 0..loans.len() {
        lent.push(loans[place].take())?;
    }
    Ok(lent)
}
