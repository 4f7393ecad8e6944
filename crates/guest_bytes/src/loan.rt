//! A run of bytes as C lends it.

ghost use Rattle.std.specs.Prelude.{◌≡◌, ℕ, ◌^◌, ◌<◌, List, [], length};
ghost use Rattle.std.specs.Borrow.{u8};
ghost use Rattle.guest_bytes.specs.Loaned.{loaned};

use crate::lends::Lends;
use crate::lent::lend_run;
use std::marker::Model;
use std_alloc::vec::Lodged;

/// `len` bytes that C gives up; of none the pointer may be null. An export takes it by value, or takes the bytes out of an
/// array of loans.
#[repr(C)]
pub struct Loan {
    bytes: *mut u8,
    len: usize,
    pub ghost items: { List ℕ },
    pub ghost sized: { length items ≡ len },
    pub ghost small: { len < 2 ^ 63 },
}

impl Model for Loan {
    ghost also_owns = { λ loan. loaned u8 loan.bytes loan.len loan.items };
}

impl Loan {
    /// A loan of no bytes, at null.
    pub fn empty() -> Loan
        ensures { result.items ≡ [] }
    {
        Loan {
            bytes: std::ptr::null_mut(),
            len: 0,
        }
    }

    /// The bytes.
    pub fn into_bytes(self) -> Vec<u8, Lodged>
        ensures { result.items ≡ self.items }
    {
        let Loan { bytes, len } = self;
        unsafe { lend_run(bytes, len) }
    }
}

impl Lends for Loan {
    type Value = u8;

    ghost values = { λ loan. loan.items };

    fn take(&mut self) -> Vec<u8, Lodged> {
        std::mem::replace(self, Loan::empty()).into_bytes()
    }
}
