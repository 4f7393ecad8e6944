//! A run of words as C lends it.

ghost use Rattle.std.specs.Prelude.{◌≡◌, ◌*◌, ◌^◌, ◌<◌, List, [], length};
ghost use Rattle.std.specs.contracts.sync.atomic.AtomicU64.{the_row as AtomicWord};
ghost use Rattle.guest_bytes.specs.Loaned.{loaned};

use crate::lends::Lends;
use crate::lent::lend_run;
use std::marker::Model;
use std::sync::atomic::AtomicU64;
use std_alloc::vec::Lodged;

/// `len` words of 8 bytes that C lends; of none the pointer may be null. Others may read and write them at any moment, by single
/// atomic steps.
#[repr(C)]
pub struct WordLoan {
    // No export's type may name an atomic one.
    words: *mut u64,
    len: usize,
    pub ghost items: { List (Unit {0}) },
    pub ghost sized: { length items ≡ len },
    pub ghost small: { 8 * len < 2 ^ 63 },
}

impl Model for WordLoan {
    ghost also_owns = { λ loan. loaned AtomicWord loan.words loan.len loan.items };
}

impl WordLoan {
    /// A loan of no words, at null.
    pub fn empty() -> WordLoan
        ensures { result.items ≡ [] }
    {
        WordLoan {
            words: std::ptr::null_mut(),
            len: 0,
        }
    }

    /// The words.
    pub fn into_words(self) -> Vec<AtomicU64, Lodged>
        ensures { result.items ≡ self.items }
    {
        let WordLoan { words, len } = self;
        unsafe { lend_run(words as *mut AtomicU64, len) }
    }
}

impl Lends for WordLoan {
    type Value = AtomicU64;

    ghost values = { λ loan. loan.items };

    fn take(&mut self) -> Vec<AtomicU64, Lodged> {
        std::mem::replace(self, WordLoan::empty()).into_words()
    }
}
