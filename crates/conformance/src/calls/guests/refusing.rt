//! The heap of guests, as their calls see it.

use linked_list_allocator::LocalHeap;
use std::alloc::Allocator;
use test_support::RefusingHeap;

/// A heap of a fixed size of which requests may be refused. What it is made of would be dear to prove anew in each call.
pub(crate) trait Refusing: Allocator + Copy {
    /// Refuses the nth request from now and each later one, or none where `n` is 0.
    fn refuse_from(&self, n: u64);

    /// Refuses the nth request from now and no other, or none where `n` is 0.
    fn refuse_only(&self, n: u64);

    /// How many requests came since then.
    fn requests(&self) -> u64;

    /// How many bytes are taken.
    fn used(&self) -> u64;
}

impl<'h, 'l> Refusing for &'h RefusingHeap<&'l LocalHeap> {
    fn refuse_from(&self, n: u64) {
        RefusingHeap::refuse_from(*self, n);
    }

    fn refuse_only(&self, n: u64) {
        RefusingHeap::refuse_only(*self, n);
    }

    fn requests(&self) -> u64 {
        RefusingHeap::requests(*self)
    }

    fn used(&self) -> u64 {
        self.inner.used() as u64
    }
}
