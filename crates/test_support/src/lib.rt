//! What tests use: an allocator that refuses a chosen request for memory, alone or with all later ones; and a file and an
//! image that record what a stop at any moment might have left of them.
//!
//! A test hands `&heap` to the code under test, chooses the request, and asks afterwards whether it came. Other requests, and
//! blocks that are given back, go to an inner allocator. `grow` and `shrink` are the trait's own, so each is a request too.
#![tactic(auto)]

ghost use Rattle.std.specs.Prelude.{◌≡◌};

use std::alloc::{AllocError, Allocator, Global};
use std::cell::Cell;

mod laws;
mod memory_file;
mod recorded_file;
mod refusal;
mod write_back_image;

pub use crate::laws::{
    a_cut_event_over_a_write_cache, a_cut_request_over_a_write_cache,
    a_stop_between_events_over_a_write_cache, a_write_cache_may_lose_what_waits,
};
pub use crate::memory_file::MemoryFile;
pub use crate::recorded_file::RecordedFile;
pub use crate::write_back_image::{Moment, WriteBackFault, WriteBackImage};
use refusal::Refusal;

/// A heap that refuses a chosen request for memory. A `&` to it is an allocator that is `Copy`.
#[derive(Drop)]
pub struct RefusingHeap<A: Allocator = Global> {
    /// The allocator that owns the memory.
    pub inner: A,
    refusal: Cell<Refusal>,
}

impl<A: Allocator> RefusingHeap<A> {
    /// A heap that refuses nothing until `refuse_from` or `refuse_only` is called.
    pub fn new(inner: A) -> RefusingHeap<A>
        ensures passes_on { result.inner ≡ inner }
    {
        RefusingHeap {
            inner,
            refusal: Cell::new(Refusal::new(0, 0)),
        }
    }

    /// Refuses the nth request from now and each later one, or none where `n` is 0. The count of requests begins anew.
    pub fn refuse_from(&self, n: u64) {
        self.refusal.set(Refusal::new(n, u64::MAX));
    }

    /// Refuses the nth request from now and no other, or none where `n` is 0. The count of requests begins anew.
    pub fn refuse_only(&self, n: u64) {
        self.refusal.set(Refusal::new(n, n));
    }

    /// Whether a request was refused since `refuse_from` or `refuse_only` was last called.
    pub fn has_refused(&self) -> bool {
        self.refusal.get().has_come()
    }

    /// How many requests came since `refuse_from` or `refuse_only` was last called, or since `new`; refused ones count.
    pub fn requests(&self) -> u64 {
        self.refusal.get().requests
    }
}

// Counts a request, and answers whether it is refused. It takes the cell alone: the proof of `allocate` lends that field.
fn refuses_next(refusal: &Cell<Refusal>) -> bool {
    let now = refusal.get().with_request();
    refusal.set(now);
    now.refuses()
}

unsafe impl<A: Allocator> Allocator for RefusingHeap<A> {
    ghost dealloc_token = { λ heap ty ptr. A.dealloc_token heap.inner ty ptr };

    fn allocate(&self, size: usize, align: usize) -> Result<*mut u8, AllocError> {
        if refuses_next(&self.refusal) {
            return Err(AllocError);
        }
        self.inner.allocate(size, align)
    }

    unsafe fn deallocate(&self, ptr: *mut u8, size: usize, align: usize) {
        self.inner.deallocate(ptr, size, align);
    }
}
