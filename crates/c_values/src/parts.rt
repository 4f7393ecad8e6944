//! A `Box` with its fields in sight, of which a handle is made. It isn't `Drop`, so what holds one ends it or hands it on.

ghost use Rattle.std.specs.Prelude.{◌≡◌};
ghost use Rattle.std.specs.Box.Ownership.{box_owns};

use std::alloc::Allocator;
use std::marker::Model;

/// What a box is made of.
pub struct Parts<T, A: Allocator> {
    pub ptr: *mut T,
    pub alloc: A,
    pub ghost value: { T },
}

impl<T, A: Allocator> Model for Parts<T, A> {
    ghost also_owns = { λ p. box_owns (A.dealloc_token p.alloc) T.row p.ptr p.value };
}

impl<T, A: Allocator> Parts<T, A> {
    /// Takes a box apart.
    pub fn of(b: Box<T, A>) -> Parts<T, A>
    where
        T: Drop,
        ensures { result.value ≡ b.value }
    {
        let (ptr, alloc) = Box::into_raw_with_allocator(b);
        Parts { ptr, alloc }
    }

    /// The box again.
    pub fn into_box(self) -> Box<T, A>
        ensures { result.value ≡ self.value }
    {
        let Parts { ptr, alloc } = self;
        unsafe { Box::from_raw(alloc, ptr) }
    }

    /// Drops the value, and gives its memory back. No body can leave that out: a `Parts` can't be forgotten.
    pub fn end(self)
    where
        T: Drop,
    {
        drop(self.into_box());
    }
}
