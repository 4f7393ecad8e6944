//! The bytes of one region: the library's own, or a host's.

ghost use Rattle.std.specs.Prelude.{◌≡◌, ◌+◌, ◌-◌, ◌≤◌, length, take, drop};
ghost use Rattle.std.specs.Borrow.{sem};
ghost use Rattle.guest_memory.specs.Bytes.{bytes_of};
ghost use Rattle.guest_memory.specs.Lending.{LendsBytes};

use std::alloc::Allocator;
use std_alloc::vec::Lodged;

/// The bytes of one region. Both kinds lie alike, so that a reader needs no branch.
#[derive(Drop)]
pub(crate) enum Bytes<A: Allocator> {
    Own(Vec<u8, A>),
    Lent(Vec<u8, Lodged>),
}

impl<A: Allocator> Bytes<A> {
    /// The number of the bytes.
    #[inline(always)]
    pub(crate) fn len(&self) -> usize
        ensures { result ≡ length (bytes_of self.now) }
    {
        match self {
            Bytes::Own(bytes) => bytes.len(),
            Bytes::Lent(bytes) => bytes.len(),
        }
    }

    /// The `n` bytes from place `from` on.
    #[inline(always)]
    pub(crate) fn slice(&self, from: usize, n: usize) -> &[u8]
        requires { from + n ≤ length (bytes_of self.now) }
        ensures value { result.now ≡ take n (drop from (bytes_of self.now)) }
        ensures len { length result.now ≡ n }
    {
        match self {
            Bytes::Own(bytes) => &bytes[from..from + n],
            Bytes::Lent(bytes) => &bytes[from..from + n],
        }
    }

    /// The same, to be written.
    #[inline(always)]
    pub(crate) fn slice_mut(&mut self, from: usize, n: usize) -> &mut [u8]
        requires { from + n ≤ length (bytes_of self.old) }
        ensures* writes_back { sem 𝓛 (LendsBytes A.row A.Allocator self.entry from result) }
        ensures value { result.now ≡ take n (drop from (bytes_of self.old)) }
        ensures len { length result.now ≡ n }
    {
        match self {
            Bytes::Own(bytes) => bytes.slice_mut(from..from + n),
            Bytes::Lent(bytes) => bytes.slice_mut(from..from + n),
        }
    }
}
