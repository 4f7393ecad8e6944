//! Bytes that an event, a reply or an output owns.

ghost use Rattle.std.specs.Prelude.{◌≡◌, ℕ, List, [], ◌==◌};
ghost use Rattle.std.specs.Cmp.Lexicographic.{pointwise};
ghost use Rattle.std.proofs.Common.{rules};
ghost use Rattle.std.specs.Cmp.Rules.{comparing};

use std::alloc::{Allocator, Global};
use std::marker::Model;

/// Bytes that are seen as their list, whatever room was made for them.
#[derive(Drop)]
#[derive_where(Debug)]
pub struct Bytes<A: Allocator = Global> {
    bytes: Vec<u8, A>,
}

impl<A: Allocator> Model for Bytes<A> {
    ghost Value = { List ℕ };

    ghost view = { λ b. b.bytes.items };
}

impl<A: Allocator> Bytes<A> {
    /// No bytes. This takes no memory.
    pub fn new(alloc: A) -> Bytes<A>
        ensures { result ≡ [] }
    {
        Bytes {
            bytes: Vec::new(alloc),
        }
    }

    /// The bytes, as a slice.
    pub fn as_slice(&self) -> &[u8]
        ensures { result.now ≡ self.now }
    {
        self.bytes.as_slice()
    }

    /// Gives the bytes back as a vector. This takes no memory.
    pub fn into_vec(self) -> Vec<u8, A>
        ensures { result.items ≡ self }
    {
        let Bytes { bytes } = self;
        bytes
    }
}

impl<A: Allocator> From<Vec<u8, A>> for Bytes<A> {
    ghost from_gives = { λ bytes result. result ≡ bytes.items };

    fn from(bytes: Vec<u8, A>) -> Bytes<A>
        ensures { result ≡ bytes.items }
    {
        Bytes { bytes }
    }
}

impl<A: Allocator> PartialEq for Bytes<A> {
    ghost eq = { pointwise ◌==◌ };

    ghost laws = { Prim.search (comparing, rules) };

    fn eq(&self, other: &Bytes<A>) -> bool {
        self.as_slice() == other.as_slice()
    }
}

impl<A: Allocator> Eq for Bytes<A> {
    ghost laws = { Prim.search (comparing, rules) };
}
