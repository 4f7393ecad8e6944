//! Bytes in a room that was made for them.

ghost use Rattle.std.specs.Prelude.{◌≡◌, ◌++◌, [], IfOk, if◌then◌else◌};

use std::alloc::{AllocError, Allocator};
use std::marker::Model;

/// Bytes that wait. The room for them is there from the start, so adding some asks for no memory.
#[derive(Drop)]
pub(super) struct Pending<A: Allocator> {
    room: Vec<u8, A>,
    // How many of them wait, at the front.
    len: usize,
}

impl<A: Allocator> Model for Pending<A> {
    ghost use Rattle.std.specs.Prelude.{ℕ, List, take, length, ◌≤◌};

    ghost Value = { List ℕ };

    ghost view = { λ pending. take pending.len pending.room.items };

    ghost invariant = { λ pending. pending.len ≤ length pending.room.items };
}

impl<A: Allocator> Pending<A> {
    /// None, with room for so many.
    pub(super) fn with_room(alloc: A, most: usize) -> Result<Pending<A>, AllocError>
        ensures { IfOk result (λ pending. pending ≡ []) }
    {
        Ok(Pending {
            room: vec![in alloc; 0; most]?,
            len: 0,
        })
    }

    /// Adds the bytes where there is room for them, and answers whether there was. It is read into its caller, who mostly knows
    /// how many bytes these are.
    #[inline(always)]
    pub(super) fn add(&mut self, bytes: &[u8]) -> bool
        ensures { self.new ≡ (if result then self.old ++ bytes.now else self.old) }
    {
        if bytes.len() > self.room.len() - self.len {
            return false;
        }
        let end = self.len + bytes.len();
        self.room[self.len..end].copy_from_slice(bytes);
        self.len = end;
        true
    }

    /// Makes room for so many more, and answers whether it was had.
    #[inline(never)]
    pub(super) fn grow(&mut self, more: usize) -> bool
        ensures { self.new ≡ self.old }
    {
        let most = self
            .room
            .len()
            .saturating_mul(2)
            .max(self.len.saturating_add(more));
        self.room.resize(most, 0).is_ok()
    }

    pub(super) fn as_slice(&self) -> &[u8]
        ensures { result.now ≡ self.now }
    {
        &self.room[..self.len]
    }

    pub(super) fn clear(&mut self)
        ensures { self.new ≡ [] }
    {
        self.len = 0;
    }

    /// The bytes without their room.
    pub(super) fn into_bytes(self) -> Vec<u8, A>
        ensures { result.items ≡ self }
    {
        let Pending { mut room, len } = self;
        room.truncate(len);
        room
    }
}
