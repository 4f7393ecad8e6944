//! The bytes that a chain hands over behind its header, for a write to where they belong.

ghost use Rattle.std.specs.Prelude.{◌≡◌, ◌≤◌, length, All};
ghost use Rattle.chain.specs.Buffers.{Within};
ghost use Rattle.chain.specs.Bytes.{readable_of};
ghost use Rattle.block_device.specs.Request.{payload_of};

use crate::header::HEADER_LEN;
use chain::Chain;
use guest_memory::GuestMemory;
use sector_cache::Source;
use std::alloc::Allocator;
use std::marker::Model;

/// Where a chain's readable bytes behind the header lie.
///
/// Contracts see these bytes.
#[derive(Drop)]
pub(crate) struct Payload<'a, M: Allocator> {
    mem: &'a GuestMemory<M>,
    chain: &'a Chain,
}

impl<'a, M: Allocator> Model for Payload<'a, M> {
    ghost use Rattle.std.specs.Prelude.{List, ℕ};
    ghost use Rattle.block_device.specs.Payload.{HasPayload, payload_in};

    ghost Value = { List ℕ };

    ghost view = { λ p. payload_in p.mem.now p.chain.now };

    ghost invariant = { λ p. HasPayload p.mem.now p.chain.now };
}

impl<'a, M: Allocator> Payload<'a, M> {
    /// That of a chain with a whole header.
    #[inline(always)]
    pub(crate) fn of(mem: &'a GuestMemory<M>, chain: &'a Chain) -> Payload<'a, M>
        requires inside { All (Within mem.now) chain.now }
        requires header { 16 ≤ length (readable_of mem.now chain.now) }
        ensures { result ≡ payload_of (readable_of mem.now chain.now) }
    {
        Payload { mem, chain }
    }
}

impl<'a, M: Allocator> Source for Payload<'a, M> {
    ghost bytes = { λ bytes. bytes };

    fn len(&self) -> u64 {
        self.chain.readable_len() - HEADER_LEN
    }

    fn copy_to(&self, into: &mut [u8]) {
        self.chain.read_at(self.mem, HEADER_LEN, into);
    }
}
