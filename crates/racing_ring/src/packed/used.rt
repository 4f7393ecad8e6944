//! What is stored of a used list.

ghost use Rattle.std.specs.Prelude.{◌≡◌, ◌+◌, ◌*◌, ◌<◌, ◌≤◌, ◌^◌};
ghost use Rattle.guest_memory.specs.Memory.{Inside};
ghost use Rattle.packed_ring.specs.Ring.{LiesIn, place_behind, used_addr, used_flags, used_head, wrap_counter};
ghost use Rattle.shared_memory.specs.Sightings.{memory};
ghost use Rattle.racing_ring.specs.Packed.{IsGiven, used_word};

use crate::packed::RacingPackedRing;
use chain::Used;
use packed_ring::{flags_of_used, reduced};
use shared_memory::Shared;

impl RacingPackedRing {
    /// Stores the used descriptor of the ring's place: its len, its id and its flags at once.
    #[tactic(auto, using(guest_memory::proofs::Ranges::inside_part, crate::proofs::Lying::packed_lies_stores))]
    pub(crate) fn put_used<M: Shared>(&self, mem: &mut M, id: u16, used: Used)
        requires { LiesIn (memory (M.sightings mem.old)) self.now.setup }
        ensures given { IsGiven M.races (M.sightings mem.old) (M.sightings mem.new) self.now id used.len used.wrote }
        ensures lies { LiesIn (memory (M.sightings mem.new)) self.now.setup }
    {
        let word = used_word(self.used_flags(used.wrote), id, used.len);
        let descriptor = self.used_at(mem);
        mem.store_u64(descriptor + 8, word);
    }

    /// The address of the descriptor at the ring's place.
    #[tactic(auto, using(guest_memory::proofs::Ranges::inside_part))]
    fn used_at<M: Shared>(&self, mem: &M) -> u64
        requires { LiesIn (memory (M.sightings mem.now)) self.now.setup }
        ensures value { result ≡ used_addr self.now }
        ensures inside { Inside (memory (M.sightings mem.now)) result 16 }
        ensures fits { result + 16 ≤ 2 ^ 64 }
    {
        let offset = 16 * u64::from(self.used_head());
        mem.fits(self.state.setup.desc, 16 * u64::from(self.state.setup.size));
        self.state.setup.desc + offset
    }

    /// The position of the ring's place.
    fn used_head(&self) -> u16
        ensures value { result ≡ used_head self.now }
        ensures below { result < self.now.setup.size }
    {
        reduced(self.state.place, self.size())
    }

    /// The place so many descriptors behind the ring's.
    pub(crate) fn behind(&self, length: u16) -> u16
        requires { length ≤ self.now.setup.size }
        ensures value { result ≡ place_behind self.now length }
        ensures below { result < 2 * self.now.setup.size }
    {
        reduced(self.state.place + length, 2 * self.size())
    }

    /// The flags of the used descriptor at the wrap counter of the ring's place (2.8.1, 2.8.3).
    fn used_flags(&self, wrote: bool) -> u16
        ensures { result ≡ used_flags (wrap_counter self.now) wrote }
    {
        flags_of_used(self.state.place < self.size(), wrote)
    }
}

/// The second word of a used descriptor (2.8.13).
fn used_word(flags: u16, id: u16, len: u32) -> u64
    ensures { result ≡ used_word flags id len }
{
    u64::from(flags) * (1 << 48) + u64::from(id) * (1 << 32) + u64::from(len)
}
