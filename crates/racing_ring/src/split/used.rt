//! What is stored of a used chain.

ghost use Rattle.std.specs.Prelude.{◌+◌, ◌*◌, ◌^◌};
ghost use Rattle.split_ring.specs.Ring.{LiesIn, next_place, used_entry};
ghost use Rattle.shared_memory.specs.Sightings.{Stores, memory};
ghost use Rattle.racing_ring.specs.Split.{IsGiven};

use crate::split::RacingSplitRing;
use shared_memory::Shared;

impl RacingSplitRing {
    /// Stores the used entry of the ring's place, and then the used idx.
    pub(crate) fn put_used<M: Shared>(&self, mem: &mut M, head: u16, len: u32)
        requires { LiesIn (memory (M.sightings mem.old)) self.now.setup }
        ensures given { IsGiven M.races (M.sightings mem.old) (M.sightings mem.new) self.now head len }
        ensures lies { LiesIn (memory (M.sightings mem.new)) self.now.setup }
    {
        self.put_entry(mem, head, len);
        self.put_idx(mem);
    }

    #[tactic(auto, using(crate::proofs::Lying::lies_stores))]
    /// Stores the used entry of the ring's place: id and len, side by side.
    fn put_entry<M: Shared>(&self, mem: &mut M, head: u16, len: u32)
        requires { LiesIn (memory (M.sightings mem.old)) self.now.setup }
        ensures stored { Stores M.races (M.sightings mem.old) (M.sightings mem.new) (used_entry self.now) 8 (len * 2 ^ 32 + head) }
        ensures lies { LiesIn (memory (M.sightings mem.new)) self.now.setup }
    {
        let offset = 8 * self.entry_at(self.state.place);
        mem.fits(
            self.state.setup.device,
            6 + 8 * u64::from(self.state.setup.size),
        );
        let entry = self.state.setup.device + 4 + offset;
        mem.store_u64(entry, u64::from(len) * (1 << 32) + u64::from(head));
    }

    #[tactic(auto, using(guest_memory::proofs::Ranges::inside_part, crate::proofs::Lying::lies_stores))]
    /// Stores the used idx behind the ring's place.
    fn put_idx<M: Shared>(&self, mem: &mut M)
        requires { LiesIn (memory (M.sightings mem.old)) self.now.setup }
        ensures stored { Stores M.races (M.sightings mem.old) (M.sightings mem.new) (self.now.setup.device + 2) 2 (next_place self.now) }
        ensures lies { LiesIn (memory (M.sightings mem.new)) self.now.setup }
    {
        mem.fits(self.state.setup.device, 6);
        mem.store_u16(
            self.state.setup.device + 2,
            self.state.place.wrapping_add(1),
        );
    }
}
