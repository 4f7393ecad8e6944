//! The packed ring: its places, and how a service takes lists of it.

ghost use Rattle.std.specs.Prelude.{◌≡◌, ◌+◌, ◌*◌, ◌<◌, ◌≤◌, if◌then◌else◌};
ghost use Rattle.packed_ring.specs.Ring.{IsQueueSize, LiesIn, head_of, next_taken, next_wrap};
ghost use Rattle.shared_memory.specs.Sightings.{memory};

mod closing;
mod laws;
mod making;
mod table;
mod used;
mod walk;

use crate::packed::walk::append_list;
use crate::queue::RacingQueue;
use crate::room::Room;
use crate::walk::Table;
use chain::{Chain, Fault, RingState, Used};
pub use laws::{
    a_list_that_is_left_alone_is_offered_at_one_moment,
    a_list_that_is_published_meanwhile_is_taken_as_it_stands,
    a_packed_ring_that_stands_still_is_served_as_it_is,
};
use packed_ring::{Token, reduced};
use shared_memory::Shared;
use std::marker::Model;

/// A packed virtqueue of one guest, which may write its memory during each call.
#[derive(Drop)]
pub struct RacingPackedRing {
    state: RingState,
}

impl Model for RacingPackedRing {
    ghost use Rattle.std.specs.Prelude.{◌<◌, ◌≤◌, ◌+◌, ◌*◌};
    ghost use Rattle.chain.specs.declared.state.RingState.{RingState};
    ghost use Rattle.packed_ring.specs.Ring.{IsQueueSize};

    ghost Value = { RingState };

    ghost view = { λ r. r.state };

    ghost invariant = { λ r. record {
      number : IsQueueSize r.state.setup.size;
      below : r.state.place < 2 * r.state.setup.size;
      fewer : r.state.used_count + r.state.ahead < 2 * r.state.setup.size;
      most : 0 < r.state.pending → r.state.used_count + r.state.ahead + r.state.pending ≤ r.state.setup.size;
    } };
}

impl RacingPackedRing {
    /// A ring in this state.
    pub fn of(state: RingState) -> RacingPackedRing
        requires number { IsQueueSize state.setup.size }
        requires below { state.place < 2 * state.setup.size }
        requires fewer { state.used_count + state.ahead < 2 * state.setup.size }
        requires most { 0 < state.pending → state.used_count + state.ahead + state.pending ≤ state.setup.size }
        ensures { result ≡ state }
    {
        RacingPackedRing { state }
    }

    /// How it is set up, and how far it is served.
    pub fn state(&self) -> RingState
        ensures value { result ≡ self.now }
        ensures number { IsQueueSize result.setup.size }
        ensures below { result.place < 2 * result.setup.size }
        ensures fewer { result.used_count + result.ahead < 2 * result.setup.size }
        ensures most { 0 < result.pending → result.used_count + result.ahead + result.pending ≤ result.setup.size }
    {
        self.state
    }

    // The number of descriptors.
    fn size(&self) -> u16
        ensures value { result ≡ self.now.setup.size }
        ensures some { 0 < result }
        ensures most { result ≤ 256 }
    {
        self.state.setup.size as u16
    }

    // The place of the next list.
    fn next_taken(&self) -> u16
        ensures value { result ≡ next_taken self.now }
        ensures below { result < 2 * self.now.setup.size }
    {
        reduced(self.state.place + self.state.ahead, 2 * self.size())
    }

    // The position of the next list's place.
    fn head(&self) -> u16
        ensures value { result ≡ head_of self.now }
        ensures below { result < self.now.setup.size }
    {
        reduced(self.next_taken(), self.size())
    }

    // The wrap counter of the next list's place, as whether it is 1 (2.8.1).
    fn next_wrap(&self) -> bool
        ensures { next_wrap self.now ≡ (if result then 1 else 0) }
    {
        self.next_taken() < self.size()
    }
}

impl RacingQueue for RacingPackedRing {
    ghost use Rattle.packed_ring.specs.Kind.{IsAhead, IsTaken, entry_of};
    ghost use Rattle.racing_ring.specs.Queue.{racing_packed};
    ghost use Rattle.racing_ring.specs.Lying.{packed_lies};

    type Token = Token;

    ghost kind = { racing_packed };

    ghost LiesIn = { λ m ring. LiesIn m ring.setup };

    ghost entry_of = { λ token. entry_of token.id token.length };

    ghost IsTaken = { IsTaken };

    ghost IsAhead = { IsAhead };

    ghost left_of = { λ ring. ring.pending };

    #[tactic(auto, using(shared_memory::proofs::Sightings::loads_none))]
    /// Lists may be taken until as many places as the queue has descriptors, or more, are passed or in flight. It reads
    /// nothing, so it never has a fault.
    fn open<M: Shared>(&mut self, mem: &mut M) -> Result<(), Fault> {
        let _ = mem;
        self.state.pending = self.size().saturating_sub(self.state.ahead);
        self.state.used_count = 0;
        Ok(())
    }

    #[tactic(auto, using(crate::proofs::Lying::packed_lies_loads))]
    /// A list is on offer if its first descriptor is available (2.8.6).
    fn take<M: Shared>(
        &mut self,
        mem: &mut M,
        chain: &mut Chain,
        room: &mut Room,
    ) -> Result<Option<Token>, Fault> {
        chain.clear();
        if self.state.pending == 0 {
            return Ok(None);
        }
        let table = Table {
            addr: self.state.setup.desc,
            size: self.size(),
            indirect: self.state.setup.indirect,
        };
        let (first, wrap) = (self.head(), self.next_wrap());
        match append_list(mem, table, first, wrap, chain, &mut room.table) {
            Ok(None) => Ok(None),
            Ok(Some(end)) => Ok(Some(Token {
                place: self.next_taken(),
                id: end.id,
                length: end.count + 1,
            })),
            Err(fault) => {
                chain.clear();
                self.state.stop();
                Err(fault)
            }
        }
    }

    /// Len, id and flags of the used descriptor are stored at once (2.8.1, 2.8.4).
    fn give<M: Shared>(&mut self, mem: &mut M, token: Token, used: Used) {
        self.put_used(mem, token.id, used);
        self.state.place = self.behind(token.length);
        self.state.pending = self.state.pending.saturating_sub(token.length);
        self.state.used_count += token.length;
    }

    fn launch(&mut self, token: &Token) {
        self.state.pending = self.state.pending.saturating_sub(token.length);
        self.state.ahead += token.length;
    }

    /// As `give` does.
    fn land<M: Shared>(&mut self, mem: &mut M, token: Token, used: Used) {
        let Token { id, length, .. } = token;
        self.put_used(mem, id, used);
        self.state.place = self.behind(length);
        self.state.pending = 0;
        self.state.used_count += length;
        self.state.ahead -= length;
    }

    /// The closing write comes first (2.8.10), then the test.
    #[tactic(auto, using(crate::proofs::Lying::packed_lies_loads))]
    fn close<M: Shared>(&mut self, mem: &mut M) -> bool {
        self.put_closing(mem);
        let wanted = self.wants(mem);
        self.state.shut();
        wanted
    }

    fn shut(&mut self) {
        self.state.shut();
    }

    ghost lies_in_range = { λ m n ring same lies. packed_lies m n ring.setup same lies };
}
