//! The split ring: its places, and how a service takes chains of it.

ghost use Rattle.std.specs.Prelude.{◌≡◌, ◌+◌, ◌*◌, ◌%◌, ◌^◌, ◌<◌, ◌≤◌};
ghost use Rattle.split_ring.specs.Ring.{IsQueueSize, LiesIn, head_of, next_taken};
ghost use Rattle.shared_memory.specs.Sightings.{Loads, memory};

mod closing;
mod making;
mod used;

use crate::queue::RacingQueue;
use crate::room::Room;
use crate::walk::{Table, append_path};
use chain::{Chain, Fault, RingState, Used};
use shared_memory::Shared;
use split_ring::Token;
use std::marker::Model;

/// A split virtqueue of one guest, which may write its memory during each call.
#[derive(Drop)]
pub struct RacingSplitRing {
    state: RingState,
}

impl Model for RacingSplitRing {
    ghost use Rattle.std.specs.Prelude.{◌≤◌, ◌+◌};
    ghost use Rattle.chain.specs.declared.state.RingState.{RingState};
    ghost use Rattle.split_ring.specs.Ring.{IsQueueSize};

    ghost Value = { RingState };

    ghost view = { λ r. r.state };

    ghost invariant = { λ r. record {
      number : IsQueueSize r.state.setup.size;
      most : r.state.used_count + r.state.pending + r.state.ahead ≤ r.state.setup.size;
    } };
}

impl RacingSplitRing {
    /// A ring in this state.
    pub fn of(state: RingState) -> RacingSplitRing
        requires number { IsQueueSize state.setup.size }
        requires most { state.used_count + state.pending + state.ahead ≤ state.setup.size }
        ensures { result ≡ state }
    {
        RacingSplitRing { state }
    }

    /// How it is set up, and how far it is served.
    pub fn state(&self) -> RingState
        ensures value { result ≡ self.now }
        ensures number { IsQueueSize result.setup.size }
        ensures most { result.used_count + result.pending + result.ahead ≤ result.setup.size }
    {
        self.state
    }

    #[tactic(auto, using(split_ring::proofs::Sizes::positive))]
    // The number of descriptors.
    fn size(&self) -> u16
        ensures value { result ≡ self.now.setup.size }
        ensures some { 0 < result }
        ensures most { result ≤ 256 }
    {
        self.state.setup.size as u16
    }

    // The place of the next chain.
    fn next_taken(&self) -> u16
        ensures { result ≡ next_taken self.now }
    {
        self.state.place.wrapping_add(self.state.ahead)
    }

    // The entry of a place in the available ring and in the used one.
    fn entry_at(&self, place: u16) -> u64
        ensures value { result ≡ place % self.now.setup.size }
        ensures below { result < self.now.setup.size }
    {
        u64::from(place % self.size())
    }

    #[tactic(auto, using(guest_memory::proofs::Ranges::inside_part))]
    /// The head in the available entry of the next chain's place (2.7.6), by one read.
    fn head<M: Shared>(&self, mem: &mut M) -> u16
        requires { LiesIn (memory (M.sightings mem.old)) self.now.setup }
        ensures value { result ≡ head_of (memory (M.sightings mem.new)) self.now }
        ensures loads { Loads M.races (M.sightings mem.old) (M.sightings mem.new) }
    {
        let entry = 2 * self.entry_at(self.next_taken());
        mem.fits(
            self.state.setup.driver,
            6 + 2 * u64::from(self.state.setup.size),
        );
        mem.load_u16(self.state.setup.driver + 4 + entry)
    }
}

impl RacingQueue for RacingSplitRing {
    ghost use Rattle.split_ring.specs.Kind.{IsAhead, IsTaken, entry_of};
    ghost use Rattle.racing_ring.specs.Queue.{racing_split};
    ghost use Rattle.racing_ring.specs.Lying.{split_lies};

    type Token = Token;

    ghost kind = { racing_split };

    ghost LiesIn = { λ m ring. LiesIn m ring.setup };

    ghost entry_of = { λ token. entry_of token.head };

    ghost IsTaken = { IsTaken };

    ghost IsAhead = { IsAhead };

    ghost left_of = { λ ring. ring.pending };

    #[tactic(auto, using(guest_memory::proofs::Ranges::inside_part, shared_memory::proofs::Sightings::inside_loads, crate::proofs::Lying::lies_loads))]
    /// What is on offer is told by one read of the available idx (2.7.13). More than the queue has descriptors, those in
    /// flight counted, are a `Jump`.
    fn open<M: Shared>(&mut self, mem: &mut M) -> Result<(), Fault> {
        // So no address in the area passes 2^64.
        mem.fits(self.state.setup.driver, 6);
        let offered = mem
            .load_u16(self.state.setup.driver + 2)
            .wrapping_sub(self.next_taken());
        self.state.used_count = 0;
        if offered > self.size() - self.state.ahead {
            self.state.pending = 0;
            return Err(Fault::Jump);
        }
        self.state.pending = offered;
        Ok(())
    }

    #[tactic(auto, using(crate::proofs::Lying::lies_loads))]
    /// The next chain is that of the head at its place.
    fn take<M: Shared>(
        &mut self,
        mem: &mut M,
        chain: &mut Chain,
        room: &mut Room,
    ) -> Result<Option<Token>, Fault> {
        chain.clear();
        if self.state.pending == 0 {
            return Ok(None);
        }
        room.known.clear();
        let head = self.head(mem);
        let table = Table {
            addr: self.state.setup.desc,
            size: self.size(),
            indirect: self.state.setup.indirect,
        };
        match append_path(mem, table, head, chain, room) {
            Ok(()) => Ok(Some(Token {
                place: self.next_taken(),
                head,
            })),
            Err(fault) => {
                chain.clear();
                self.state.stop();
                Err(fault)
            }
        }
    }

    /// The used entry is stored first, then the used idx (2.7.8).
    fn give<M: Shared>(&mut self, mem: &mut M, token: Token, used: Used) {
        self.put_used(mem, token.head, used.len);
        self.state.place = self.state.place.wrapping_add(1);
        self.state.pending -= 1;
        self.state.used_count += 1;
    }

    fn launch(&mut self, token: &Token) {
        let _ = token;
        self.state.pending -= 1;
        self.state.ahead += 1;
    }

    /// In the order of `give`.
    fn land<M: Shared>(&mut self, mem: &mut M, token: Token, used: Used) {
        self.put_used(mem, token.head, used.len);
        self.state.place = self.state.place.wrapping_add(1);
        self.state.pending = 0;
        self.state.used_count += 1;
        self.state.ahead -= 1;
    }

    #[tactic(auto, using(crate::proofs::Lying::lies_loads))]
    /// The closing writes come first (2.7.10), then the test (2.7.7).
    fn close<M: Shared>(&mut self, mem: &mut M) -> bool {
        self.put_closing(mem);
        let wanted = self.wants(mem);
        self.state.shut();
        wanted
    }

    fn shut(&mut self) {
        self.state.shut();
    }

    ghost lies_in_range = { λ m n ring same lies. split_lies m n ring.setup same lies };
}
