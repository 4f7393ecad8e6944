//! The ring: its areas, its places, and the calls of a service.

ghost use Rattle.std.specs.Prelude.{◌≡◌, ◌+◌, ◌%◌, ◌<◌, ◌≤◌, ◌↔◌, if◌then◌else◌, IsTrue, IsSome, IfSome};
ghost use Rattle.guest_memory.specs.Memory.{SameRange};
ghost use Rattle.chain.specs.Setup.{IsUsable, new_ring};
ghost use Rattle.split_ring.specs.Ring.{IsQueueSize, LiesIn, head_of, areas_of, can_set_up, is_queue_size, next_place, next_taken, with_used};
ghost use Rattle.split_ring.specs.Reached.{served_to};
ghost use Rattle.split_ring.specs.Kind.{IsAhead, IsTaken, entry_of, split_kind};

mod reached;
mod view;

use crate::walk::{Table, append_path};
use chain::{Areas, Chain, Fault, RingState, Setup, Used, Virtqueue};
use guest_memory::{GuestMemory, Ranged};
use std::alloc::Allocator;
use std::marker::Model;
use suppression::split_wants;

/// The largest queue size.
const MOST_DESCRIPTORS: u32 = 256;

/// A split virtqueue of one guest. The addresses of its areas are the driver's; the guest's memory is handed
/// to each call, and the areas lie in it.
#[derive(Drop)]
pub struct SplitRing {
    state: RingState,
}

impl Model for SplitRing {
    ghost use Rattle.std.specs.Prelude.{◌≤◌, ◌+◌};
    ghost use Rattle.chain.specs.declared.state.RingState.{RingState};
    ghost use Rattle.split_ring.specs.Ring.{IsQueueSize};

    ghost Value = { RingState };

    ghost view = { λ r. r.state };

    ghost invariant = { λ r. record {
      number : IsQueueSize r.state.setup.size;
      most : r.state.used_count + r.state.pending + r.state.ahead ≤ r.state.setup.size;
    } };
}

/// A chain that was taken and not yet given back.
#[derive(Debug, PartialEq, Eq, Drop)]
pub struct Token {
    /// The place at which the chain was on offer.
    pub place: u16,
    /// The index of its first descriptor.
    pub head: u16,
}

impl SplitRing {
    /// A ring of `n` descriptors whose areas begin at the three addresses, before its first service. There
    /// is none where `n` is no queue size, or an area isn't aligned or isn't inside the memory (2.7).
    pub fn new<M: Ranged>(mem: &M, setup: Setup) -> Option<SplitRing>
        ensures value { result ≡ (if can_set_up (M.ranged mem.now) setup then Some (new_ring setup) else None) }
        ensures usable { IsSome result ↔ IsUsable IsQueueSize areas_of (M.ranged mem.now) setup }
        ensures lies { IfSome result (λ ring. LiesIn (M.ranged mem.now) ring.setup) }
    {
        if !is_queue_size(setup.size) || !setup.fits_in(mem, areas_of(setup.size)) {
            return None;
        }
        Some(SplitRing {
            state: RingState::new(setup),
        })
    }

    /// A ring in this state.
    pub fn of(state: RingState) -> SplitRing
        requires number { IsQueueSize state.setup.size }
        requires most { state.used_count + state.pending + state.ahead ≤ state.setup.size }
        ensures { result ≡ state }
    {
        SplitRing { state }
    }

    /// Whether the areas lie in this memory, as each call of a service wants.
    pub fn lies_in<M: Ranged>(&self, mem: &M) -> bool
        ensures { IsTrue result ↔ LiesIn (M.ranged mem.now) self.now.setup }
    {
        self.state
            .setup
            .lies_in(mem, areas_of(self.state.setup.size))
    }

    /// How it is set up, and how far it is served.
    pub fn state(&self) -> RingState
        ensures value { result ≡ self.now }
        ensures reached { served_to self.now.place self.now.pending self.now.used_count self.now.ahead self.now ≡ Some self.now }
        ensures number { IsQueueSize result.setup.size }
        ensures most { result.used_count + result.pending + result.ahead ≤ result.setup.size }
    {
        self.state
    }

    // The number of descriptors.
    fn size(&self) -> u16
        ensures value { result ≡ self.now.setup.size }
        ensures some { 0 < result }
        ensures queue_size { IsQueueSize result }
    {
        self.state.setup.size as u16
    }

    /// The place of the next chain, behind those in flight.
    #[inline(always)]
    pub fn next_taken(&self) -> u16
        ensures { result ≡ next_taken self.now }
    {
        self.state.place.wrapping_add(self.state.ahead)
    }

    // The entry of a place in the available ring and in the used one.
    fn entry_at(&self, place: u16) -> u64
        ensures value { result ≡ place % self.now.setup.size }
        ensures below { result < self.now.setup.size }
    {
        // The size is a power of two (2.7).
        u64::from(place & self.size() - 1)
    }

    #[tactic(auto, using(guest_memory::proofs::Ranges::inside_part, guest_memory::proofs::Ranges::inside_same))]
    /// The head in the available entry of the next chain's place (2.7.6).
    pub fn head<A: Allocator>(&self, mem: &GuestMemory<A>) -> u16
        requires { LiesIn mem.now self.now.setup }
        ensures { result ≡ head_of mem.now self.now }
    {
        let entry = 2 * self.entry_at(self.next_taken());
        mem.fits(
            self.state.setup.driver,
            6 + 2 * u64::from(self.state.setup.size),
        );
        mem.read_u16(self.state.setup.driver + 4 + entry)
    }

    #[tactic(auto, using(guest_memory::proofs::Ranges::inside_part, guest_memory::proofs::Ranges::inside_same))]
    /// Writes the used entry of the ring's place, and then the used idx (2.7.8).
    #[inline(always)]
    fn put_used<A: Allocator>(&self, mem: &mut GuestMemory<A>, head: u16, len: u32, next: u16)
        requires lies { LiesIn mem.old self.now.setup }
        requires next { next ≡ next_place self.now }
        ensures used { mem.new ≡ with_used mem.old self.now head len }
        ensures range { SameRange mem.old mem.new }
    {
        let offset = 8 * self.entry_at(self.state.place);
        mem.fits(
            self.state.setup.device,
            6 + 8 * u64::from(self.state.setup.size),
        );
        let entry = self.state.setup.device + 4 + offset;
        // id and len, side by side
        mem.write_u64(entry, u64::from(len) * (1 << 32) + u64::from(head));
        mem.write_u16(self.state.setup.device + 2, next);
    }

    #[tactic(auto, using(guest_memory::proofs::Ranges::inside_part, guest_memory::proofs::Ranges::inside_same))]
    /// Writes used flags of 0 and, where VIRTIO_F_EVENT_IDX was negotiated, avail_event (2.7.10).
    fn put_closing<A: Allocator>(&self, mem: &mut GuestMemory<A>)
        requires { LiesIn mem.old self.now.setup }
        ensures closed { mem.new ≡ split_kind.closed mem.old self.now }
        ensures range { SameRange mem.old mem.new }
    {
        let entries = 8 * u64::from(self.state.setup.size);
        mem.fits(self.state.setup.device, 6 + entries);
        mem.write_u16(self.state.setup.device, 0);
        if self.state.setup.event_idx {
            mem.write_u16(self.state.setup.device + 4 + entries, self.next_taken());
        }
    }
}

impl Virtqueue for SplitRing {
    type Token = Token;

    ghost kind = { split_kind };

    ghost LiesIn = { λ m ring. LiesIn m ring.setup };

    ghost entry_of = { λ token. entry_of token.head };

    ghost IsTaken = { IsTaken };

    ghost IsAhead = { IsAhead };

    ghost left_of = { λ ring. ring.pending };

    ghost made_as = { λ ring. new_ring ring.setup };

    #[tactic(auto, using(guest_memory::proofs::Ranges::inside_part, guest_memory::proofs::Ranges::inside_same))]
    /// On offer are the heads that the driver has put into the available ring by now (2.7.13). More than the queue has
    /// descriptors, those in flight counted, are a `Jump`.
    fn open<A: Allocator>(&mut self, mem: &GuestMemory<A>) -> Result<(), Fault> {
        // So no address in the area passes 2^64.
        mem.fits(self.state.setup.driver, 6);
        let offered = mem
            .read_u16(self.state.setup.driver + 2)
            .wrapping_sub(self.next_taken());
        self.state.used_count = 0;
        if offered > self.size() - self.state.ahead {
            self.state.pending = 0;
            return Err(Fault::Jump);
        }
        self.state.pending = offered;
        Ok(())
    }

    /// The next chain is that of the head at its place.
    #[inline(always)]
    fn take<A: Allocator>(
        &mut self,
        mem: &GuestMemory<A>,
        chain: &mut Chain,
    ) -> Result<Option<Token>, Fault> {
        chain.clear();
        if self.state.pending == 0 {
            return Ok(None);
        }
        let head = self.head(mem);
        let table = Table {
            addr: self.state.setup.desc,
            size: self.size(),
            indirect: self.state.setup.indirect,
        };
        match append_path(mem, table, head, chain) {
            Ok(()) => Ok(Some(Token {
                place: self.next_taken(),
                head,
            })),
            Err(fault) => {
                chain.clear();
                self.state.stop();
                Err(fault)
            }
        }
    }

    /// Whether any byte was written is of no account here (2.7.8).
    #[inline(always)]
    fn give<A: Allocator>(&mut self, mem: &mut GuestMemory<A>, token: Token, used: Used) {
        let next = self.state.place.wrapping_add(1);
        self.put_used(mem, token.head, used.len, next);
        self.state.place = next;
        self.state.pending -= 1;
        self.state.used_count += 1;
    }

    fn launch(&mut self, token: &Token) {
        let _ = token;
        self.state.pending -= 1;
        self.state.ahead += 1;
    }

    #[inline(always)]
    fn land<A: Allocator>(&mut self, mem: &mut GuestMemory<A>, token: Token, used: Used) {
        let Token { head, .. } = token;
        let next = self.state.place.wrapping_add(1);
        self.put_used(mem, head, used.len, next);
        self.state.place = next;
        self.state.pending = 0;
        self.state.used_count += 1;
        self.state.ahead -= 1;
    }

    /// The closing writes come first (2.7.10), then the test (2.7.7).
    fn close<A: Allocator>(&mut self, mem: &mut GuestMemory<A>) -> bool {
        self.put_closing(mem);
        let first = self.state.place.wrapping_sub(self.state.used_count);
        let wanted = split_wants(
            mem,
            self.state.setup.driver,
            self.size(),
            self.state.setup.event_idx,
            first,
            self.state.used_count,
        );
        self.state.shut();
        wanted
    }
}

/// What the layout asks of the areas of a queue of so many descriptors.
fn areas_of(size: u32) -> Areas
    ensures { result ≡ areas_of size }
{
    let n = u64::from(size);
    Areas {
        desc: 16 * n,
        driver: 6 + 2 * n,
        device: 6 + 8 * n,
        driver_alignment: 2,
    }
}

/// Whether a split queue may have `n` descriptors.
fn is_queue_size(n: u32) -> bool
    ensures test { result ≡ is_queue_size n }
    ensures size { IsTrue result ↔ IsQueueSize n }
{
    n <= MOST_DESCRIPTORS && n.is_power_of_two()
}
