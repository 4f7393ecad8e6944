//! The ring: its areas, its places, and the calls of a service.

ghost use Rattle.std.specs.Prelude.{◌≡◌, ◌+◌, ◌*◌, ◌<◌, ◌≤◌, ◌↔◌, if◌then◌else◌, IsTrue, IsSome, IfSome};
ghost use Rattle.guest_memory.specs.Memory.{SameRange};
ghost use Rattle.chain.specs.Setup.{IsUsable, new_ring};
ghost use Rattle.packed_ring.specs.Ring.{IsQueueSize, LiesIn, areas_of, can_set_up, descriptor_addr, head_of, id_of, is_available, is_queue_size, next_taken, next_wrap, used_head, with_used, wrap_counter};
ghost use Rattle.packed_ring.specs.Reached.{served_to};
ghost use Rattle.packed_ring.specs.Kind.{IsAhead, IsTaken, entry_of, first_passed, packed_kind};

mod reached;
mod view;

use crate::flags::{are_available, flags_of_used};
use crate::modulus::reduced;
use crate::walk::{Table, append_list};
use chain::{Areas, Chain, Fault, RingState, Setup, Used, Virtqueue};
use guest_memory::{GuestMemory, Ranged};
use std::alloc::Allocator;
use std::marker::Model;
use suppression::packed_wants;

/// The largest queue size.
const MOST_DESCRIPTORS: u32 = 256;

/// A packed virtqueue of one guest. The addresses of its areas are the driver's; the guest's memory is handed
/// to each call, and the areas lie in it.
#[derive(Drop)]
pub struct PackedRing {
    state: RingState,
}

impl Model for PackedRing {
    ghost use Rattle.std.specs.Prelude.{◌<◌, ◌≤◌, ◌+◌, ◌*◌};
    ghost use Rattle.chain.specs.declared.state.RingState.{RingState};
    ghost use Rattle.packed_ring.specs.Ring.{IsQueueSize};

    ghost Value = { RingState };

    ghost view = { λ r. r.state };

    ghost invariant = { λ r. record {
      number : IsQueueSize r.state.setup.size;
      below : r.state.place < 2 * r.state.setup.size;
      fewer : r.state.used_count + r.state.ahead < 2 * r.state.setup.size;
      most : 0 < r.state.pending → r.state.used_count + r.state.ahead + r.state.pending ≤ r.state.setup.size;
    } };
}

/// A chain that was taken and not yet given back.
#[derive(Debug, PartialEq, Eq, Drop)]
pub struct Token {
    /// The place at which the chain was on offer.
    pub place: u16,
    /// The buffer id of its list, which is that of the list's last descriptor.
    pub id: u16,
    /// The number of descriptors of its list.
    pub length: u16,
}

impl PackedRing {
    /// A ring of `n` descriptors whose areas begin at the three addresses, before its first service. There
    /// is none where `n` is no queue size, or an area isn't aligned or isn't inside the memory (2.8).
    pub fn new<M: Ranged>(mem: &M, setup: Setup) -> Option<PackedRing>
        ensures value { result ≡ (if can_set_up (M.ranged mem.now) setup then Some (new_ring setup) else None) }
        ensures usable { IsSome result ↔ IsUsable IsQueueSize areas_of (M.ranged mem.now) setup }
        ensures lies { IfSome result (λ ring. LiesIn (M.ranged mem.now) ring.setup) }
    {
        if !is_queue_size(setup.size) || !setup.fits_in(mem, areas_of(setup.size)) {
            return None;
        }
        Some(PackedRing {
            state: RingState::new(setup),
        })
    }

    /// A ring in this state.
    pub fn of(state: RingState) -> PackedRing
        requires number { IsQueueSize state.setup.size }
        requires below { state.place < 2 * state.setup.size }
        requires fewer { state.used_count + state.ahead < 2 * state.setup.size }
        requires most { 0 < state.pending → state.used_count + state.ahead + state.pending ≤ state.setup.size }
        ensures { result ≡ state }
    {
        PackedRing { state }
    }

    /// Whether the areas lie in this memory, as each call of a service wants.
    pub fn lies_in<M: Ranged>(&self, mem: &M) -> bool
        ensures { IsTrue result ↔ LiesIn (M.ranged mem.now) self.now.setup }
    {
        self.state
            .setup
            .lies_in(mem, areas_of(self.state.setup.size))
    }

    /// How it is set up, and how far it is served.
    pub fn state(&self) -> RingState
        ensures value { result ≡ self.now }
        ensures reached { served_to self.now.place self.now.pending self.now.used_count self.now.ahead self.now ≡ Some self.now }
        ensures number { IsQueueSize result.setup.size }
        ensures below { result.place < 2 * result.setup.size }
        ensures fewer { result.used_count + result.ahead < 2 * result.setup.size }
        ensures most { 0 < result.pending → result.used_count + result.ahead + result.pending ≤ result.setup.size }
    {
        self.state
    }

    // The number of descriptors.
    fn size(&self) -> u16
        ensures value { result ≡ self.now.setup.size }
        ensures some { 0 < result }
        ensures most { result ≤ 256 }
    {
        self.state.setup.size as u16
    }

    /// The place of the next list, behind those in flight.
    #[inline(always)]
    pub fn next_taken(&self) -> u16
        ensures value { result ≡ next_taken self.now }
        ensures below { result < 2 * self.now.setup.size }
    {
        reduced(self.state.place + self.state.ahead, 2 * self.size())
    }

    /// The position of the next list's place.
    fn head(&self) -> u16
        ensures value { result ≡ head_of self.now }
        ensures below { result < self.now.setup.size }
    {
        reduced(self.next_taken(), self.size())
    }

    /// The position of the ring's place.
    fn used_head(&self) -> u16
        ensures value { result ≡ used_head self.now }
        ensures below { result < self.now.setup.size }
    {
        reduced(self.state.place, self.size())
    }

    /// The wrap counter of the ring's place, as whether it is 1 (2.8.1).
    fn wrap_counter(&self) -> bool
        ensures { wrap_counter self.now ≡ (if result then 1 else 0) }
    {
        self.state.place < self.size()
    }

    /// The wrap counter of the next list's place, as whether it is 1 (2.8.1).
    fn next_wrap(&self) -> bool
        ensures { next_wrap self.now ≡ (if result then 1 else 0) }
    {
        self.next_taken() < self.size()
    }

    #[tactic(auto, using(guest_memory::proofs::Ranges::inside_part, guest_memory::proofs::Ranges::inside_same))]
    /// Whether the descriptor at the next list's place is available (2.8.1).
    fn is_available<A: Allocator>(&self, mem: &GuestMemory<A>) -> bool
        requires { LiesIn mem.now self.now.setup }
        ensures { result ≡ is_available mem.now self.now }
    {
        let offset = 16 * u64::from(self.head());
        mem.fits(self.state.setup.desc, 16 * u64::from(self.state.setup.size));
        let flags = mem.read_u16(self.state.setup.desc + offset + 14);
        are_available(flags, self.next_wrap())
    }

    #[tactic(auto, using(guest_memory::proofs::Ranges::inside_part, guest_memory::proofs::Ranges::inside_same))]
    /// The buffer id of the descriptor at a position (2.8.13).
    fn id<A: Allocator>(&self, mem: &GuestMemory<A>, position: u16) -> u16
        requires lies { LiesIn mem.now self.now.setup }
        requires below { position < self.now.setup.size }
        ensures { result ≡ id_of mem.now (descriptor_addr self.now.setup.desc position) }
    {
        let offset = 16 * u64::from(position);
        mem.fits(self.state.setup.desc, 16 * u64::from(self.state.setup.size));
        mem.read_u16(self.state.setup.desc + offset + 12)
    }

    #[tactic(auto, using(guest_memory::proofs::Ranges::inside_part, guest_memory::proofs::Ranges::inside_same))]
    /// Writes len, buffer id and flags into the descriptor at the ring's place (2.8.4).
    #[inline(always)]
    fn put_used<A: Allocator>(&self, mem: &mut GuestMemory<A>, id: u16, len: u32, wrote: bool)
        requires { LiesIn mem.old self.now.setup }
        ensures used { mem.new ≡ with_used mem.old self.now id len wrote }
        ensures range { SameRange mem.old mem.new }
    {
        let offset = 16 * u64::from(self.used_head());
        mem.fits(self.state.setup.desc, 16 * u64::from(self.state.setup.size));
        let descriptor = self.state.setup.desc + offset;
        let flags = flags_of_used(self.wrap_counter(), wrote);
        // len, id and flags, side by side
        mem.write_u64(
            descriptor + 8,
            u64::from(flags) * (1 << 48) + u64::from(id) * (1 << 32) + u64::from(len),
        );
    }

    /// The first of the places passed since the last `open`.
    fn first_passed(&self) -> u16
        ensures value { result ≡ first_passed self.now }
        ensures below { result < 2 * self.now.setup.size }
    {
        let places = 2 * self.size();
        reduced(self.state.place + (places - self.state.used_count), places)
    }
}

impl Virtqueue for PackedRing {
    type Token = Token;

    ghost kind = { packed_kind };

    ghost LiesIn = { λ m ring. LiesIn m ring.setup };

    ghost entry_of = { λ token. entry_of token.id token.length };

    ghost IsTaken = { IsTaken };

    ghost IsAhead = { IsAhead };

    ghost left_of = { λ ring. ring.pending };

    ghost made_as = { λ ring. new_ring ring.setup };

    /// Lists may be taken until as many places as the queue has descriptors, or more, are passed or in flight. It reads
    /// nothing, so it never has a fault.
    fn open<A: Allocator>(&mut self, mem: &GuestMemory<A>) -> Result<(), Fault> {
        let _ = mem;
        self.state.pending = self.size().saturating_sub(self.state.ahead);
        self.state.used_count = 0;
        Ok(())
    }

    /// The next chain is the list at the next place, where that is available.
    #[inline(always)]
    fn take<A: Allocator>(
        &mut self,
        mem: &GuestMemory<A>,
        chain: &mut Chain,
    ) -> Result<Option<Token>, Fault> {
        chain.clear();
        if self.state.pending == 0 || !self.is_available(mem) {
            return Ok(None);
        }
        let table = Table {
            addr: self.state.setup.desc,
            size: self.size(),
            indirect: self.state.setup.indirect,
        };
        match append_list(mem, table, self.head(), chain) {
            Ok(end) => Ok(Some(Token {
                place: self.next_taken(),
                id: self.id(mem, end.last),
                length: end.count + 1,
            })),
            Err(fault) => {
                chain.clear();
                self.state.stop();
                Err(fault)
            }
        }
    }

    /// The used descriptor tells whether any byte was written, too (2.8.3, 2.8.4).
    #[inline(always)]
    fn give<A: Allocator>(&mut self, mem: &mut GuestMemory<A>, token: Token, used: Used) {
        self.put_used(mem, token.id, used.len, used.wrote);
        self.state.place = reduced(self.state.place + token.length, 2 * self.size());
        self.state.pending = self.state.pending.saturating_sub(token.length);
        self.state.used_count += token.length;
    }

    fn launch(&mut self, token: &Token) {
        self.state.pending = self.state.pending.saturating_sub(token.length);
        self.state.ahead += token.length;
    }

    #[inline(always)]
    fn land<A: Allocator>(&mut self, mem: &mut GuestMemory<A>, token: Token, used: Used) {
        let Token { id, length, .. } = token;
        self.put_used(mem, id, used.len, used.wrote);
        self.state.place = reduced(self.state.place + length, 2 * self.size());
        self.state.pending = 0;
        self.state.used_count += length;
        self.state.ahead -= length;
    }

    /// The closing write comes first (2.8.10), then the test.
    fn close<A: Allocator>(&mut self, mem: &mut GuestMemory<A>) -> bool {
        mem.write_u32(self.state.setup.device, 0);
        let wanted = packed_wants(
            mem,
            self.state.setup.driver,
            self.size(),
            self.state.setup.event_idx,
            self.first_passed(),
            self.state.used_count,
        );
        self.state.shut();
        wanted
    }
}

/// What the layout asks of the areas of a queue of so many descriptors.
fn areas_of(size: u32) -> Areas
    ensures { result ≡ areas_of size }
{
    let n = u64::from(size);
    Areas {
        desc: 16 * n,
        driver: 4,
        device: 4,
        driver_alignment: 4,
    }
}

/// Whether a packed queue may have `n` descriptors.
fn is_queue_size(n: u32) -> bool
    ensures test { result ≡ is_queue_size n }
    ensures size { IsTrue result ↔ IsQueueSize n }
{
    0 < n && n <= MOST_DESCRIPTORS
}
