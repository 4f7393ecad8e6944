//! A ring as somebody sees it who doesn't serve it: a copy to ask, and what stands in its areas.

ghost use Rattle.std.specs.Prelude.{◌≡◌, ◌<◌, ◌+◌, ◌%◌, ◌↔◌, IsSome, IfSome};
ghost use Rattle.guest_memory.specs.Memory.{num};
ghost use Rattle.packed_ring.specs.Ring.{LiesIn, descriptor_addr, flags_of, head_of, id_of};
ghost use Rattle.indirect.specs.Descriptors.{packed_buffer};

use crate::ring::PackedRing;
use chain::Buffer;
use guest_memory::GuestMemory;
use indirect::PackedDescriptor;
use std::alloc::Allocator;

impl PackedRing {
    /// The ring once more. What a service would take can be asked of the copy.
    pub fn copied(&self) -> PackedRing
        ensures { result ≡ self.now }
    {
        PackedRing { state: self.state }
    }

    /// The position of the next list.
    pub fn position(&self) -> u16
        ensures { result ≡ head_of self.now }
    {
        self.head()
    }

    #[tactic(auto, using(guest_memory::proofs::Ranges::inside_part, guest_memory::proofs::Ranges::inside_same))]
    /// The driver's event suppression structure (2.8.14): the place, as offset and wrap counter, and the flags.
    pub fn driver_events<A: Allocator>(&self, mem: &GuestMemory<A>) -> (u16, u16)
        requires { LiesIn mem.now self.now.setup }
        ensures place { result.0 ≡ num mem.now self.now.setup.driver 2 }
        ensures flags { result.1 ≡ num mem.now (self.now.setup.driver + 2) 2 }
    {
        mem.fits(self.state.setup.driver, 4);
        (
            mem.read_u16(self.state.setup.driver),
            mem.read_u16(self.state.setup.driver + 2),
        )
    }

    #[tactic(auto, using(guest_memory::proofs::Ranges::inside_part, guest_memory::proofs::Ranges::inside_same))]
    /// The buffer, the id and the flags of the descriptor at a position (2.8.13). There is none outside the ring.
    pub fn descriptor<A: Allocator>(
        &self,
        mem: &GuestMemory<A>,
        position: u16,
    ) -> Option<(Buffer, u16, u16)>
        requires { LiesIn mem.now self.now.setup }
        ensures inside { IsSome result ↔ (position < self.now.setup.size) }
        ensures buffer { IfSome result (λ found. found.0 ≡ packed_buffer mem.now (descriptor_addr self.now.setup.desc position)) }
        ensures id { IfSome result (λ found. found.1 ≡ id_of mem.now (descriptor_addr self.now.setup.desc position)) }
        ensures flags { IfSome result (λ found. found.2 ≡ flags_of mem.now (descriptor_addr self.now.setup.desc position)) }
    {
        if position >= self.size() {
            return None;
        }
        let offset = 16 * u64::from(position);
        mem.fits(self.state.setup.desc, 16 * u64::from(self.state.setup.size));
        let descriptor = PackedDescriptor::read(mem, self.state.setup.desc + offset);
        Some((descriptor.buffer, descriptor.id, descriptor.flags))
    }

    /// The same of the descriptor at a place's position, behind the wrap too. There always is one.
    pub fn descriptor_of<A: Allocator>(
        &self,
        mem: &GuestMemory<A>,
        place: u16,
    ) -> Option<(Buffer, u16, u16)>
        requires { LiesIn mem.now self.now.setup }
        ensures there { IsSome result }
        ensures buffer { IfSome result (λ found. found.0 ≡ packed_buffer mem.now (descriptor_addr self.now.setup.desc (place % self.now.setup.size))) }
        ensures id { IfSome result (λ found. found.1 ≡ id_of mem.now (descriptor_addr self.now.setup.desc (place % self.now.setup.size))) }
        ensures flags { IfSome result (λ found. found.2 ≡ flags_of mem.now (descriptor_addr self.now.setup.desc (place % self.now.setup.size))) }
    {
        self.descriptor(mem, place % self.size())
    }
}
