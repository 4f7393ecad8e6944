//! A ring as somebody sees it who doesn't serve it: a copy to ask, and what stands in its areas.

ghost use Rattle.std.specs.Prelude.{◌≡◌, ◌<◌, ◌+◌, ◌*◌, ◌%◌, ◌↔◌, IsSome, IfSome};
ghost use Rattle.guest_memory.specs.Memory.{num};
ghost use Rattle.split_ring.specs.Ring.{LiesIn, avail_idx, table_of};

use crate::ring::SplitRing;
use guest_memory::GuestMemory;
use indirect::Descriptor;
use std::alloc::Allocator;

impl SplitRing {
    /// The ring once more. What a service would take can be asked of the copy.
    pub fn copied(&self) -> SplitRing
        ensures { result ≡ self.now }
    {
        SplitRing { state: self.state }
    }

    #[tactic(auto, using(guest_memory::proofs::Ranges::inside_part, guest_memory::proofs::Ranges::inside_same))]
    /// The idx of the available ring (2.7.6).
    pub fn available_idx<A: Allocator>(&self, mem: &GuestMemory<A>) -> u16
        requires { LiesIn mem.now self.now.setup }
        ensures { result ≡ avail_idx mem.now self.now }
    {
        mem.fits(self.state.setup.driver, 6);
        mem.read_u16(self.state.setup.driver + 2)
    }

    #[tactic(auto, using(guest_memory::proofs::Ranges::inside_part, guest_memory::proofs::Ranges::inside_same))]
    /// The idx of the used ring (2.7.8).
    pub fn used_idx<A: Allocator>(&self, mem: &GuestMemory<A>) -> u16
        requires { LiesIn mem.now self.now.setup }
        ensures { result ≡ num mem.now (self.now.setup.device + 2) 2 }
    {
        mem.fits(self.state.setup.device, 6);
        mem.read_u16(self.state.setup.device + 2)
    }

    #[tactic(auto, using(guest_memory::proofs::Ranges::inside_part, guest_memory::proofs::Ranges::inside_same))]
    /// The flags of the available ring (2.7.6), of which bit 0 says that no notification is wanted.
    pub fn available_flags<A: Allocator>(&self, mem: &GuestMemory<A>) -> u16
        requires { LiesIn mem.now self.now.setup }
        ensures { result ≡ num mem.now self.now.setup.driver 2 }
    {
        mem.fits(self.state.setup.driver, 6);
        mem.read_u16(self.state.setup.driver)
    }

    #[tactic(auto, using(guest_memory::proofs::Ranges::inside_part, guest_memory::proofs::Ranges::inside_same))]
    /// The place of the used ring from which on a notification is wanted, where EVENT_IDX was negotiated (2.7.7).
    pub fn used_event<A: Allocator>(&self, mem: &GuestMemory<A>) -> u16
        requires { LiesIn mem.now self.now.setup }
        ensures { result ≡ num mem.now (self.now.setup.driver + 4 + 2 * self.now.setup.size) 2 }
    {
        let entries = 2 * u64::from(self.state.setup.size);
        mem.fits(self.state.setup.driver, 6 + entries);
        mem.read_u16(self.state.setup.driver + 4 + entries)
    }

    #[tactic(auto, using(guest_memory::proofs::Ranges::inside_part, guest_memory::proofs::Ranges::inside_same))]
    /// The head and the len in the used entry of a place (2.7.8).
    pub fn used_entry<A: Allocator>(&self, mem: &GuestMemory<A>, place: u16) -> (u32, u32)
        requires { LiesIn mem.now self.now.setup }
        ensures head { result.0 ≡ num mem.now (self.now.setup.device + 4 + 8 * (place % self.now.setup.size)) 4 }
        ensures len { result.1 ≡ num mem.now (self.now.setup.device + 4 + 8 * (place % self.now.setup.size) + 4) 4 }
    {
        let offset = 8 * self.entry_at(place);
        mem.fits(
            self.state.setup.device,
            6 + 8 * u64::from(self.state.setup.size),
        );
        let entry = self.state.setup.device + 4 + offset;
        (mem.read_u32(entry), mem.read_u32(entry + 4))
    }

    #[tactic(auto, using(guest_memory::proofs::Ranges::inside_part, guest_memory::proofs::Ranges::inside_same))]
    /// The descriptor at an index of the table (2.7.5). There is none at an index outside it.
    pub fn descriptor<A: Allocator>(&self, mem: &GuestMemory<A>, index: u16) -> Option<Descriptor>
        requires { LiesIn mem.now self.now.setup }
        ensures inside { IsSome result ↔ (index < self.now.setup.size) }
        ensures value { IfSome result (λ found. found ≡ table_of mem.now self.now index) }
    {
        if index >= self.size() {
            return None;
        }
        mem.fits(self.state.setup.desc, 16 * u64::from(self.state.setup.size));
        Some(Descriptor::read_split(mem, self.state.setup.desc + 16 * u64::from(index)))
    }
}
