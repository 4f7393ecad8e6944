//! What was read while a chain is taken.

ghost use Rattle.std.specs.Prelude.{◌≡◌, ◌+◌, ◌*◌, ◌≤◌, ◌<◌, ◌^◌, replicate, None};
ghost use Rattle.guest_memory.specs.Memory.{Inside};
ghost use Rattle.shared_memory.specs.Sightings.{Loads, memory};
ghost use Rattle.racing_ring.specs.Table.{IsDescriptorSeen, IsLookedUp};

use crate::descriptor::load_fields;
use indirect::Descriptor;
use shared_memory::Shared;
use std::marker::Model;

/// How many descriptors a queue has at most.
const MOST_DESCRIPTORS: usize = 256;

/// The descriptors of a ring's table that were read.
#[derive(Drop)]
pub struct Known {
    known: [Option<Descriptor>; MOST_DESCRIPTORS],
    // None was read below the first of these indices, nor from the second on.
    from: usize,
    to: usize,
}

impl Model for Known {
    ghost use Rattle.std.specs.Prelude.{◌≤◌};
    ghost use Rattle.racing_ring.specs.Table.{Known as Value_of, AreUnreadBeside};

    ghost Value = { Value_of };

    ghost view = { λ r. r.known };

    ghost invariant = { λ r. (r.to ≤ 256) × AreUnreadBeside r.known r.from r.to };
}

/// The room for what is read of the memory. What it holds between two calls has no part in what they come to.
#[derive(Drop)]
pub struct Room {
    pub(crate) known: Known,
    pub(crate) table: [u8; 4096],
}

impl Room {
    /// A room in which no descriptor stands.
    pub fn new() -> Room
        ensures { result.known ≡ replicate 256 None }
    {
        Room {
            known: Known::new(),
            table: [0; 4096],
        }
    }
}

impl Known {
    /// Nothing was read.
    pub(crate) fn new() -> Known
        ensures { result ≡ replicate 256 None }
    {
        Known {
            known: [None; MOST_DESCRIPTORS],
            from: MOST_DESCRIPTORS,
            to: 0,
        }
    }

    /// Forgets what was read.
    #[inline(never)]
    pub(crate) fn clear(&mut self)
        ensures { self.new ≡ replicate 256 None }
    {
        for index in self.from..self.to {
            self.known[index] = None;
        }
        self.from = MOST_DESCRIPTORS;
        self.to = 0;
    }

    /// The descriptor of an index, of the table at `addr`: it is read where it wasn't before.
    pub(crate) fn descriptor<M: Shared>(&mut self, mem: &mut M, addr: u64, index: u16) -> Descriptor
        requires below { index < 256 }
        requires there { Inside (memory (M.sightings mem.old)) (addr + 16 * index) 16 }
        requires fits { addr + 16 * index < 2 ^ 64 }
        ensures loads { Loads M.races (M.sightings mem.old) (M.sightings mem.new) }
        ensures looked { IsLookedUp (M.sightings mem.old).now (M.sightings mem.new) addr self.old self.new index result }
    {
        let at = usize::from(index);
        match self.known[at] {
            Some(descriptor) => descriptor,
            None => {
                let descriptor = read(mem, addr + 16 * u64::from(index));
                self.known[at] = Some(descriptor);
                self.from = self.from.min(at);
                self.to = self.to.max(at + 1);
                descriptor
            }
        }
    }
}

/// The split descriptor at `addr` (2.7.5), each of its words by one copy.
#[tactic(auto, using(crate::proofs::Seeing::fields_loaded))]
fn read<M: Shared>(mem: &mut M, addr: u64) -> Descriptor
    requires { Inside (memory (M.sightings mem.old)) addr 16 }
    ensures seen { IsDescriptorSeen (M.sightings mem.old).now (M.sightings mem.new) addr result }
    ensures loads { Loads M.races (M.sightings mem.old) (M.sightings mem.new) }
{
    let fields = load_fields(mem, addr);
    Descriptor::of_fields(fields.segment, fields.third, fields.last)
}
