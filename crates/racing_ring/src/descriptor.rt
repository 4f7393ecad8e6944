//! The fields of a descriptor, each of its two words by one copy.
//!
//! The second word has the flags, and is read first: a driver stores the flags of a packed descriptor last (2.8.6).

ghost use Rattle.std.specs.Prelude.{◌≡◌, ◌+◌, ◌^◌};
ghost use Rattle.guest_memory.specs.Memory.{Inside, num};
ghost use Rattle.shared_memory.specs.Sightings.{Loads, memory};
ghost use Rattle.racing_ring.specs.Source.{AreFields};

use chain::Segment;
use shared_memory::Shared;

/// The fields of a descriptor, in the order of both layouts. The last two are flags and next of a split one (2.7.5), id and
/// flags of a packed one (2.8.13).
#[derive(Clone, Copy)]
pub(crate) struct Fields {
    pub segment: Segment,
    pub third: u16,
    pub last: u16,
}

/// The second word of a descriptor: all its fields but the first one.
#[derive(Clone, Copy)]
struct SecondWord {
    len: u32,
    third: u16,
    last: u16,
}

/// The fields of the descriptor at `addr`: the word with the flags is read first, and then the address of its buffer.
#[tactic(auto, using(shared_memory::proofs::Sightings::inside_loads, shared_memory::proofs::Sightings::loads_trans))]
#[inline(always)]
pub(crate) fn load_fields<M: Shared>(mem: &mut M, addr: u64) -> Fields
    requires { Inside (memory (M.sightings mem.old)) addr 16 }
    ensures fields { AreFields M.races (M.sightings mem.old) (M.sightings mem.new) addr result.segment.addr result.segment.len result.third result.last }
{
    let second = load_second(mem, addr);
    let first = load_first(mem, addr);
    Fields {
        segment: Segment {
            addr: first,
            len: second.len,
        },
        third: second.third,
        last: second.last,
    }
}

/// The second word of the descriptor at `addr`.
#[tactic(auto, using(guest_memory::proofs::Ranges::inside_part))]
fn load_second<M: Shared>(mem: &mut M, addr: u64) -> SecondWord
    requires { Inside (memory (M.sightings mem.old)) addr 16 }
    ensures len { result.len ≡ num (memory (M.sightings mem.new)) (addr + 8) 4 }
    ensures third { result.third ≡ num (memory (M.sightings mem.new)) (addr + 12) 2 }
    ensures last { result.last ≡ num (memory (M.sightings mem.new)) (addr + 14) 2 }
    ensures loads { Loads M.races (M.sightings mem.old) (M.sightings mem.new) }
{
    // So the address of the second word doesn't pass 2^64.
    mem.fits(addr, 16);
    let mut word = [0; 8];
    mem.load(addr + 8, &mut word);
    SecondWord {
        len: u32::from_le_bytes([word[0], word[1], word[2], word[3]]),
        third: u16::from_le_bytes([word[4], word[5]]),
        last: u16::from_le_bytes([word[6], word[7]]),
    }
}

/// Its first word, which is the address of its buffer.
#[tactic(auto, using(guest_memory::proofs::Ranges::inside_part))]
fn load_first<M: Shared>(mem: &mut M, addr: u64) -> u64
    requires { Inside (memory (M.sightings mem.old)) addr 16 }
    ensures value { result ≡ num (memory (M.sightings mem.new)) addr 8 }
    ensures loads { Loads M.races (M.sightings mem.old) (M.sightings mem.new) }
{
    let mut word = [0; 8];
    mem.load(addr, &mut word);
    u64::from_le_bytes(word)
}
