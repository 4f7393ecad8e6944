//! `memory`: a guest's memory, of 64 KiB from 80000000 on until a call makes another, and a heap that may refuse.

ghost use Rattle.guest_memory.specs.Memory.{SameRange};

use crate::calls::answer::{put_bytes, put_flag, put_number, put_option, put_result, put_word};
use crate::calls::subject::{Answered, Stuck, Subject};
use crate::calls::words::Words;
use guest_memory::{GuestMemory, RegionSpec};
use std::alloc::Global;
use test_support::RefusingHeap;

/// The memory until a call makes another.
const FIRST: RegionSpec = RegionSpec {
    base: 0x8000_0000,
    len: 0x1_0000,
};

/// How many regions a call may name: more than a memory may have.
const MOST_REGIONS: u64 = 16;

/// A guest's memory, and the heap on which `new` tries to make one.
#[derive(Drop)]
pub(crate) struct Memory {
    pub(crate) alloc: Global,
    heap: RefusingHeap,
    pub(crate) mem: GuestMemory,
}

impl Memory {
    pub(crate) fn new(alloc: Global) -> Result<Memory, Stuck> {
        Ok(Memory {
            alloc,
            heap: RefusingHeap::new(alloc),
            mem: memory_of(alloc, &[FIRST])?,
        })
    }

    /// The calls of any subject that has a memory.
    pub(crate) fn make(&mut self, words: &mut Words<'_>, answer: &mut String) -> Answered {
        match words.name() {
            "memory" => self.replace(words, answer),
            "holds" => self.holds(words, answer),
            "bytes" => self.bytes(words, answer),
            "write" => self.write(words, answer),
            "descriptor" => self.descriptor(words, answer),
            "descriptors" => self.descriptors(words, answer),
            _ => self.number(words, answer),
        }
    }

    // Puts or gets a number.
    fn number(&mut self, words: &mut Words<'_>, answer: &mut String) -> Answered {
        let addr = words.u64();
        match words.name() {
            "put16" => put_inside(answer, self.mem.put_u16(addr, words.u16())),
            "put32" => put_inside(answer, self.mem.put_u32(addr, words.u32())),
            "put64" => put_inside(answer, self.mem.put_u64(addr, words.u64())),
            "get16" => put_option(answer, self.mem.get_u16(addr).map(u64::from)),
            "get32" => put_option(answer, self.mem.get_u32(addr).map(u64::from)),
            "get64" => put_option(answer, self.mem.get_u64(addr)),
            _ => Err(Stuck::Words),
        }
    }

    // Makes another memory.
    fn replace(&mut self, words: &mut Words<'_>, answer: &mut String) -> Answered {
        self.mem = memory_of(self.alloc, &regions_of(self.alloc, words)?)?;
        put_word(answer, "ok")
    }

    fn holds(&self, words: &mut Words<'_>, answer: &mut String) -> Answered {
        put_flag(answer, self.mem.holds(words.u64(), words.u64()))
    }

    // The bytes of a range, or none.
    fn bytes(&self, words: &mut Words<'_>, answer: &mut String) -> Answered {
        match self.mem.part(words.u64(), words.u64()) {
            Some(bytes) => put_bytes(self.alloc, answer, bytes),
            None => put_word(answer, "none"),
        }
    }

    // Writes bytes through a lent slice.
    fn write(&mut self, words: &mut Words<'_>, answer: &mut String) -> Answered {
        let addr = words.u64();
        let bytes = words.bytes(self.alloc)?;
        let len = bytes.len() as u64;
        if !self.mem.holds(addr, len) {
            return Err(Stuck::Conditions);
        }
        self.mem.part_mut(addr, len).copy_from_slice(&bytes);
        put_word(answer, "ok")
    }

    // Puts a descriptor.
    fn descriptor(&mut self, words: &mut Words<'_>, answer: &mut String) -> Answered {
        let at = words.u64();
        let descriptor = Descriptor::read(words);
        put_inside(answer, put_descriptor(&mut self.mem, at, descriptor))
    }

    // Puts descriptors one behind another.
    fn descriptors(&mut self, words: &mut Words<'_>, answer: &mut String) -> Answered {
        let count = words.u16();
        let step = words.u16();
        let at = words.u64();
        let descriptor = Descriptor::read(words);
        put_inside(
            answer,
            put_descriptors(&mut self.mem, count, step, at, descriptor),
        )
    }

    // Tries to make a memory on the heap that may refuse.
    fn try_new(&self, words: &mut Words<'_>, answer: &mut String) -> Answered {
        match GuestMemory::with_regions(&self.heap, &regions_of(self.alloc, words)?) {
            Ok(_) => put_word(answer, "ok"),
            Err(fault) => put_result(answer, Err(fault)),
        }
    }
}

/// A memory of these regions.
fn memory_of(alloc: Global, regions: &[RegionSpec]) -> Result<GuestMemory, Stuck> {
    match GuestMemory::with_regions(alloc, regions) {
        Ok(mem) => Ok(mem),
        Err(_) => Err(Stuck::Conditions),
    }
}

/// The regions that are left of a call: base and length of each.
pub(crate) fn regions_of(alloc: Global, words: &mut Words<'_>) -> Result<Vec<RegionSpec>, Stuck> {
    let mut regions = Vec::new(alloc);
    for _ in 0..MOST_REGIONS {
        if words.is_done() {
            break;
        }
        let (base, len) = (words.u64(), words.u64());
        regions.push(RegionSpec { base, len })?;
    }
    Ok(regions)
}

/// A descriptor of either kind of queue: its buffer, and two numbers of 16 bits.
#[derive(Clone, Copy)]
pub(crate) struct Descriptor {
    addr: u64,
    len: u32,
    third: u16,
    fourth: u16,
}

impl Descriptor {
    pub(crate) fn read(words: &mut Words<'_>) -> Descriptor {
        Descriptor {
            addr: words.u64(),
            len: words.u32(),
            third: words.u16(),
            fourth: words.u16(),
        }
    }
}

/// Puts the 16 bytes of a descriptor. Answers whether all lie inside.
pub(crate) fn put_descriptor(mem: &mut GuestMemory, at: u64, descriptor: Descriptor) -> bool
    ensures range { SameRange mem.old mem.new }
{
    mem.put_u64(at, descriptor.addr)
        && mem.put_u32(at.wrapping_add(8), descriptor.len)
        && mem.put_u16(at.wrapping_add(12), descriptor.third)
        && mem.put_u16(at.wrapping_add(14), descriptor.fourth)
}

// Puts so many descriptors one behind another, of which each but the first has a last number that is greater by a step.
fn put_descriptors(
    mem: &mut GuestMemory,
    count: u16,
    step: u16,
    mut at: u64,
    mut descriptor: Descriptor,
) -> bool {
    let mut are_put = true;
    for _ in 0..count {
        are_put = put_descriptor(mem, at, descriptor) && are_put;
        descriptor.fourth = descriptor.fourth.wrapping_add(step);
        at = at.wrapping_add(16);
    }
    are_put
}

/// `ok`, or `outside`.
pub(crate) fn put_inside(answer: &mut String, is_inside: bool) -> Answered {
    put_word(answer, if is_inside { "ok" } else { "outside" })
}

impl Subject for Memory {
    fn call(&mut self, words: &mut Words<'_>, answer: &mut String) -> Answered {
        match words.name() {
            "new" => self.try_new(words, answer),
            "refuse_from" => {
                self.heap.refuse_from(words.u64());
                put_word(answer, "ok")
            }
            "refuse_only" => {
                self.heap.refuse_only(words.u64());
                put_word(answer, "ok")
            }
            "requests" => put_number(answer, self.heap.requests()),
            "has_refused" => put_flag(answer, self.heap.has_refused()),
            _ => self.make(words, answer),
        }
    }
}
