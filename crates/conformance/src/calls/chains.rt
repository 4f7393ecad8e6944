//! `chains`: a chain over a guest's memory, and indirect tables.

ghost use Rattle.std.specs.Prelude.{IfOk};
ghost use Rattle.chain.specs.Buffers.{Good};

use crate::calls::answer::{put_bytes, put_number, put_result, put_word, written};
use crate::calls::memory::Memory;
use crate::calls::subject::{Answered, Stuck, Subject};
use crate::calls::words::Words;
use chain::{Buffer, Chain, Fault, Segment};
use guest_memory::GuestMemory;
use indirect::{append_packed, append_split};
use std::alloc::Global;

/// A guest's memory, and a chain.
#[derive(Drop)]
pub(crate) struct Chains {
    pub(crate) below: Memory,
    pub(crate) chain: Chain,
}

impl Chains {
    pub(crate) fn new(alloc: Global) -> Result<Chains, Stuck> {
        Ok(Chains {
            below: Memory::new(alloc)?,
            chain: Chain::new(),
        })
    }

    /// The calls of any subject that has a chain.
    pub(crate) fn make(&mut self, words: &mut Words<'_>, answer: &mut String) -> Answered {
        match words.name() {
            "push" => self.push(words, answer),
            "clear" => {
                self.chain.clear();
                put_word(answer, "ok")
            }
            "lengths" => self.lengths(answer),
            "buffers" => put_buffers(answer, self.chain.buffers()),
            "split_table" | "packed_table" => self.append(words, answer),
            _ => self.reach(words, answer),
        }
    }

    // Pushes the same buffer so many times, until one is refused.
    fn push(&mut self, words: &mut Words<'_>, answer: &mut String) -> Answered {
        let count = words.u16();
        let addr = words.u64();
        let len = words.u32();
        let writable = words.choice("w", "r");
        let segment = Segment { addr, len };
        let buffer = Buffer { segment, writable };
        put_result(
            answer,
            push_some(&mut self.chain, &self.below.mem, count, buffer),
        )
    }

    // How many buffers there are, and how many bytes that may be read and that may be written.
    fn lengths(&self, answer: &mut String) -> Answered {
        let count = self.chain.buffers().len();
        let (readable, writable) = (self.chain.readable_len(), self.chain.writable_len());
        written(write!(answer, "{count:x} {readable:x} {writable:x}"))
    }

    // Appends the buffers of an indirect table.
    fn append(&mut self, words: &mut Words<'_>, answer: &mut String) -> Answered {
        let addr = words.u64();
        let len = words.u32();
        let mem = &self.below.mem;
        let appended = match words.name() {
            "split_table" => append_split(mem, addr, len, &mut self.chain),
            _ => append_packed(mem, addr, len, &mut self.chain),
        };
        put_result(answer, appended)
    }

    // The calls that reach the chain's bytes by their places.
    fn reach(&mut self, words: &mut Words<'_>, answer: &mut String) -> Answered {
        match words.name() {
            "rest" => self.rest(words.u64(), answer),
            "part" => self.part(words.u64(), words.u64(), words.u8(), answer),
            "read" => self.read(words.u64(), words.u16(), answer),
            "write_at" => self.write_at(words, answer),
            _ => self.below.make(words, answer),
        }
    }

    // The readable bytes from a place to the end of its segment.
    fn rest(&self, from: u64, answer: &mut String) -> Answered {
        let mem = &self.below.mem;
        let chain = good_chain(mem, self.chain.buffers())?;
        if from >= chain.readable_len() {
            return Err(Stuck::Conditions);
        }
        put_bytes(self.below.alloc, answer, chain.read_part(mem, from))
    }

    // Fills what is lent from a writable place on, and answers how long it is.
    fn part(&mut self, from: u64, most: u64, byte: u8, answer: &mut String) -> Answered {
        let mem = &mut self.below.mem;
        let chain = good_chain(mem, self.chain.buffers())?;
        if from >= chain.writable_len() || most == 0 {
            return Err(Stuck::Conditions);
        }
        let part = chain.write_part(mem, from, most);
        part.fill(byte);
        put_number(answer, part.len() as u64)
    }

    // So many readable bytes from a place on.
    fn read(&self, from: u64, count: u16, answer: &mut String) -> Answered {
        let mem = &self.below.mem;
        let chain = good_chain(mem, self.chain.buffers())?;
        let mut bytes = vec![in self.below.alloc; 0; usize::from(count)]?;
        let len = chain.readable_len();
        if from > len || u64::from(count) > len - from {
            return Err(Stuck::Conditions);
        }
        chain.read_at(mem, from, &mut bytes);
        put_bytes(self.below.alloc, answer, &bytes)
    }

    // Writes bytes from a writable place on.
    fn write_at(&mut self, words: &mut Words<'_>, answer: &mut String) -> Answered {
        let from = words.u64();
        let bytes = words.bytes(self.below.alloc)?;
        let mem = &mut self.below.mem;
        let chain = good_chain(mem, self.chain.buffers())?;
        let len = chain.writable_len();
        if from > len || bytes.len() as u64 > len - from {
            return Err(Stuck::Conditions);
        }
        chain.write_at(mem, from, &bytes);
        put_word(answer, "ok")
    }
}

/// A chain of these buffers, where all lie in the memory.
pub(crate) fn good_chain(mem: &GuestMemory, buffers: &[Buffer]) -> Result<Chain, Stuck>
    ensures { IfOk result (Good mem.now) }
{
    let mut chain = Chain::new();
    for buffer in buffers {
        let segment = buffer.segment;
        match chain.push(mem, segment.addr, segment.len, buffer.writable) {
            Ok(()) => {}
            Err(_) => return Err(Stuck::Conditions),
        }
    }
    Ok(chain)
}

// Pushes the same buffer so many times, until one is refused.
fn push_some(
    chain: &mut Chain,
    mem: &GuestMemory,
    count: u16,
    buffer: Buffer,
) -> Result<(), Fault> {
    let Segment { addr, len } = buffer.segment;
    for _ in 0..count {
        chain.push(mem, addr, len, buffer.writable)?;
    }
    Ok(())
}

/// Buffers one after another: the address, the length, and whether a device reads or writes them.
fn put_buffers(answer: &mut String, buffers: &[Buffer]) -> Answered {
    for buffer in buffers {
        put_buffer(answer, *buffer)?;
    }
    put_word(answer, if buffers.is_empty() { "-" } else { "" })
}

fn put_buffer(answer: &mut String, buffer: Buffer) -> Answered {
    let Segment { addr, len } = buffer.segment;
    let space = if answer.is_empty() { "" } else { " " };
    let end = if buffer.writable { "w" } else { "r" };
    written(write!(answer, "{space}{addr:x}+{len:x}{end}"))
}

impl Subject for Chains {
    fn call(&mut self, words: &mut Words<'_>, answer: &mut String) -> Answered {
        self.make(words, answer)
    }
}
