//! `rings`: a virtqueue of either kind over a guest's memory, and the four calls of its services.

use crate::calls::answer::{put_result, put_word, written};
use crate::calls::chains::Chains;
use crate::calls::subject::{Answered, Stuck, Subject};
use crate::calls::words::Words;
use chain::{Chain, Fault, Setup, Used, Virtqueue};
use guest_memory::GuestMemory;
use mmio_window::{Queue, Token};
use packed_ring::PackedRing;
use split_ring::SplitRing;
use std::alloc::Global;

/// A guest's memory, the chain that was taken last, and a queue.
#[derive(Drop)]
pub(crate) struct Rings {
    below: Chains,
    queue: Option<Queue>,
}

/// How a queue is made.
fn read_setup(words: &mut Words<'_>) -> Setup {
    Setup {
        size: words.u32(),
        desc: words.u64(),
        driver: words.u64(),
        device: words.u64(),
        indirect: words.choice("indirect", "-"),
        event_idx: words.choice("event_idx", "-"),
    }
}

impl Rings {
    pub(crate) fn new(alloc: Global) -> Result<Rings, Stuck> {
        Ok(Rings {
            below: Chains::new(alloc)?,
            queue: None,
        })
    }

    // Makes a queue.
    fn set_up(&mut self, words: &mut Words<'_>, answer: &mut String) -> Answered {
        let setup = read_setup(words);
        let mem = &self.below.below.mem;
        self.queue = match words.name() {
            "split" => SplitRing::new(mem, setup).map(Queue::Split),
            _ => PackedRing::new(mem, setup).map(Queue::Packed),
        };
        put_word(answer, if self.queue.is_some() { "ok" } else { "none" })
    }

    // One of the four calls, or a whole service.
    fn serve(&mut self, words: &mut Words<'_>, answer: &mut String) -> Answered {
        let Some(queue) = &mut self.queue else {
            return Err(Stuck::Conditions);
        };
        let mem = &mut self.below.below.mem;
        match words.name() {
            "open" => put_result(answer, open(queue, mem)?),
            "take" => put_taken(answer, take(queue, mem, &mut self.below.chain)?),
            "use" => {
                let bytes = words.bytes(self.below.below.alloc)?;
                let used = Used {
                    len: words.u32(),
                    wrote: words.choice("wrote", "-"),
                };
                put_used(answer, use_next(queue, mem, &bytes, used)?)
            }
            "close" => put_close(answer, close(queue, mem)?),
            _ => put_service(answer, queue, mem, words.u32()),
        }
    }
}

fn open(queue: &mut Queue, mem: &GuestMemory) -> Result<Result<(), Fault>, Stuck> {
    if !queue.lies_in(mem) {
        return Err(Stuck::Conditions);
    }
    Ok(queue.open(mem))
}

fn take(
    queue: &mut Queue,
    mem: &GuestMemory,
    chain: &mut Chain,
) -> Result<Result<Option<Token>, Fault>, Stuck> {
    if !queue.lies_in(mem) {
        return Err(Stuck::Conditions);
    }
    Ok(queue.take(mem, chain))
}

fn close(queue: &mut Queue, mem: &mut GuestMemory) -> Result<bool, Stuck> {
    if !queue.lies_in(mem) {
        return Err(Stuck::Conditions);
    }
    Ok(queue.close(mem))
}

/// Serves the next chain, if one is on offer, as a device that writes these bytes from its first writable one on.
/// Answers whether there was one.
fn use_next(
    queue: &mut Queue,
    mem: &mut GuestMemory,
    bytes: &[u8],
    used: Used,
) -> Result<Result<bool, Fault>, Stuck> {
    let mut chain = Chain::new();
    if !queue.lies_in(mem) {
        return Err(Stuck::Conditions);
    }
    let token = match queue.take(mem, &mut chain) {
        Ok(Some(token)) => token,
        Ok(None) => return Ok(Ok(false)),
        Err(fault) => return Ok(Err(fault)),
    };
    if bytes.len() as u64 > chain.writable_len() {
        return Err(Stuck::Conditions);
    }
    chain.write_at(mem, 0, bytes);
    if !queue.lies_in(mem) {
        return Err(Stuck::Conditions);
    }
    queue.give(mem, token, used);
    Ok(Ok(true))
}

/// A service of all that is on offer, as by a device that says of each chain that it wrote `len` bytes: the fault that
/// it meets, and whether a notification is wanted.
fn put_service(
    answer: &mut String,
    queue: &mut Queue,
    mem: &mut GuestMemory,
    len: u32,
) -> Answered {
    let used = Used {
        len,
        wrote: len > 0,
    };
    let mut met = open(queue, mem)?;
    for _ in 0..=256 {
        match use_next(queue, mem, &[], used)? {
            Ok(true) => {}
            Ok(false) => break,
            Err(fault) => met = Err(fault),
        }
    }
    put_result(answer, met)?;
    put_word(answer, " ")?;
    put_close(answer, close(queue, mem)?)
}

fn put_close(answer: &mut String, wanted: bool) -> Answered {
    put_word(answer, if wanted { "wanted" } else { "unwanted" })
}

fn put_used(answer: &mut String, used: Result<bool, Fault>) -> Answered {
    match used {
        Ok(true) => put_word(answer, "used"),
        Ok(false) => put_word(answer, "none"),
        Err(fault) => put_result(answer, Err(fault)),
    }
}

fn put_taken(answer: &mut String, taken: Result<Option<Token>, Fault>) -> Answered {
    match taken {
        Ok(Some(token)) => put_token(answer, token),
        Ok(None) => put_word(answer, "none"),
        Err(fault) => put_result(answer, Err(fault)),
    }
}

/// The place, and of a split ring the head, of a packed one the buffer id and the number of descriptors.
fn put_token(answer: &mut String, token: Token) -> Answered {
    match token {
        Token::Split(split_ring::Token { place, head }) => {
            written(write!(answer, "place {place:x} head {head:x}"))
        }
        Token::Packed(packed_ring::Token { place, id, length }) => {
            written(write!(answer, "place {place:x} id {id:x} length {length:x}"))
        }
    }
}

impl Subject for Rings {
    fn call(&mut self, words: &mut Words<'_>, answer: &mut String) -> Answered {
        match words.name() {
            "split" | "packed" => self.set_up(words, answer),
            "open" | "take" | "use" | "close" | "service" => self.serve(words, answer),
            _ => self.below.make(words, answer),
        }
    }
}
