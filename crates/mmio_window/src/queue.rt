//! A queue that is ready: a ring of one kind or the other, and the calls of a service by cases.

ghost use Rattle.mmio_window.specs.Queue.{IsAhead, IsTaken, LiesIn, entry_of, left_of, made_as, queue_kind};

mod reached;
mod view;

use chain::{Chain, Fault, Used, Virtqueue};
use guest_memory::GuestMemory;
use packed_ring::PackedRing;
use split_ring::SplitRing;
use std::alloc::Allocator;

/// A ready queue (2.6): its ring.
#[derive(Drop)]
pub enum Queue {
    /// A split ring (2.7).
    Split(SplitRing),
    /// A packed ring (2.8).
    Packed(PackedRing),
}

/// A chain that was taken and not yet given back.
#[derive(Debug, PartialEq, Eq, Drop)]
pub enum Token {
    /// One of a split ring.
    Split(split_ring::Token),
    /// One of a packed ring.
    Packed(packed_ring::Token),
}

impl Virtqueue for Queue {
    type Token = Token;

    ghost kind = { queue_kind };

    ghost LiesIn = { LiesIn };

    ghost entry_of = { entry_of };

    ghost IsTaken = { IsTaken };

    ghost IsAhead = { IsAhead };

    ghost left_of = { left_of };

    ghost made_as = { made_as };

    fn open<A: Allocator>(&mut self, mem: &GuestMemory<A>) -> Result<(), Fault> {
        match self {
            Queue::Split(ring) => ring.open(mem),
            Queue::Packed(ring) => ring.open(mem),
        }
    }

    #[inline(always)]
    fn take<A: Allocator>(
        &mut self,
        mem: &GuestMemory<A>,
        chain: &mut Chain,
    ) -> Result<Option<Token>, Fault> {
        match self {
            Queue::Split(ring) => match ring.take(mem, chain) {
                Ok(Some(token)) => Ok(Some(Token::Split(token))),
                Ok(None) => Ok(None),
                Err(fault) => Err(fault),
            },
            Queue::Packed(ring) => match ring.take(mem, chain) {
                Ok(Some(token)) => Ok(Some(Token::Packed(token))),
                Ok(None) => Ok(None),
                Err(fault) => Err(fault),
            },
        }
    }

    #[inline(always)]
    fn give<A: Allocator>(&mut self, mem: &mut GuestMemory<A>, token: Token, used: Used) {
        match (self, token) {
            (Queue::Split(ring), Token::Split(token)) => ring.give(mem, token, used),
            (Queue::Packed(ring), Token::Packed(token)) => ring.give(mem, token, used),
            _ => unreachable!(),
        }
    }

    fn launch(&mut self, token: &Token) {
        match (self, token) {
            (Queue::Split(ring), Token::Split(token)) => ring.launch(token),
            (Queue::Packed(ring), Token::Packed(token)) => ring.launch(token),
            _ => unreachable!(),
        }
    }

    #[inline(always)]
    fn land<A: Allocator>(&mut self, mem: &mut GuestMemory<A>, token: Token, used: Used) {
        match (self, token) {
            (Queue::Split(ring), Token::Split(token)) => ring.land(mem, token, used),
            (Queue::Packed(ring), Token::Packed(token)) => ring.land(mem, token, used),
            _ => unreachable!(),
        }
    }

    fn close<A: Allocator>(&mut self, mem: &mut GuestMemory<A>) -> bool {
        match self {
            Queue::Split(ring) => ring.close(mem),
            Queue::Packed(ring) => ring.close(mem),
        }
    }
}
