//! A ready queue as a racing ring, and the calls of a service by cases.

ghost use Rattle.std.specs.Prelude.{◌≡◌};

use chain::{Chain, Fault, Used};
use mmio_window::{Queue, Token};
use packed_ring::PackedRing;
use racing_ring::{RacingPackedRing, RacingSplitRing, Room};
use racing_service::RacingQueue;
use shared_memory::Shared;
use split_ring::SplitRing;
use std::marker::Model;

/// The ring of a ready queue, whose guest may write its memory during each call.
#[derive(Drop)]
pub struct RacingRing {
    layout: Layout,
}

/// Its layout.
#[derive(Drop)]
enum Layout {
    /// Split (2.7).
    Split(RacingSplitRing),
    /// Packed (2.8).
    Packed(RacingPackedRing),
}

impl Model for RacingRing {
    ghost use Rattle.mmio_window.specs.declared.queue.Queue.{Queue};
    ghost use Rattle.racing_window.specs.Layout.{queue_of};

    ghost Value = { Queue };

    ghost view = { λ r. queue_of r.layout };
}

impl RacingRing {
    /// The ring of this queue, as far as that is served.
    pub fn of(queue: &Queue) -> RacingRing
        ensures { result ≡ queue.now }
    {
        match queue {
            Queue::Split(ring) => RacingRing {
                layout: Layout::Split(RacingSplitRing::of(ring.state())),
            },
            Queue::Packed(ring) => RacingRing {
                layout: Layout::Packed(RacingPackedRing::of(ring.state())),
            },
        }
    }

    /// The queue again, as far as its ring is served now.
    pub fn queue(&self) -> Queue
        ensures { result ≡ self.now }
    {
        match &self.layout {
            Layout::Split(ring) => Queue::Split(SplitRing::of(ring.state())),
            Layout::Packed(ring) => Queue::Packed(PackedRing::of(ring.state())),
        }
    }
}

impl RacingQueue for RacingRing {
    ghost use Rattle.mmio_window.specs.Queue.{IsAhead, IsTaken, LiesIn, entry_of, left_of};
    ghost use Rattle.racing_window.specs.Queue.{racing_queue};
    ghost use Rattle.racing_window.specs.Lying.{queue_lies};

    type Token = Token;

    ghost kind = { racing_queue };

    ghost LiesIn = { LiesIn };

    ghost entry_of = { entry_of };

    ghost IsTaken = { IsTaken };

    ghost IsAhead = { IsAhead };

    ghost left_of = { left_of };

    fn open<M: Shared>(&mut self, mem: &mut M) -> Result<(), Fault> {
        match &mut self.layout {
            Layout::Split(ring) => RacingQueue::open(ring, mem),
            Layout::Packed(ring) => RacingQueue::open(ring, mem),
        }
    }

    #[inline(always)]
    fn take<M: Shared>(
        &mut self,
        mem: &mut M,
        chain: &mut Chain,
        room: &mut Room,
    ) -> Result<Option<Token>, Fault> {
        match &mut self.layout {
            Layout::Split(ring) => match RacingQueue::take(ring, mem, chain, room) {
                Ok(Some(token)) => Ok(Some(Token::Split(token))),
                Ok(None) => Ok(None),
                Err(fault) => Err(fault),
            },
            Layout::Packed(ring) => match RacingQueue::take(ring, mem, chain, room) {
                Ok(Some(token)) => Ok(Some(Token::Packed(token))),
                Ok(None) => Ok(None),
                Err(fault) => Err(fault),
            },
        }
    }

    fn give<M: Shared>(&mut self, mem: &mut M, token: Token, used: Used) {
        match (&mut self.layout, token) {
            (Layout::Split(ring), Token::Split(token)) => RacingQueue::give(ring, mem, token, used),
            (Layout::Packed(ring), Token::Packed(token)) => {
                RacingQueue::give(ring, mem, token, used);
            }
            _ => unreachable!(),
        }
    }

    fn launch(&mut self, token: &Token) {
        match (&mut self.layout, token) {
            (Layout::Split(ring), Token::Split(token)) => RacingQueue::launch(ring, token),
            (Layout::Packed(ring), Token::Packed(token)) => RacingQueue::launch(ring, token),
            _ => unreachable!(),
        }
    }

    fn land<M: Shared>(&mut self, mem: &mut M, token: Token, used: Used) {
        match (&mut self.layout, token) {
            (Layout::Split(ring), Token::Split(token)) => RacingQueue::land(ring, mem, token, used),
            (Layout::Packed(ring), Token::Packed(token)) => {
                RacingQueue::land(ring, mem, token, used);
            }
            _ => unreachable!(),
        }
    }

    #[inline(always)]
    fn close<M: Shared>(&mut self, mem: &mut M) -> bool {
        match &mut self.layout {
            Layout::Split(ring) => RacingQueue::close(ring, mem),
            Layout::Packed(ring) => RacingQueue::close(ring, mem),
        }
    }

    fn shut(&mut self) {
        match &mut self.layout {
            Layout::Split(ring) => RacingQueue::shut(ring),
            Layout::Packed(ring) => RacingQueue::shut(ring),
        }
    }

    ghost lies_in_range = { queue_lies };
}
