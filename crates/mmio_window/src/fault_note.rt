//! What is noted of a fault: why a window asks for a reset, and where in its queue the fault was met.

ghost use Rattle.std.specs.Prelude.{◌≡◌};
ghost use Rattle.mmio_window.specs.FaultNote.{head_at, met_at, place_met};
ghost use Rattle.mmio_window.specs.Queue.{LiesIn};

use crate::queue::Queue;
use chain::Fault;
use guest_memory::GuestMemory;
use std::alloc::Allocator;

/// A fault that ended a service, and the chain on offer at which it was met.
#[derive(Clone, Copy, Debug, PartialEq, Eq)]
pub struct QueueFault {
    pub fault: Fault,
    /// The place of that chain, behind those in flight. A split ring's counts on from 0 to 65535, as its available idx
    /// does, and the chain's entry is `place` modulo the queue's size. A packed ring's goes from 0 to twice the queue's size:
    /// in its second half the wrap counter is 0, and the position is the size less.
    pub place: u16,
    /// The index of the chain's first descriptor in the descriptor area: in a split ring the head, as the available ring
    /// names it, which may lie outside the table; in a packed ring the position at which its list begins. None of a
    /// `Jump`, which is met before a head is read.
    pub head: Option<u16>,
}

/// The last fault of a window, and the queue and chain that it was met in.
#[derive(Clone, Copy, Debug, PartialEq, Eq)]
pub struct FaultNote {
    pub fault: Fault,
    /// The number of the queue, as a notification names it.
    pub queue: u16,
    /// The index of the chain's first descriptor; see [`QueueFault`].
    pub head: Option<u16>,
    /// The place of the chain; see [`QueueFault`].
    pub place: u16,
}

impl FaultNote {
    /// The note of a fault of the queue of this number.
    pub(crate) fn of(queue: u16, met: QueueFault) -> FaultNote
        ensures { result ≡ record { fault = met.fault; queue = queue; head = met.head; place = met.place } }
    {
        FaultNote {
            fault: met.fault,
            queue,
            head: met.head,
            place: met.place,
        }
    }
}

impl Queue {
    /// A fault of the chain on offer, and where that is.
    #[cold]
    pub(crate) fn met<A: Allocator>(&self, mem: &GuestMemory<A>, fault: Fault) -> QueueFault
        requires { LiesIn mem.now self.now }
        ensures { result ≡ met_at mem.now self.now fault }
    {
        QueueFault {
            fault,
            place: self.next_taken(),
            head: match fault {
                Fault::Jump => None,
                _ => Some(self.head(mem)),
            },
        }
    }

    /// The place of the chain on offer, behind those in flight.
    pub fn next_taken(&self) -> u16
        ensures { result ≡ place_met self.now }
    {
        match self {
            Queue::Split(ring) => ring.next_taken(),
            Queue::Packed(ring) => ring.next_taken(),
        }
    }

    // The index of the first descriptor of the chain on offer.
    fn head<A: Allocator>(&self, mem: &GuestMemory<A>) -> u16
        requires { LiesIn mem.now self.now }
        ensures { result ≡ head_at mem.now self.now }
    {
        match self {
            Queue::Split(ring) => ring.head(mem),
            Queue::Packed(ring) => ring.position(),
        }
    }
}
