//! Which piece of a service is served.

ghost use Rattle.std.specs.Prelude.{◌≡◌};
ghost use Rattle.std.specs.Result.{result_err};
ghost use Rattle.mmio_window.specs.Pieces.{fault_at, opened_at};
ghost use Rattle.mmio_window.specs.Queue.{LiesIn, made_as};

use crate::queue::Queue;
use chain::{Fault, Virtqueue};
use guest_memory::GuestMemory;
use std::alloc::Allocator;

/// Which piece of a service is served.
#[derive(Clone, Copy, Debug, PartialEq, Eq)]
pub enum Stage {
    /// The first one, which opens the queue.
    First,
    /// One behind a pause, in which the queue stands open.
    Next,
}

impl Stage {
    /// Opens the queue, where this is the first piece.
    #[inline(always)]
    pub fn open<A: Allocator>(self, queue: &mut Queue, mem: &GuestMemory<A>) -> Result<(), Fault>
        requires { LiesIn mem.now queue.old }
        ensures fault { result_err result ≡ fault_at self mem.now queue.old }
        ensures opened { queue.new ≡ opened_at self mem.now queue.old }
        ensures lies { LiesIn mem.now queue.new }
        ensures made { made_as queue.new ≡ made_as queue.old }
    {
        match self {
            Stage::First => queue.open(mem),
            Stage::Next => Ok(()),
        }
    }
}
