//! A queue as somebody sees it who doesn't serve it.

ghost use Rattle.std.specs.Prelude.{◌≡◌, ◌↔◌, IsTrue};
ghost use Rattle.mmio_window.specs.Queue.{LiesIn};

use crate::queue::Queue;
use guest_memory::Ranged;

impl Queue {
    /// The queue once more. What a service would take can be asked of the copy.
    pub fn copied(&self) -> Queue
        ensures { result ≡ self.now }
    {
        match self {
            Queue::Split(ring) => Queue::Split(ring.copied()),
            Queue::Packed(ring) => Queue::Packed(ring.copied()),
        }
    }

    /// Whether its areas lie in this memory, as each call of a service wants.
    pub fn lies_in<M: Ranged>(&self, mem: &M) -> bool
        ensures { IsTrue result ↔ LiesIn (M.ranged mem.now) self.now }
    {
        match self {
            Queue::Split(ring) => ring.lies_in(mem),
            Queue::Packed(ring) => ring.lies_in(mem),
        }
    }
}
