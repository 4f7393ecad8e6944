//! What waits in a device, as it is saved and taken up again.

ghost use Rattle.std.specs.Prelude.{◌≡◌, ◌^◌, ◌≤◌, ◌++◌, ℕ, List, Some, length};
ghost use Rattle.device_list.specs.Model.{ModelState};
ghost use Rattle.device_list.specs.Waiting.{AreOfOneType, Reads, ReadsPast, refilled, waiting_in, with_waiting_of};

use crate::device::VirtioDevice;
use crate::waiting::Reader;
use std::alloc::Allocator;

impl<A: Allocator> VirtioDevice<A> {
    /// In how many bytes what waits is saved.
    pub(crate) fn waiting_len(&self) -> usize
        ensures len { result ≡ length (waiting_in self.now.model) }
        ensures most { result ≤ 2 ^ 18 }
    {
        self.model.waiting_len()
    }

    /// Writes that into a buffer of that length.
    pub(crate) fn write_waiting(&self, into: &mut [u8])
        requires len { length into.old ≡ length (waiting_in self.now.model) }
        ensures text { into.new ≡ waiting_in self.now.model }
        ensures back { (other : ModelState) (rest : List ℕ) → AreOfOneType self.now.model other →
            refilled other (waiting_in self.now.model ++ rest) ≡ Some (with_waiting_of self.now.model other, rest) }
    {
        self.model.write_waiting(into);
    }

    /// Reads past what waits. There is no answer where the bytes can't be so.
    pub(crate) fn read_past(&self, left: &mut Reader<'_>) -> Option<()>
        ensures { ReadsPast (refilled self.now.model) left.old.left.now result left.new.left.now }
    {
        self.model.read_past(left)
    }

    /// Has what these bytes say wait, in the place of all that does. There is no answer where the bytes can't be so.
    pub(crate) fn refill(&mut self, left: &mut Reader<'_>) -> Option<()>
        ensures refilled { Reads (refilled self.old.model) (λ x. self.new.model) left.old.left.now result left.new.left.now }
        ensures window { self.new.window ≡ self.old.window }
    {
        self.model.refill(left)
    }
}
