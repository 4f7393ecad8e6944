//! What the host says of a disk whose queue can't be served.

ghost use Rattle.std.specs.Prelude.{◌≡◌, None, get_or, is_some, set};
ghost use Rattle.std.specs.Bool.{OnFalse, OnTrue};
ghost use Rattle.racing_hosted_disk.specs.Told.{has_effect, told_unserved};

use crate::disk::RacingHostedDisk;
use block_device::HostEvent;
use std::alloc::Allocator;

impl<T: Drop, A: Allocator> RacingHostedDisk<T, A> {
    /// Does what the host says while the queue can't be served, as that of a device that asks to be reset (2.1.2): a
    /// completion only frees its tag, and nothing is written. False where there is nothing to do: nothing has changed then.
    pub fn tell_unserved(&mut self, said: HostEvent) -> bool
        ensures found { result ≡ has_effect said self.old }
        ensures does { OnTrue result (self.new ≡ told_unserved said self.old) }
        ensures kept { OnFalse result (self.new ≡ self.old) }
    {
        match said {
            HostEvent::Complete { tag, .. } => self.forget(tag),
            HostEvent::Drop => self.give_up().is_some(),
            HostEvent::Hold => self.hold().is_some(),
            HostEvent::Release => {
                let held = self.on_hold;
                self.on_hold = false;
                held
            }
        }
    }

    // Frees this tag. False where it is free.
    fn forget(&mut self, tag: u8) -> bool
        ensures found { result ≡ is_some (get_or self.old.tags tag None) }
        ensures frees { self.new ≡ record self.old { tags = set self.old.tags tag None } }
        ensures kept { OnFalse result (self.new ≡ self.old) }
    {
        self.tags.take(tag as usize).is_some()
    }
}
