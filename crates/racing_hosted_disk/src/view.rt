//! The disk, as its host and its driver see it.

ghost use Rattle.std.specs.Prelude.{◌≡◌, get_or, None};
ghost use Rattle.block_device.specs.Tags.{is_any, operation_in, runs_in, taken_bits};

use crate::disk::RacingHostedDisk;
use block_device::{BlockDevice, Operation};
use chain::Segment;
use std::alloc::Allocator;

impl<T: Drop, A: Allocator> RacingHostedDisk<T, A> {
    /// The block device as its driver knows it.
    pub fn device(&self) -> &BlockDevice
        ensures { result.now ≡ self.now.device }
    {
        &self.disk.device
    }

    /// Whether no further chain of its queue is taken.
    pub fn is_on_hold(&self) -> bool
        ensures { result ≡ self.now.on_hold }
    {
        self.on_hold
    }

    /// Whether anything is in flight.
    pub fn is_busy(&self) -> bool
        ensures { result ≡ is_any self.now.tags }
    {
        self.tags.is_busy()
    }

    /// The tags in flight: bit n is set where tag n is taken.
    pub fn taken(&self) -> u64
        ensures { result ≡ taken_bits self.now.tags }
    {
        self.tags.taken()
    }

    /// What the host is asked to do by this tag.
    pub fn operation(&self, tag: u8) -> Option<Operation>
        ensures { result ≡ operation_in (get_or self.now.tags tag None) }
    {
        self.tags.operation(tag as usize)
    }

    /// Where the bytes of this tag's operation lie: no runs where it is free.
    pub fn runs(&self, tag: u8) -> &[Segment]
        ensures { result.now ≡ runs_in (get_or self.now.tags tag None) }
    {
        self.tags.runs(tag as usize)
    }
}
