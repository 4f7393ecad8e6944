//! The disk, as its host and its driver see it.

ghost use Rattle.std.specs.Prelude.{◌≡◌, get_or, None};
ghost use Rattle.negotiation.specs.Features.{feature_bits};
ghost use Rattle.block_device.specs.Config.{block_features, config_of};
ghost use Rattle.block_device.specs.Tags.{is_any, operation_in, runs_in, taken_bits};

use crate::disk::HostedDisk;
use block_device::{BlockDevice, Operation};
use chain::{Counts, Segment};
use mmio_window::CONFIGURATION_LEN;
use negotiation::Features;
use std::alloc::Allocator;

impl<A: Allocator> HostedDisk<A> {
    /// The block device as its driver knows it.
    pub fn device(&self) -> &BlockDevice
        ensures { result.now ≡ self.now.device }
    {
        &self.device
    }

    /// The features that it offers (5.2.3).
    pub fn features(&self) -> Features
        ensures { feature_bits result ≡ block_features self.now.device.read_only }
    {
        self.device.features()
    }

    /// Its configuration space (5.2.4).
    pub fn config(&self) -> [u8; CONFIGURATION_LEN]
        ensures { result ≡ config_of self.now.device.extent.count }
    {
        self.device.config()
    }

    /// Whether no further chain of its queue is taken.
    pub fn is_on_hold(&self) -> bool
        ensures { result ≡ self.now.on_hold }
    {
        self.on_hold
    }

    /// Whether anything is in flight.
    pub fn is_busy(&self) -> bool
        ensures { result ≡ is_any self.now.tags }
    {
        self.flights.is_busy()
    }

    /// The tags in flight: bit n is set where tag n is taken.
    pub fn taken(&self) -> u64
        ensures { result ≡ taken_bits self.now.tags }
    {
        self.flights.taken()
    }

    /// What the host is asked to do by this tag.
    pub fn operation(&self, tag: u8) -> Option<Operation>
        ensures { result ≡ operation_in (get_or self.now.tags tag None) }
    {
        self.flights.operation(tag as usize)
    }

    /// Where the bytes of this tag's operation lie: no runs where it is free.
    pub fn runs(&self, tag: u8) -> &[Segment]
        ensures { result.now ≡ runs_in (get_or self.now.tags tag None) }
    {
        self.flights.runs(tag as usize)
    }

    /// What the chains that were in flight came to.
    pub fn counts(&self) -> Counts {
        self.flights.counts()
    }
}
