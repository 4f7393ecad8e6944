//! The state machine of status and features: what a window's registers DeviceFeatures, DriverFeatures and
//! Status read and write.

ghost use Rattle.std.specs.Prelude.{◌≡◌, ◌==◌, Some};
ghost use Rattle.std.specs.Int.RustNames.{bit_and};
ghost use Rattle.negotiation.specs.Features.{feature_bits};
ghost use Rattle.negotiation.specs.Negotiation.{fresh, is_acceptable, is_live, negotiated_of, settable_of, standing, state_of, with_features_written, with_needs_reset, with_status_written};
ghost use Rattle.negotiation.specs.Sets.{Has};
ghost use Rattle.negotiation.specs.Status.{status_bits};

use crate::features::Features;
use crate::status::Status;
use bitflags::Flags;
use std::marker::Model;

/// What one device window and its driver have settled (2.1, 2.2, 3.1.1).
#[derive(Drop, Debug)]
pub struct Negotiation {
    status: Status,
    offered: Features,
    accepted: Features,
}

impl Model for Negotiation {
    ghost use Rattle.negotiation.specs.Negotiation.{NegotiationState, IsSettled, state_of};

    ghost Value = { NegotiationState };

    ghost view = { λ n. state_of n.status n.offered n.accepted };

    ghost invariant = { λ n. IsSettled (state_of n.status n.offered n.accepted) };
}

impl Negotiation {
    /// A window after reset, whose device offers these features.
    pub fn new(offered: Features) -> Negotiation
        ensures { result ≡ fresh (feature_bits offered) }
    {
        Negotiation {
            status: Status::empty(),
            offered,
            accepted: Features::empty(),
        }
    }

    /// Status and features as they stand, if they may: each bit of the status has a name, and FEATURES_OK is set only
    /// for features that are all offered and have VERSION_1.
    pub fn standing(status: Status, offered: Features, accepted: Features) -> Option<Negotiation>
        ensures { result ≡ standing (state_of status offered accepted) }
    {
        let acceptable = offered.contains(accepted) && accepted.contains(Features::VERSION_1);
        if status.intersects(Status::UNNAMED) {
            return None;
        }
        if status.contains(Status::FEATURES_OK) && !acceptable {
            return None;
        }
        Some(Negotiation {
            status,
            offered,
            accepted,
        })
    }

    /// The features that the device offers.
    pub fn offered(&self) -> Features
        ensures { feature_bits result ≡ self.now.offered }
    {
        self.offered
    }

    /// The features that the driver accepts, also those that it has written and not yet settled.
    pub fn accepted(&self) -> Features
        ensures value { feature_bits result ≡ self.now.accepted }
        ensures stands { standing self.now ≡ Some self.now }
    {
        self.accepted
    }

    /// The features that both sides go by: those accepted once FEATURES_OK is set, and none before.
    pub fn negotiated(&self) -> Features
        ensures value { feature_bits result ≡ negotiated_of self.now }
        ensures offered { Has self.now.offered (feature_bits result) }
    {
        if self.status.contains(Status::FEATURES_OK) {
            self.accepted
        } else {
            Features::empty()
        }
    }

    /// The device status.
    pub fn status(&self) -> Status
        ensures { status_bits result ≡ self.now.status }
    {
        self.status
    }

    /// Whether the device may consume buffers: the driver is ready, the features are settled, and neither
    /// side gave up.
    pub fn live(&self) -> bool
        ensures { result ≡ is_live self.now }
    {
        self.status.contains(Status::DRIVER_OK)
            && self.status.contains(Status::FEATURES_OK)
            && !self.status.intersects(Status::FAILED)
            && !self.status.intersects(Status::DEVICE_NEEDS_RESET)
    }

    /// A write of `word` to DriverFeatures where DriverFeaturesSel is `selector`. It is ignored once
    /// FEATURES_OK is set, and for a selector of 2 and up.
    pub fn write_features(&mut self, selector: u32, word: u32)
        ensures { self.new ≡ with_features_written selector word self.old }
    {
        if !self.status.contains(Status::FEATURES_OK) {
            self.accepted.set_word(selector, word);
        }
    }

    /// A write to Status, and whether it was a reset, which is a write of 0. Any other value sets the driver's bits that
    /// it has, FEATURES_OK only where the accepted features are all offered and have VERSION_1. Its other bits are
    /// ignored.
    pub fn write_status(&mut self, value: u32) -> bool
        ensures reset { result ≡ (value == 0) }
        ensures written { self.new ≡ with_status_written value self.old }
    {
        if value == 0 {
            self.reset();
            return true;
        }
        let written = self.settable_bits(value);
        self.status.insert(written);
        false
    }

    /// The device asks for a reset.
    pub fn set_needs_reset(&mut self)
        ensures { self.new ≡ with_needs_reset self.old }
    {
        self.status.insert(Status::DEVICE_NEEDS_RESET);
    }

    /// Clears the status and the accepted features. The device goes on offering what it did.
    pub fn reset(&mut self)
        ensures { self.new ≡ fresh self.old.offered }
    {
        self.status = Status::empty();
        self.accepted = Features::empty();
    }

    // Whether the device can work with the features that the driver accepts.
    fn is_acceptable(&self) -> bool
        ensures { result ≡ is_acceptable self.now }
    {
        self.offered.contains(self.accepted) && self.accepted.contains(Features::VERSION_1)
    }

    // The bits of a value that a write of it to Status may set.
    #[tactic(auto, using(crate::proofs::StatusLemmas::low_bits))]
    fn settable_bits(&self, value: u32) -> Status
        ensures { status_bits result ≡ bit_and value (settable_of self.now) }
    {
        let settable = Status::ACKNOWLEDGE
            .union(Status::DRIVER)
            .union(Status::DRIVER_OK)
            .union(Status::FAILED);
        let low = Status::from_bits_retain((value & 0xff) as u8);
        if self.is_acceptable() {
            low.intersection(settable.union(Status::FEATURES_OK))
        } else {
            low.intersection(settable)
        }
    }
}
