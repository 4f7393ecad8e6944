//! The device status: a set of named bits.

ghost use Rattle.std.specs.Prelude.{⊤};
ghost use Rattle.negotiation.specs.Status.{status_bits, status_names};

use bitflags::{Flag, Flags, bitflag_items};

/// The device status (2.1), as the register Status shows it.
///
/// Contracts see its bits as `status_bits`. The methods of [`Flags`], such as `union`, have contracts; the operators
/// have none.
#[derive(Clone, Copy, PartialEq, Eq, Debug)]
pub struct Status(u8);

bitflag_items! {
    impl Status: u8 {
        /// The driver has noticed the device.
        const ACKNOWLEDGE = 1;
        /// The driver knows how to drive the device.
        const DRIVER = 2;
        /// The driver is set up and ready to drive the device.
        const DRIVER_OK = 4;
        /// Negotiation is complete.
        const FEATURES_OK = 8;
        /// The device met an error from which it can't recover.
        const DEVICE_NEEDS_RESET = 64;
        /// The driver has given up on the device.
        const FAILED = 128;
    }
}

impl Status {
    // The two bits that have no name.
    pub(crate) const UNNAMED: Status = Status(48);
}

impl Flags for Status {
    type Bits = u8;

    ghost exact = { ⊤ };

    ghost table = { status_names };

    ghost set_of = { status_bits };

    fn flags<'a>() -> &'a [Flag<Status>] {
        Status::FLAGS
    }

    fn bits(&self) -> u8 {
        self.0
    }

    fn from_bits_retain(bits: u8) -> Status {
        Status(bits)
    }
}
