//! Feature bits: a set of named bits, shown and taken in words of 32.

ghost use Rattle.std.specs.Prelude.{⊤, ◌≡◌};
ghost use Rattle.negotiation.specs.Features.{device_features, feature_bits, feature_names, feature_word, with_feature_word};

use bitflags::{Flag, Flags, bitflag_items};

/// A set of features (2.2), named or not: a driver may write any bits.
///
/// A bit of one device type carries the type's name: another type gives the same bit another meaning. Contracts see
/// the bits as `feature_bits`. The methods of [`Flags`], such as `union`, have contracts; the operators have none.
#[derive(Clone, Copy, PartialEq, Eq, Debug)]
pub struct Features(u64);

bitflag_items! {
    impl Features: u64 {
        /// The network device's configuration has the largest payload of a frame (5.1.3).
        const NETWORK_MTU = 1 << 3;
        /// The network device's configuration has its address (5.1.3).
        const NETWORK_MAC = 1 << 5;
        /// The network device's configuration tells whether the link is up (5.1.3).
        const NETWORK_STATUS = 1 << 16;
        /// The block device tells the most buffers that a request may have (5.2.3).
        const BLOCK_SEG_MAX = 1 << 2;
        /// The block device can't be written (5.2.3).
        const BLOCK_RO = 1 << 5;
        /// The block device tells the size of its blocks (5.2.3).
        const BLOCK_BLK_SIZE = 1 << 6;
        /// The block device takes flush requests (5.2.3).
        const BLOCK_FLUSH = 1 << 9;
        /// The block device takes requests that zero sectors (5.2.3).
        const BLOCK_WRITE_ZEROES = 1 << 14;
        /// The console tells its columns and rows (5.3.3).
        const CONSOLE_SIZE = 1 << 0;
        /// The console takes emergency writes (5.3.3).
        const CONSOLE_EMERG_WRITE = 1 << 2;
        /// Descriptors may name a table of descriptors (2.7.5.3, 2.8.7).
        const INDIRECT_DESC = 1 << 28;
        /// Each side names the place from which on it wants to be notified (2.7.7, 2.8.10).
        const EVENT_IDX = 1 << 29;
        /// The device follows this standard, and not the older interface (6).
        const VERSION_1 = 1 << 32;
        /// Virtqueues are packed rings (2.8).
        const RING_PACKED = 1 << 34;
        /// A notification carries more than the queue's index (2.9).
        const NOTIFICATION_DATA = 1 << 38;
    }
}

impl Flags for Features {
    type Bits = u64;

    ghost exact = { ⊤ };

    ghost table = { feature_names };

    ghost set_of = { feature_bits };

    fn flags<'a>() -> &'a [Flag<Features>] {
        Features::FLAGS
    }

    fn bits(&self) -> u64 {
        self.0
    }

    fn from_bits_retain(bits: u64) -> Features {
        Features(bits)
    }
}

impl Features {
    /// The features that every device of a board offers (6).
    pub fn of_every_device() -> Features
        ensures { feature_bits result ≡ device_features }
    {
        Features::INDIRECT_DESC
            .union(Features::EVENT_IDX)
            .union(Features::VERSION_1)
            .union(Features::RING_PACKED)
            .union(Features::NOTIFICATION_DATA)
    }

    /// The 32 features from bit 32 times `selector` on: none for a selector of 2 and up.
    pub fn word(self, selector: u32) -> u32
        ensures { result ≡ feature_word selector (feature_bits self) }
    {
        match selector {
            0 => (self.0 & 0xffff_ffff) as u32,
            1 => (self.0 >> 32) as u32,
            _ => 0,
        }
    }

    // Replaces the word that the selector names. A selector of 2 and up names none.
    pub(crate) fn set_word(&mut self, selector: u32, word: u32)
        ensures { feature_bits self.new ≡ with_feature_word selector word (feature_bits self.old) }
    {
        match selector {
            0 => self.0 = self.0 >> 32 << 32 | u64::from(word),
            1 => self.0 = u64::from(word) << 32 | self.0 & 0xffff_ffff,
            _ => (),
        }
    }
}
