//! A ring as it is set up, and how far it is served.

ghost use Rattle.std.specs.Prelude.{◌≡◌};

use crate::setup::Setup;

/// How a ring is set up, and how far it is served, whatever its layout.
#[derive(Clone, Copy, Debug, PartialEq, Eq)]
pub struct RingState {
    /// How it is set up.
    pub setup: Setup,
    /// The place of the next used entry.
    pub place: u16,
    /// How much its service may still take: chains of a split ring, places of a packed one.
    pub pending: u16,
    /// How much its service has used.
    pub used_count: u16,
    /// How many places ahead of that the next chain is: those of the chains in flight, which were taken and aren't used yet.
    pub ahead: u16,
}

impl RingState {
    ghost use Rattle.chain.specs.Setup.{new_ring, served_so_far, shut, stopped};

    /// A ring before its first service.
    pub fn new(setup: Setup) -> RingState
        ensures { result ≡ new_ring setup }
    {
        RingState {
            setup,
            place: 0,
            pending: 0,
            used_count: 0,
            ahead: 0,
        }
    }

    /// The ring, served so far.
    pub fn served_so_far(self, place: u16, pending: u16, used_count: u16, ahead: u16) -> RingState
        ensures { result ≡ served_so_far place pending used_count ahead self }
    {
        RingState {
            setup: self.setup,
            place,
            pending,
            used_count,
            ahead,
        }
    }

    /// Takes nothing more in this service, after a fault.
    #[inline]
    pub fn stop(&mut self)
        ensures { self.new ≡ stopped self.old }
    {
        self.pending = 0;
    }

    /// Ends the service.
    #[inline]
    pub fn shut(&mut self)
        ensures { self.new ≡ shut self.old }
    {
        self.pending = 0;
        self.used_count = 0;
    }
}
