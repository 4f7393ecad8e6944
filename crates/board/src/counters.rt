//! What a guest's devices did since its board was made. It is counted beside the proof: no clause speaks of the numbers,
//! and tests compare them.

use block_device::{HostEvent, Verdict};
use chain::Counts;
use mmio_window::Action;

/// What a guest's devices did, each number modulo 2^64. A restore keeps them: they are of the slot's life on its board. C has
/// it as it is.
#[derive(Clone, Copy, Debug, Default, PartialEq, Eq)]
#[repr(C)]
pub struct Counters {
    /// How many writes notified a device of a queue that it serves.
    pub notifies: u64,
    /// How many chains were given back as used.
    pub chains: u64,
    /// How many bytes devices wrote into the guest's memory: the sum of the used lengths.
    pub bytes_in: u64,
    /// How many bytes the readable buffers of used chains had, headers included.
    pub bytes_out: u64,
    /// How many services ended by a fault, so that a window asks for a reset.
    pub faults: u64,
    /// How many calls met a refusal: there was no memory or no room, a call of the image failed, or an operation of the
    /// host did.
    pub refusals: u64,
    /// How many calls left a service paused.
    pub pauses: u64,
}

impl Counters {
    /// Counts a write whose action is a notification.
    #[inline(always)]
    pub(crate) fn wrote(&mut self, action: Action) {
        if matches!(action, Action::Notify(_)) {
            self.notifies = self.notifies.wrapping_add(1);
        }
    }

    /// Counts a call that met a refusal.
    #[inline(always)]
    pub(crate) fn refused(&mut self) {
        self.refusals = self.refusals.wrapping_add(1);
    }

    /// Counts a completion by which the host says that an operation failed.
    pub(crate) fn told(&mut self, said: HostEvent) {
        if matches!(
            said,
            HostEvent::Complete {
                verdict: Verdict::Failed,
                ..
            }
        ) {
            self.refused();
        }
    }

    /// These, and what the services of a room did.
    pub(crate) fn with(self, services: Counts) -> Counters {
        Counters {
            chains: self.chains.wrapping_add(services.chains),
            bytes_in: self.bytes_in.wrapping_add(services.bytes_in),
            bytes_out: self.bytes_out.wrapping_add(services.bytes_out),
            faults: self.faults.wrapping_add(services.faults),
            pauses: self.pauses.wrapping_add(services.pauses),
            ..self
        }
    }
}
