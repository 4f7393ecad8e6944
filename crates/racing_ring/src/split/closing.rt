//! The closing writes, and whether the driver is to be notified.

ghost use Rattle.std.specs.Prelude.{◌↔◌, IsTrue};
ghost use Rattle.suppression.specs.Split.{SplitWants};
ghost use Rattle.split_ring.specs.Ring.{LiesIn};
ghost use Rattle.split_ring.specs.Kind.{first_passed};
ghost use Rattle.shared_memory.specs.Sightings.{Loads, memory};
ghost use Rattle.racing_ring.specs.Split.{IsClosing};

use crate::split::RacingSplitRing;
use shared_memory::Shared;
use suppression::is_passed;

/// Bit 0 of the available ring's flags: the driver asks for no notification (2.7.7).
const VIRTQ_AVAIL_F_NO_INTERRUPT: u16 = 1;

/// The idx fields of a split queue's rings count modulo this.
const IDX_MODULUS: u32 = 1 << 16;

impl RacingSplitRing {
    #[tactic(auto, using(crate::proofs::Lying::lies_stores))]
    /// Stores used flags of 0 and, where VIRTIO_F_EVENT_IDX was negotiated, avail_event (2.7.10).
    pub(crate) fn put_closing<M: Shared>(&self, mem: &mut M)
        requires { LiesIn (memory (M.sightings mem.old)) self.now.setup }
        ensures closing { IsClosing M.races (M.sightings mem.old) (M.sightings mem.new) self.now }
        ensures lies { LiesIn (memory (M.sightings mem.new)) self.now.setup }
    {
        let entries = 8 * u64::from(self.state.setup.size);
        mem.fits(self.state.setup.device, 6 + entries);
        mem.store_u16(self.state.setup.device, 0);
        if !self.state.setup.event_idx {
            return;
        }
        mem.store_u16(self.state.setup.device + 4 + entries, self.next_taken());
    }

    #[tactic(auto, using(guest_memory::proofs::Ranges::inside_part, shared_memory::proofs::Sightings::loads_none))]
    /// Whether the driver wants a notification, by one read of used_event or of the flags.
    pub(crate) fn wants<M: Shared>(&self, mem: &mut M) -> bool
        requires { LiesIn (memory (M.sightings mem.old)) self.now.setup }
        ensures wants { IsTrue result ↔ SplitWants (memory (M.sightings mem.new)) self.now.setup.driver self.now.setup.size self.now.setup.event_idx (first_passed self.now) self.now.used_count }
        ensures loads { Loads M.races (M.sightings mem.old) (M.sightings mem.new) }
    {
        let first = self.state.place.wrapping_sub(self.state.used_count);
        let count = self.state.used_count;
        let entries = 2 * u64::from(self.state.setup.size);
        mem.fits(self.state.setup.driver, 6 + entries);
        if self.state.setup.event_idx {
            let used_event = mem.load_u16(self.state.setup.driver + 4 + entries);
            is_passed(IDX_MODULUS, first, count, u32::from(used_event))
        } else {
            count > 0 && mem.load_u16(self.state.setup.driver) & VIRTQ_AVAIL_F_NO_INTERRUPT == 0
        }
    }
}
