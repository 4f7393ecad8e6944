//! What waits in a device, as it is saved and taken up again.

ghost use Rattle.std.specs.Prelude.{◌≡◌, ◌^◌, ◌≤◌, ◌++◌, ℕ, List, Some, length};
ghost use Rattle.device_list.specs.Model.{ModelState, state_of};
ghost use Rattle.device_list.specs.Waiting.{AreOfOneType, Reads, ReadsPast, refilled, waiting_in, with_waiting_of};

use crate::card::SavedCard;
use crate::model::DeviceModel;
use crate::terminal::SavedTerminal;
use crate::waiting::{Reader, write_counted};
use std::alloc::Allocator;

/// How many bytes a pool holds.
const MOST_IN_POOL: usize = 4096;

impl<A: Allocator> DeviceModel<A> {
    /// In how many bytes what waits is saved.
    pub(crate) fn waiting_len(&self) -> usize
        ensures len { result ≡ length (waiting_in (state_of self.now)) }
        ensures most { result ≤ 2 ^ 18 }
    {
        match self {
            DeviceModel::Entropy(entropy) => 4 + entropy.len(),
            DeviceModel::Network(card) => card.waiting_len(),
            DeviceModel::Block(_) | DeviceModel::Image(_) => 1,
            DeviceModel::Console(terminal) => terminal.waiting_len(),
        }
    }

    /// Writes that into a buffer of that length.
    pub(crate) fn write_waiting(&self, into: &mut [u8])
        requires len { length into.old ≡ length (waiting_in (state_of self.now)) }
        ensures text { into.new ≡ waiting_in (state_of self.now) }
        ensures back { (other : ModelState) (rest : List ℕ) → AreOfOneType (state_of self.now) other →
            refilled other (waiting_in (state_of self.now) ++ rest) ≡ Some (with_waiting_of (state_of self.now) other, rest) }
    {
        match self {
            DeviceModel::Entropy(entropy) => write_counted(entropy.waiting(), &[], into),
            DeviceModel::Network(card) => card.write_waiting(into),
            DeviceModel::Block(disk) => into.copy_from_slice(&[u8::from(disk.is_on_hold())]),
            DeviceModel::Console(terminal) => terminal.write_waiting(into),
            DeviceModel::Image(_) => into[0] = 0,
        }
    }

    /// Reads past what waits. There is no answer where the bytes can't be so.
    pub(crate) fn read_past(&self, left: &mut Reader<'_>) -> Option<()>
        ensures { ReadsPast (refilled (state_of self.now)) left.old.left.now result left.new.left.now }
    {
        match self {
            DeviceModel::Entropy(_) => {
                left.counted(MOST_IN_POOL)?;
            }
            DeviceModel::Network(_) => {
                SavedCard::read(left)?;
            }
            DeviceModel::Block(_) | DeviceModel::Image(_) => {
                left.flag()?;
            }
            DeviceModel::Console(_) => {
                SavedTerminal::read(left)?;
            }
        }
        Some(())
    }

    /// Has what these bytes say wait, in the place of all that does. There is no answer where the bytes can't be so.
    pub(crate) fn refill(&mut self, left: &mut Reader<'_>) -> Option<()>
        ensures { Reads (refilled (state_of self.old)) (λ x. state_of self.new) left.old.left.now result left.new.left.now }
    {
        match self {
            DeviceModel::Entropy(entropy) => entropy.restore(left.counted(MOST_IN_POOL)?),
            DeviceModel::Network(card) => card.restore(&SavedCard::read(left)?),
            DeviceModel::Block(disk) => disk.set_on_hold(left.flag()?),
            DeviceModel::Console(terminal) => terminal.restore(&SavedTerminal::read(left)?),
            // one over the image is never on hold
            DeviceModel::Image(_) => {
                left.flag()?;
            }
        }
        Some(())
    }
}
