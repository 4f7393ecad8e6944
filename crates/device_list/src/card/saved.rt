//! What waits in a card, as it is saved and taken up again.

ghost use Rattle.std.specs.Prelude.{◌≡◌, ◌^◌, ◌≤◌, ◌++◌, ℕ, IfSome, List, Some, length};
ghost use Rattle.network_device.specs.Frames.{IsWithin};
ghost use Rattle.device_list.specs.Card.{card_limits};
ghost use Rattle.device_list.specs.Waiting.{Reads, card_at, card_bytes, card_waits, card_with, waits_of};

use crate::card::NetworkCard;
use crate::waiting::Reader;
use byteorder::{ByteOrder, LittleEndian};
use network_device::SavedFrames;
use std::alloc::Allocator;

/// How many bytes stand before a card's frames.
const FIXED_LEN: usize = 17;

/// What waits in a card, in the bytes of a snapshot.
#[derive(Drop)]
pub(crate) struct SavedCard<'a> {
    link_up: bool,
    // how many frames of the host were dropped, and how many chains of the driver
    dropped: (u64, u64),
    to_driver: SavedFrames<'a>,
    to_host: SavedFrames<'a>,
}

impl<'a> SavedCard<'a> {
    pub(crate) fn read(left: &mut Reader<'a>) -> Option<SavedCard<'a>>
        ensures read { Reads card_at (λ x. waits_of x) left.old.left.now result left.new.left.now }
        ensures to_driver { IfSome result (λ x. IsWithin card_limits x.to_driver) }
        ensures to_host { IfSome result (λ x. IsWithin card_limits x.to_host) }
    {
        let link_up = left.flag()?;
        let of_host = left.u64()?;
        let of_driver = left.u64()?;
        Some(SavedCard {
            link_up,
            dropped: (of_host, of_driver),
            to_driver: left.frames()?,
            to_host: left.frames()?,
        })
    }
}

impl<A: Allocator> NetworkCard<A> {
    /// In how many bytes what waits is saved.
    pub(crate) fn waiting_len(&self) -> usize
        ensures len { result ≡ length (card_bytes (card_waits self.now)) }
        ensures most { result ≤ 2 ^ 18 }
    {
        FIXED_LEN + self.network.frames().saved_len() + self.sent.saved_len()
    }

    /// Writes that into a buffer of that length.
    pub(crate) fn write_waiting(&self, into: &mut [u8])
        requires len { length into.old ≡ length (card_bytes (card_waits self.now)) }
        ensures text { into.new ≡ card_bytes (card_waits self.now) }
        ensures back { (rest : List ℕ) →
            card_at (card_bytes (card_waits self.now) ++ rest) ≡ Some (card_waits self.now, rest) }
    {
        let (fixed, frames) = into.split_at_mut(FIXED_LEN);
        let (of_host, of_driver) = self.network.dropped();
        fixed[0] = u8::from(self.configuration().link_up);
        LittleEndian::write_u64(&mut fixed[1..9], of_host);
        LittleEndian::write_u64(&mut fixed[9..17], of_driver);
        let (to_driver, to_host) = frames.split_at_mut(self.network.frames().saved_len());
        self.network.frames().save(to_driver);
        self.sent.save(to_host);
    }

    /// Has what was saved wait, in the place of all that does.
    pub(crate) fn restore(&mut self, saved: &SavedCard<'_>)
        requires to_driver { IsWithin card_limits saved.now.to_driver }
        requires to_host { IsWithin card_limits saved.now.to_host }
        ensures { self.new ≡ card_with (waits_of saved.now) self.old }
    {
        self.network.set_link(saved.link_up);
        self.network.restore(&saved.to_driver, saved.dropped);
        self.sent.restore(&saved.to_host);
    }
}
