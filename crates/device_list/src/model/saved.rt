//! By what a saved device is known.

ghost use Rattle.std.specs.Prelude.{◌≡◌};
ghost use Rattle.mmio_window.specs.DeviceKind.{device_id_of};
ghost use Rattle.device_list.specs.Model.{kind_of, state_of};
ghost use Rattle.device_list.specs.Saved.{identity_of, mac_of, mtu_of, sectors_of};

use crate::model::DeviceModel;
use std::alloc::Allocator;

impl<A: Allocator> DeviceModel<A> {
    /// The type of device, as DeviceID shows it (4.2.2).
    pub(crate) fn device_id(&self) -> u32
        ensures { result ≡ device_id_of (kind_of (state_of self.now)) }
    {
        match self {
            DeviceModel::Network(_) => 1,
            DeviceModel::Block(_) | DeviceModel::Image(_) => 2,
            DeviceModel::Console(_) => 3,
            DeviceModel::Entropy(_) => 4,
        }
    }

    /// The address of a network card, and zeros of another device.
    pub(crate) fn mac(&self) -> [u8; 6]
        ensures { result ≡ mac_of (state_of self.now) }
    {
        match self {
            DeviceModel::Network(card) => card.configuration().mac,
            _ => [0; 6],
        }
    }

    /// The MTU of a network card, and 0 of another device.
    pub(crate) fn mtu(&self) -> u16
        ensures { result ≡ mtu_of (state_of self.now) }
    {
        match self {
            DeviceModel::Network(card) => card.configuration().mtu,
            _ => 0,
        }
    }

    /// How many sectors a disk has, and 0 of another device.
    pub(crate) fn sectors(&self) -> u64
        ensures { result ≡ sectors_of (state_of self.now) }
    {
        match self {
            DeviceModel::Block(disk) => disk.device().extent.count,
            DeviceModel::Image(disk) => disk.extent.count,
            _ => 0,
        }
    }

    /// What a disk answers to GET_ID, and zeros of another device.
    pub(crate) fn identity(&self) -> [u8; 20]
        ensures { result ≡ identity_of (state_of self.now) }
    {
        match self {
            DeviceModel::Block(disk) => disk.device().identity,
            DeviceModel::Image(disk) => disk.identity,
            _ => [0; 20],
        }
    }
}
