//! What waits in the devices, and devices that take it up.

ghost use Rattle.std.specs.Prelude.{◌≡◌, ◌↔◌, ◌*◌, ◌^◌, ◌≤◌, [], ℕ, IsSome, IsTrue, List, Some, length};
ghost use Rattle.std.specs.Option.{option_map};
ghost use Rattle.guest_memory.specs.Memory.{Memory};
ghost use Rattle.device_list.specs.Device.{DeviceState};
ghost use Rattle.device_list.specs.List.{AreSoundDevices};
ghost use Rattle.device_list.specs.Waiting.{AreOfTypes, Reads, ReadsPast, each_waiting, refilled_devices, refilled_each, waiting_of, with_waiting_of_each};

use crate::device::VirtioDevice;
use crate::list::DeviceList;
use crate::waiting::Reader;
use std::alloc::Allocator;

impl<A: Allocator> DeviceList<A> {
    /// In how many bytes is saved what waits in the devices.
    pub fn waiting_len(&self) -> usize
        ensures value { result ≡ length (each_waiting self.now) }
        ensures few { result ≤ 2 ^ 21 }
    {
        each_len(self.devices.as_slice())
    }

    /// Writes that into a buffer of that length. Devices of the same types that take it up then have it waiting.
    pub fn write_waiting(&self, into: &mut [u8])
        requires len { length into.old ≡ length (each_waiting self.now) }
        ensures text { into.new ≡ each_waiting self.now }
        ensures back { (others : List DeviceState) → AreOfTypes self.now others →
            refilled_devices (waiting_of self.now) others ≡ Some (with_waiting_of_each self.now others) }
    {
        write_each(self.devices.as_slice(), into);
    }

    /// Whether what waits in the devices can be as these bytes say. Without bytes it stays as it is.
    pub fn can_refill(&self, bytes: Option<&[u8]>) -> bool
        ensures { IsTrue result ↔ IsSome (refilled_devices (option_map (λ bytes. bytes.now) bytes.entry) self.now) }
    {
        let Some(bytes) = bytes else {
            return true;
        };
        let mut left = Reader { left: bytes };
        read_past_each(self.devices.as_slice(), &mut left).is_some() && left.left.is_empty()
    }

    /// Has what these bytes say wait in the devices, in the place of all that does. Without bytes that stays as it is.
    pub fn refill(&mut self, bytes: Option<&[u8]>)
        requires can { IsSome (refilled_devices (option_map (λ bytes. bytes.now) bytes) self.old) }
        ensures refilled { refilled_devices (option_map (λ bytes. bytes.now) bytes.entry) self.old ≡ Some self.new }
        ensures sound { (m : Memory) → AreSoundDevices m self.old → AreSoundDevices m self.new }
    {
        if let Some(bytes) = bytes {
            let mut left = Reader { left: bytes };
            refill_each(self.devices.as_mut_slice(), &mut left);
        }
    }
}

// In how many bytes is saved what waits in these.
fn each_len<A: Allocator>(devices: &[VirtioDevice<A>]) -> usize
    requires few { length devices.now ≤ 6 }
    ensures len { result ≡ length (each_waiting devices.now) }
    ensures most { result ≤ length devices.now * 2 ^ 18 }
{
    match devices {
        [] => 0,
        [device, others @ ..] => device.waiting_len() + each_len(others),
    }
}

// Writes what waits in these.
fn write_each<A: Allocator>(devices: &[VirtioDevice<A>], into: &mut [u8])
    requires len { length into.old ≡ length (each_waiting devices.now) }
    ensures text { into.new ≡ each_waiting devices.now }
    ensures back { (others : List DeviceState) → AreOfTypes devices.now others →
        refilled_each others (each_waiting devices.now) ≡ Some (with_waiting_of_each devices.now others, []) }
{
    if let [device, others @ ..] = devices {
        let (first, rest) = into.split_at_mut(device.waiting_len());
        device.write_waiting(first);
        write_each(others, rest);
    }
}

// Reads past what waits in these. There is no answer where the bytes can't be so.
fn read_past_each<A: Allocator>(devices: &[VirtioDevice<A>], left: &mut Reader<'_>) -> Option<()>
    ensures { ReadsPast (refilled_each devices.now) left.old.left.now result left.new.left.now }
{
    match devices {
        [] => Some(()),
        [device, others @ ..] => {
            device.read_past(left)?;
            read_past_each(others, left)
        }
    }
}

// Has what these bytes say wait in these. There is no answer where the bytes can't be so.
fn refill_each<A: Allocator>(devices: &mut [VirtioDevice<A>], left: &mut Reader<'_>) -> Option<()>
    ensures { Reads (refilled_each devices.old) (λ x. devices.new) left.old.left.now result left.new.left.now }
{
    if let Some((device, others)) = devices.split_first_mut() {
        device.refill(left)?;
        refill_each(others, left)?;
    }
    Some(())
}
