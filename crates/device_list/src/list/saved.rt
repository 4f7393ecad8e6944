//! What is saved of the devices, and devices that take it up.

ghost use Rattle.std.specs.Prelude.{◌≡◌, ◌↔◌, ◌≤◌, ◌+◌, ◌++◌, ℕ, IsSome, IsTrue, false, None, Some, length};
ghost use Rattle.std.specs.List.{slice_get};
ghost use Rattle.std.specs.Bool.{OnTrue, OnFalse};
ghost use Rattle.guest_memory.specs.Memory.{Memory};
ghost use Rattle.device_list.specs.List.{AreSoundDevices, are_at_work};
ghost use Rattle.device_list.specs.Saved.{RestoresEach, SuitDevices, devices_restored, first_restored, saved_devices};

use crate::device::VirtioDevice;
use crate::list::DeviceList;
use crate::spec::MOST_DEVICES;
use arrayvec::ArrayVec;
use guest_memory::GuestMemory;
use snapshot::SavedDevice;
use std::alloc::Allocator;

type SavedDevices = ArrayVec<SavedDevice, MOST_DEVICES>;

impl<A: Allocator> DeviceList<A> {
    /// What is saved of the devices: their windows, each with the description of its device.
    pub fn saved(&self) -> ArrayVec<SavedDevice, MOST_DEVICES>
        ensures value { result.items ≡ saved_devices self.now }
        ensures back { (m : Memory) → AreSoundDevices m self.now → RestoresEach m self.now }
    {
        let mut saved = ArrayVec::new();
        save_each(self.devices.as_slice(), &mut saved);
        saved
    }

    /// Whether the devices are of the description that was saved: as many, each of its type.
    pub fn suits(&self, saved: &[SavedDevice]) -> bool
        ensures { IsTrue result ↔ SuitDevices saved.now self.now }
    {
        each_suits(self.devices.as_slice(), saved)
    }

    /// Whether each device's window, as it was saved, can stand over a guest's memory.
    pub fn can_restore<M: Allocator>(&self, saved: &[SavedDevice], mem: &GuestMemory<M>) -> bool
        ensures { IsTrue result ↔ IsSome (devices_restored mem.now saved.now self.now) }
    {
        can_stand(self.devices.as_slice(), saved.len(), saved, mem)
    }

    /// Restores each device's window over a guest's memory, where nothing is in flight and each can stand so.
    pub fn restore<M: Allocator>(&mut self, saved: &[SavedDevice], mem: &GuestMemory<M>)
        requires idle { are_at_work self.old ≡ false }
        requires stand { IsSome (devices_restored mem.now saved.now self.old) }
        ensures restored { devices_restored mem.now saved.now self.old ≡ Some self.new }
        ensures sound { SuitDevices saved.now self.old → AreSoundDevices mem.now self.old →
            AreSoundDevices mem.now self.new }
    {
        self.restore_first(saved.len(), saved, mem);
    }

    // Restores the windows of the first devices, so many. Each is put in its place once all before it can stand so.
    fn restore_first<M: Allocator>(
        &mut self,
        count: usize,
        saved: &[SavedDevice],
        mem: &GuestMemory<M>,
    ) -> bool
        requires idle { are_at_work self.old ≡ false }
        ensures restored { OnTrue result (first_restored mem.now count saved.now self.old ≡ Some self.new) }
        ensures refused { OnFalse result (first_restored mem.now count saved.now self.old ≡ None) }
        ensures kept { OnFalse result (self.new ≡ self.old) }
        ensures len { length self.new ≡ length self.old }
        ensures above { (i : ℕ) → count ≤ i → slice_get self.new i ≡ slice_get self.old i }
        ensures sound { SuitDevices saved.now self.old → AreSoundDevices mem.now self.old →
            AreSoundDevices mem.now self.new }
    {
        if count == 0 {
            return true;
        }
        let at = count - 1;
        let Some(first) = saved.get(at) else {
            return false;
        };
        let Some(device) = self.devices.get(at) else {
            return false;
        };
        let Some(window) = device.window_restored(&first.window, mem) else {
            return false;
        };
        if !self.restore_first(at, saved, mem) {
            return false;
        }
        self.devices[at].put_window(window);
        true
    }
}

// What is saved of each device, behind what is there.
fn save_each<A: Allocator>(devices: &[VirtioDevice<A>], out: &mut SavedDevices)
    requires room { length out.old.items + length devices.now ≤ 6 }
    ensures value { out.new.items ≡ out.old.items ++ saved_devices devices.now }
    ensures back { (m : Memory) → AreSoundDevices m devices.now → RestoresEach m devices.now }
{
    if let [device, others @ ..] = devices {
        out.push(device.saved());
        save_each(others, out);
    }
}

// Whether the windows of the first devices, so many, can stand as they were saved.
fn can_stand<A: Allocator, M: Allocator>(
    devices: &[VirtioDevice<A>],
    count: usize,
    saved: &[SavedDevice],
    mem: &GuestMemory<M>,
) -> bool
    ensures stand { OnTrue result (IsSome (first_restored mem.now count saved.now devices.now)) }
    ensures fall { OnFalse result (first_restored mem.now count saved.now devices.now ≡ None) }
{
    if count == 0 {
        return true;
    }
    let at = count - 1;
    let Some(first) = saved.get(at) else {
        return false;
    };
    let Some(device) = devices.get(at) else {
        return false;
    };
    let Some(_) = device.window_restored(&first.window, mem) else {
        return false;
    };
    if !can_stand(devices, at, saved, mem) {
        return false;
    }
    true
}

// Whether there are as many devices, and each suits what was saved of it.
fn each_suits<A: Allocator>(devices: &[VirtioDevice<A>], saved: &[SavedDevice]) -> bool
    ensures { IsTrue result ↔ SuitDevices saved.now devices.now }
{
    match (devices, saved) {
        ([], []) => true,
        ([device, others @ ..], [first, rest @ ..]) => device.suits(first)
            && each_suits(others, rest),
        _ => false,
    }
}
