//! Plugs the guests' further devices into their slots of a board.

ghost use Rattle.std.specs.Prelude.{◌≡◌, ◌≤◌, [], None, false, IfErr, OnOk, IsSomeAnd, length};
ghost use Rattle.std.specs.List.{list_any, slice_get};
ghost use Rattle.device_list.specs.List.{refusal_of};
ghost use Rattle.session.specs.declared.fault.SessionFault.{SessionFault};
ghost use Rattle.session.specs.ImageDisks.{AreImageDisks, has_bad_behind};
ghost use Rattle.session.specs.Plugging.{AreBare, GetsDevice, GetsDevices};
ghost use Rattle.session.specs.Refusing.{AreDevices, is_bad_device};
ghost use Rattle.session.specs.Session.{before_none, plugged};

use crate::fault::SessionFault;
use crate::guest::GuestSpec;
use board::{AddRefusal, Board, DeviceSpec, MemoryImage, PlugRefusal};
use std::alloc::Allocator;

/// Plugs each guest's further devices into its slot of a board whose slots have none yet.
pub(crate) fn plug_devices<A: Allocator + Copy>(
    board: &mut Board<MemoryImage<A>, A>,
    guests: &[GuestSpec],
) -> Result<(), SessionFault>
    requires bare { AreBare guests.now board.old.slots }
    requires few { length guests.now ≤ 64 }
    requires judged { AreDevices guests.now }
    requires image_disks { AreImageDisks guests.now }
    ensures plugged { OnOk result (board.new.slots ≡ plugged guests.now board.old.slots) }
    ensures fault { IfErr result (λ why. why ≡ SessionFault.NoMemory) }
    ensures image { board.new.image ≡ board.old.image }
{
    for (place, guest) in guests.iter().enumerate() {
        plug_all(board, place as u8, &guest.devices)?;
    }
    Ok(())
}

// Plugs these devices into a slot that has none yet: those before the first place that has none.
fn plug_all<A: Allocator + Copy>(
    board: &mut Board<MemoryImage<A>, A>,
    slot: u8,
    devices: &[Option<DeviceSpec>],
) -> Result<(), SessionFault>
    requires bare { IsSomeAnd (slice_get board.old.slots slot) (λ found. length found.devices ≡ 0) }
    requires few { length devices.now ≤ 6 }
    requires judged { list_any is_bad_device (before_none devices.now) ≡ false }
    requires image_disks { IsSomeAnd (slice_get board.old.slots slot) (λ found.
        has_bad_behind found.spare [] (before_none devices.now) ≡ false) }
    ensures plugged { OnOk result (GetsDevices slot (before_none devices.now) board.old.slots board.new.slots) }
    ensures fault { IfErr result (λ why. why ≡ SessionFault.NoMemory) }
    ensures image { board.new.image ≡ board.old.image }
{
    for device in devices {
        let Some(spec) = device else {
            return Ok(());
        };
        plug_one(board, slot, *spec)?;
    }
    Ok(())
}

// Plugs a device into a slot that takes it.
fn plug_one<A: Allocator + Copy>(
    board: &mut Board<MemoryImage<A>, A>,
    slot: u8,
    spec: DeviceSpec,
) -> Result<(), SessionFault>
    requires { IsSomeAnd (slice_get board.old.slots slot) (λ found. refusal_of found.devices found.spare spec ≡ None) }
    ensures plugged { OnOk result (GetsDevice slot spec board.old.slots board.new.slots) }
    ensures fault { IfErr result (λ why. why ≡ SessionFault.NoMemory) }
    ensures image { board.new.image ≡ board.old.image }
{
    match board.plug(slot, spec) {
        Ok(_) => Ok(()),
        Err(PlugRefusal::Device(AddRefusal::NoMemory)) => Err(SessionFault::NoMemory),
        Err(_) => unreachable!(),
    }
}
