//! A further device of a guest that runs on, as C describes it.

ghost use Rattle.std.specs.Prelude.{◌≡◌, ◌++◌, IfErr, OnOk, map};
ghost use Rattle.device_list.specs.Device.{fresh_device};
ghost use Rattle.racing_session.specs.declared.fault.RacingFault.{RacingFault};
ghost use Rattle.racing_session.specs.Devices.{with_devices};
ghost use Rattle.racing_ffi.specs.Config.{device_of, devices_of, have_bad_device};

use c_values::{Device, NO_DEVICE};
use racing_session::{DeviceSpec, RacingFault, RacingSession};
use std::alloc::Global;

/// The types of devices that such a guest may have (VIRTIO 1.2, 5).
const NETWORK: u32 = 1;

const CONSOLE_DEVICE: u32 = 3;

const ENTROPY: u32 = 4;

/// The least MTU of a network card (5.1.4.1).
const LEAST_MTU: u16 = 68;

/// Whether one of the devices before the first of no kind is none that such a guest may have.
pub(crate) fn have_bad_device(devices: &[Device]) -> bool
    ensures { result ≡ have_bad_device devices.now }
{
    let [device, others @ ..] = devices else {
        return false;
    };
    if device.kind == NO_DEVICE {
        return false;
    }
    described(*device).is_none() || have_bad_device(others)
}

/// Adds the devices that are described to a guest. None that was judged is refused but for want of memory.
pub(crate) fn add_each(
    alloc: Global,
    session: &mut RacingSession,
    devices: &[Device],
) -> Result<(), RacingFault>
    ensures added { OnOk result (session.new ≡
        with_devices (session.old.further.devices ++ map fresh_device (devices_of devices.now)) session.old) }
    ensures fault { IfErr result (λ why. why ≡ RacingFault.NoMemory) }
{
    let [device, others @ ..] = devices else {
        return Ok(());
    };
    let Some(spec) = described(*device) else {
        return Ok(());
    };
    if session.add_device(alloc, spec).is_err() {
        return Err(RacingFault::NoMemory);
    }
    add_each(alloc, session, others)
}

// What is described, if such a guest may have it.
fn described(device: Device) -> Option<DeviceSpec>
    ensures { result ≡ device_of device }
{
    let mac = device.mac;
    match device.kind {
        ENTROPY => Some(DeviceSpec::Entropy),
        CONSOLE_DEVICE => Some(DeviceSpec::Console {
            cols: device.cols,
            rows: device.rows,
        }),
        NETWORK if device.mtu >= LEAST_MTU => Some(DeviceSpec::Network {
            mac,
            mtu: device.mtu,
        }),
        _ => None,
    }
}
