//! A further device of a slot, as C describes it.

ghost use Rattle.std.specs.Prelude.{◌≡◌, map};
ghost use Rattle.board_ffi.specs.Config.{device_of, disk_of, image_disk_of};

use c_values::{Device, MOST_DEVICES, NO_DEVICE, depth};
use session::{DeviceSpec, Extent};

/// The types of devices that a slot may have (VIRTIO 1.2, 5).
const NETWORK: u32 = 1;

const DISK: u32 = 2;

const CONSOLE_DEVICE: u32 = 3;

const ENTROPY: u32 = 4;

/// A disk over spare sectors of the image, which is of no type of its own.
const IMAGE_DISK: u32 = 258;

/// What each describes.
pub(crate) fn all_described(devices: [Device; MOST_DEVICES]) -> [Option<DeviceSpec>; MOST_DEVICES]
    ensures { result ≡ map device_of devices }
{
    devices.map(|device| described(device))
}

// What is described, if it is a device. One of a type that isn't known is a card that no slot takes.
fn described(device: Device) -> Option<DeviceSpec>
    ensures { result ≡ device_of device }
{
    let mac = device.mac;
    match device.kind {
        NO_DEVICE => None,
        ENTROPY => Some(DeviceSpec::Entropy),
        DISK => Some(disk(device)),
        IMAGE_DISK => Some(image_disk(device)),
        CONSOLE_DEVICE => Some(DeviceSpec::Console {
            cols: device.cols,
            rows: device.rows,
        }),
        NETWORK => Some(DeviceSpec::Network {
            mac,
            mtu: device.mtu,
        }),
        _ => Some(DeviceSpec::Network { mac, mtu: 0 }),
    }
}

// A disk that the host serves.
fn disk(device: Device) -> DeviceSpec
    ensures { result ≡ disk_of device }
{
    let identity = device.identity;
    DeviceSpec::Block {
        sectors: device.sectors,
        read_only: device.read_only,
        identity,
        depth: depth(device.depth),
    }
}

// A disk over spare sectors of the image.
fn image_disk(device: Device) -> DeviceSpec
    ensures { result ≡ image_disk_of device }
{
    let identity = device.identity;
    DeviceSpec::Image {
        extent: Extent {
            start: device.start,
            count: device.sectors,
        },
        read_only: device.read_only,
        identity,
    }
}
