//! Access to the bytes of a device's configuration, by widths of 1, 2 and 4.

ghost use Rattle.std.specs.Prelude.{◌≡◌, ◌<◌, slice_index};
ghost use Rattle.mmio_window.specs.Configuration.{configuration_value, is_configuration_access, narrowed};

use byteorder::{ByteOrder, LittleEndian};

/// The offset of the configuration: below it stand the control registers.
pub const CONFIGURATION_OFFSET: u16 = 0x100;

/// How many bytes a device's configuration has.
pub const CONFIGURATION_LEN: usize = 64;

/// Whether the configuration answers an access of this width at this offset (4.2.2.2).
pub fn is_configuration_access(offset: u16, width: u8) -> bool
    ensures { result ≡ is_configuration_access offset width }
{
    match width {
        1 => true,
        2 => offset % 2 == 0,
        4 => offset % 4 == 0,
        _ => false,
    }
}

/// The number in `width` bytes from place `at` on, little-endian. Bytes past the end are 0.
pub fn configuration_value(config: &[u8; CONFIGURATION_LEN], at: usize, width: u8) -> u32
    requires { at < 65536 }
    ensures { result ≡ configuration_value config.now at width }
{
    let bytes = [
        byte_at(config, at),
        byte_at(config, at + 1),
        byte_at(config, at + 2),
        byte_at(config, at + 3),
    ];
    match width {
        1 => u32::from(bytes[0]),
        2 => u32::from(LittleEndian::read_u16(&bytes)),
        _ => LittleEndian::read_u32(&bytes),
    }
}

/// A value without its bits above the width.
pub fn narrowed(width: u8, value: u32) -> u32
    ensures { result ≡ narrowed width value }
{
    match width {
        1 => value % 0x100,
        2 => value % 0x1_0000,
        _ => value,
    }
}

fn byte_at(config: &[u8; CONFIGURATION_LEN], at: usize) -> u8
    ensures { result ≡ slice_index config.now at }
{
    config.get(at).copied().unwrap_or(0)
}
