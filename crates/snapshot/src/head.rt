//! The front of a snapshot, up to the pending input, field by field.

ghost use Rattle.std.specs.Prelude.{◌≡◌, ◌<◌, ◌≤◌, ◌+◌, ◌*◌, ◌^◌, ◌∷◌, [], length};
ghost use Rattle.std.specs.Int.{w16, w32, w64, to_le_bytes};
ghost use Rattle.snapshot.specs.Spelling.{DeviceFits, DevicesFit, EachFits, MayReach, Puts, QueueFits, SlotFits, WindowFits, device, devices, each, head, queue, reached, slot, version_of, window};

use crate::reading::{VERSION, VERSION_OF_DEVICES, VERSION_OF_WAITING};
use crate::saved::{SavedDevice, SavedSlot};
use arrayvec::ArrayVec;
use byteorder::{ByteOrder, LittleEndian};
use mmio_window::{Reached, SavedQueue, SavedWindow};

/// How long a snapshot is at most, beside the pending input and what waits.
const MOST_FIXED: usize = 1206;

/// Room for the front of a snapshot.
pub(crate) type Head = ArrayVec<u8, MOST_FIXED>;

/// The front of the snapshot of a slot with so much pending input. What waits in its further devices stands behind that
/// input or isn't saved.
#[tactic(auto, unfolding(crate::specs::Spelling::head))]
pub(crate) fn head_of(saved: &SavedSlot, waits: bool, pending: usize) -> Head
    requires { pending ≤ 4096 }
    ensures text { result.items ≡ head saved.now waits pending }
    ensures fits { SlotFits saved.now }
    ensures len { length result.items ≤ 1206 }
{
    let mut out = ArrayVec::new();
    put(&mut out, b"KALYUBOS");
    put_u32(&mut out, version_of(saved, waits));
    put_slot(&mut out, saved);
    put_u32(&mut out, pending as u32);
    out
}

// The version of the snapshot of a slot, with what waits in its further devices or without.
fn version_of(saved: &SavedSlot, waits: bool) -> u32
    ensures { result ≡ version_of saved.now.devices.items waits }
{
    match saved.devices.as_slice() {
        [] => VERSION,
        [_, ..] if waits => VERSION_OF_WAITING,
        [_, ..] => VERSION_OF_DEVICES,
    }
}

// Bytes behind what is there.
fn put(out: &mut Head, bytes: &[u8])
    requires room { length out.old.items + length bytes.now ≤ 1206 }
    ensures { Puts out.old.items out.new.items bytes.now (length bytes.now) }
{
    let Ok(()) = out.try_extend_from_slice(bytes) else {
        unreachable!()
    };
}

fn put_u8(out: &mut Head, byte: u8)
    requires room { length out.old.items + 1 ≤ 1206 }
    ensures puts { Puts out.old.items out.new.items (byte ∷ []) 1 }
    ensures fits { byte < 256 }
{
    put(out, &[byte]);
}

fn put_u16(out: &mut Head, number: u16)
    requires room { length out.old.items + 2 ≤ 1206 }
    ensures puts { Puts out.old.items out.new.items (to_le_bytes w16 number) 2 }
    ensures fits { number < 2 ^ 16 }
{
    let mut bytes = [0; 2];
    LittleEndian::write_u16(&mut bytes, number);
    put(out, &bytes);
}

fn put_u32(out: &mut Head, number: u32)
    requires room { length out.old.items + 4 ≤ 1206 }
    ensures puts { Puts out.old.items out.new.items (to_le_bytes w32 number) 4 }
    ensures fits { number < 2 ^ 32 }
{
    let mut bytes = [0; 4];
    LittleEndian::write_u32(&mut bytes, number);
    put(out, &bytes);
}

fn put_u64(out: &mut Head, number: u64)
    requires room { length out.old.items + 8 ≤ 1206 }
    ensures puts { Puts out.old.items out.new.items (to_le_bytes w64 number) 8 }
    ensures fits { number < 2 ^ 64 }
{
    let mut bytes = [0; 8];
    LittleEndian::write_u64(&mut bytes, number);
    put(out, &bytes);
}

fn put_slot(out: &mut Head, saved: &SavedSlot)
    requires room { length out.old.items + 1190 ≤ 1206 }
    ensures puts { Puts out.old.items out.new.items (slot saved.now) 1190 }
    ensures fits { SlotFits saved.now }
{
    put_u64(out, saved.base);
    put_u64(out, saved.len);
    put_u64(out, saved.sectors);
    put_u8(out, u8::from(saved.read_only));
    put(out, &saved.identity);
    put_u16(out, saved.cols);
    put_u16(out, saved.rows);
    put_u8(out, u8::from(saved.on_hold));
    put_window(out, &saved.block);
    put_window(out, &saved.console);
    put_devices(out, saved.devices.as_slice());
}

// How many further devices there are, and the devices: nothing where there is none.
fn put_devices(out: &mut Head, list: &[SavedDevice])
    requires few { length list.now ≤ 6 }
    requires room { length out.old.items + 916 ≤ 1206 }
    ensures puts { Puts out.old.items out.new.items (devices list.now) 916 }
    ensures fits { DevicesFit list.now }
{
    if list.is_empty() {
        return;
    }
    put_u32(out, list.len() as u32);
    put_each(out, list);
}

// Devices one behind another.
fn put_each(out: &mut Head, list: &[SavedDevice])
    requires room { length out.old.items + length list.now * 152 ≤ 1206 }
    ensures puts { Puts out.old.items out.new.items (each list.now) (length list.now * 152) }
    ensures fits { EachFits list.now }
{
    if let [first, rest @ ..] = list {
        put_device(out, first);
        put_each(out, rest);
    }
}

fn put_device(out: &mut Head, saved: &SavedDevice)
    requires room { length out.old.items + 152 ≤ 1206 }
    ensures puts { Puts out.old.items out.new.items (device saved.now) 152 }
    ensures fits { DeviceFits saved.now }
{
    put_u32(out, saved.device_id);
    put(out, &saved.mac);
    put_u16(out, saved.mtu);
    put_u64(out, saved.sectors);
    put(out, &saved.identity);
    put_window(out, &saved.window);
}

fn put_window(out: &mut Head, saved: &SavedWindow)
    requires room { length out.old.items + 112 ≤ 1206 }
    ensures puts { Puts out.old.items out.new.items (window saved.now) 112 }
    ensures fits { WindowFits saved.now }
{
    put_u64(out, saved.negotiation.offered);
    put_u8(out, saved.negotiation.status);
    put_u64(out, saved.negotiation.accepted);
    put_u32(out, saved.selectors.device_features);
    put_u32(out, saved.selectors.driver_features);
    put_u32(out, saved.selectors.queue);
    put_u32(out, saved.selectors.shm);
    put_queue(out, &saved.queue_0);
    put_queue(out, &saved.queue_1);
    put_u8(out, saved.interrupts.bits());
    put_u32(out, saved.config_generation);
}

fn put_queue(out: &mut Head, saved: &SavedQueue)
    requires room { length out.old.items + 37 ≤ 1206 }
    ensures puts { Puts out.old.items out.new.items (queue saved.now) 37 }
    ensures fits { QueueFits saved.now }
{
    put_u32(out, saved.number);
    put_u64(out, saved.descriptor_area);
    put_u64(out, saved.driver_area);
    put_u64(out, saved.device_area);
    put_reached(out, saved.reached);
}

// How far a queue is served, where it is ready.
fn put_reached(out: &mut Head, saved: Option<Reached>)
    requires room { length out.old.items + 9 ≤ 1206 }
    ensures puts { Puts out.old.items out.new.items (reached saved) 9 }
    ensures fits { MayReach saved }
{
    let Some(served) = saved else {
        put_u8(out, 0);
        return;
    };
    put_u8(out, 1);
    put_u16(out, served.place);
    put_u16(out, served.pending);
    put_u16(out, served.used_count);
    put_u16(out, served.ahead);
}
