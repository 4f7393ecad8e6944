//! What the integers of a trace give by themselves.
//!
//! In a clause a number has no upper bound; these functions say the bounds that its type gives. They do
//! nothing when they run.

ghost use Rattle.std.specs.Prelude.{All, ◌^◌, ◌<◌};
ghost use Rattle.trace.specs.Printable.{DoneInRange, EventInRange, InRange, KindInRange, SlotInRange};
ghost use Rattle.trace.specs.Text.{content};
ghost use Rattle.trace.specs.Words.{DepthInRange, RegionInRange, SpecInRange};

use crate::trace::Trace;
use board::{Backing, DeviceEvent, DeviceSpec, Event, EventKind, HostEvent, SlotSpec};
use guest_memory::RegionSpec;
use std::alloc::Allocator;

/// Every number of a trace is one of its type.
pub(crate) fn in_range<A: Allocator>(trace: &Trace<A>)
    ensures { InRange (content trace.now) }
{
    let _cache = trace.cache;
    for slot in trace.slots.iter() {
        slot_in_range(slot);
    }
    for event in trace.events.iter() {
        event_in_range(event);
    }
}

fn slot_in_range(slot: &SlotSpec)
    ensures { SlotInRange slot.now }
{
    for region in slot.regions.as_slice() {
        region_in_range(region);
    }
    let _start = slot.extent.start;
    let _count = slot.extent.count;
    let _spare = slot.spare;
    depth_in_range(slot.backing);
    let _cols = slot.cols;
    let _rows = slot.rows;
    bytes_in_range(&slot.identity);
}

fn region_in_range(region: &RegionSpec)
    ensures { RegionInRange region.now }
{
    let _base = region.base;
    let _len = region.len;
}

fn depth_in_range(backing: Backing)
    ensures { DepthInRange backing }
{
    if let Backing::Host { depth } = backing {
        let _depth = depth;
    }
}

fn event_in_range<A: Allocator>(event: &Event<A>)
    ensures { EventInRange event.now }
{
    let _slot = event.slot;
    kind_in_range(&event.what);
}

fn kind_in_range<A: Allocator>(what: &EventKind<A>)
    ensures { KindInRange what.now }
{
    match what {
        EventKind::MemRead { addr, len } => {
            let _addr = *addr;
            let _len = *len;
        }
        EventKind::MemWrite { addr, bytes } => {
            let _addr = *addr;
            bytes_in_range(bytes.as_slice());
        }
        EventKind::Input { bytes } => bytes_in_range(bytes.as_slice()),
        EventKind::Restore { bytes } => bytes_in_range(bytes.as_slice()),
        EventKind::Resize { cols, rows } => {
            let _cols = *cols;
            let _rows = *rows;
        }
        EventKind::Host(HostEvent::Complete { tag, .. }) => {
            let _tag = *tag;
        }
        EventKind::Device { device, what } => {
            let _device = *device;
            done_in_range(what);
        }
        _ => {}
    }
}

fn done_in_range<A: Allocator>(done: &DeviceEvent<A>)
    ensures { DoneInRange done.now }
{
    match done {
        DeviceEvent::Plug(spec) => spec_in_range(*spec),
        DeviceEvent::Supply { bytes } => bytes_in_range(bytes.as_slice()),
        DeviceEvent::Receive { frame } => bytes_in_range(frame.as_slice()),
        DeviceEvent::Resize { cols, rows } => {
            let _cols = *cols;
            let _rows = *rows;
        }
        DeviceEvent::Host(HostEvent::Complete { tag, .. }) => {
            let _tag = *tag;
        }
        _ => {}
    }
}

fn spec_in_range(spec: DeviceSpec)
    ensures { SpecInRange spec }
{
    match spec {
        DeviceSpec::Entropy => {}
        DeviceSpec::Network { mac, mtu } => {
            bytes_in_range(&mac);
            let _mtu = mtu;
        }
        DeviceSpec::Block {
            sectors,
            identity,
            depth,
            ..
        } => {
            let _sectors = sectors;
            bytes_in_range(&identity);
            let _depth = depth;
        }
        DeviceSpec::Console { cols, rows } => {
            let _cols = cols;
            let _rows = rows;
        }
        DeviceSpec::Image {
            extent,
            identity,
            ..
        } => {
            let _start = extent.start;
            let _count = extent.count;
            bytes_in_range(&identity);
        }
    }
}

fn bytes_in_range(bytes: &[u8])
    ensures { All (λ b. b < 2 ^ 8) bytes.now }
{
    for byte in bytes {
        let _byte = *byte;
    }
}
