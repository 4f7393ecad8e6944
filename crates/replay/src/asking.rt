//! What the host is asked to do with an event: the operations that began with it, in the order of their tags; of the slot's own
//! disk, and behind those of the further disk that the event names.
//!
//! They are found by two sets of tags of a disk: those that stayed taken while the event was handled, and those that are taken
//! behind it. Nothing is looked at where these are the same.

ghost use Rattle.std.specs.Prelude.{◌≡◌, ◌≢◌, ◌++◌, ◌∷◌, [], true, false, List, Option, None, Some, get_or, if◌then◌else◌, is_none, set};
ghost use Rattle.std.specs.List.{slice_get};
ghost use Rattle.block_device.specs.Flights.{InFlight};
ghost use Rattle.block_device.specs.Tags.{taken_bits};
ghost use Rattle.board.specs.Hosting.{tag_in};
ghost use Rattle.replay.specs.Asking.{PutsBegun, TakesOne, begun_text, further_from};
ghost use Rattle.replay.specs.Running.{disk_named, further_tags, tags_of};
ghost use Rattle.replay.specs.Telling.{begun_from, completed_by, completed_in, device_in, staying, told_by_tag};
ghost use Rattle.trace.specs.Asked.{asked_field};
ghost use Rattle.trace.specs.Sends.{Sends, waiting};

use board::{Board, DeviceEvent, Event, EventKind, HostEvent, SlotDisk};
use sector_cache::Image;
use std::alloc::Allocator;
use std::io::Write;
use trace::{Buffer, put_asked_end, put_begun};

/// How many tags a set has at most, each by its bit.
const MOST_TAGS: u8 = 64;

/// The tags of an event's slot that stay taken while it is handled: all but the one that it completes.
#[inline(always)]
pub(crate) fn staying<I: Image, A: Allocator>(board: &Board<I, A>, event: &Event<A>) -> u64
    ensures { result ≡
        taken_bits (staying (tag_in event.now.what) (tags_of None (slice_get board.now.slots event.now.slot))) }
{
    match event.what {
        EventKind::Host(HostEvent::Complete { tag, .. }) => {
            without(taken(board, event.slot, None), tag)
        }
        _ => taken(board, event.slot, None),
    }
}

/// The same of the further disk that the event names: no tags where it names none.
#[inline(always)]
pub(crate) fn staying_further<I: Image, A: Allocator>(board: &Board<I, A>, event: &Event<A>) -> u64
    ensures { result ≡ taken_bits (staying (completed_in event.now.what)
        (further_tags (device_in event.now.what) (slice_get board.now.slots event.now.slot))) }
{
    match &event.what {
        EventKind::Device { device, what } => {
            staying_by(what, taken(board, event.slot, Some(*device)))
        }
        _ => 0,
    }
}

// The tags of a set that stay taken while this is done to their device.
fn staying_by<A: Allocator>(what: &DeviceEvent<A>, tags: u64) -> u64
    ensures { (all : List (Option InFlight)) → tags ≡ taken_bits all → result ≡ taken_bits (staying (completed_by what.now) all) }
{
    match what {
        DeviceEvent::Host(HostEvent::Complete { tag, .. }) => without(tags, *tag),
        _ => tags,
    }
}

// The tags that are taken of a slot's own disk, or of the further one of a number.
#[inline(always)]
fn taken<I: Image, A: Allocator>(board: &Board<I, A>, slot: u8, device: Option<u8>) -> u64
    ensures { result ≡ taken_bits (tags_of device (slice_get board.now.slots slot)) }
{
    match board.disk(slot, disk_named(device)) {
        Some(disk) => disk.taken(),
        None => 0,
    }
}

// The slot's own disk, or the further one of a number.
#[inline(always)]
fn disk_named(device: Option<u8>) -> SlotDisk
    ensures { result ≡ disk_named device }
{
    match device {
        None => SlotDisk::Own,
        Some(number) => SlotDisk::Further(number),
    }
}

// The same set without this tag.
#[inline]
fn without(tags: u64, tag: u8) -> u64
    ensures { (all : List (Option InFlight)) → tags ≡ taken_bits all → result ≡ taken_bits (set all tag None) }
{
    if tag >= MOST_TAGS {
        return tags;
    }
    tags & !(1 << tag)
}

/// Puts the operations that began with an event, while which these tags stayed taken of its slot's own disk and of the further
/// disk that it names, and the line's end.
pub(crate) fn put_asked<W: Write, I: Image, A: Allocator>(
    text: &mut Buffer<A>,
    writer: &mut W,
    board: &Board<I, A>,
    event: &Event<A>,
    stayed: u64,
    stayed_further: u64,
)
    ensures { (before further : List (Option InFlight)) → stayed ≡ taken_bits before → stayed_further ≡ taken_bits further →
        Sends (W.contents writer.old) (W.contents writer.new) (waiting text.old)
        (asked_field (begun_from None 0 before (tags_of None (slice_get board.now.slots event.now.slot))
        ++ further_from (device_in event.now.what) further (slice_get board.now.slots event.now.slot)) ++ 10 ∷ [])
        (waiting text.new) }
{
    let no_own = put_tags(text, writer, board, event.slot, None, stayed, true);
    let is_none = put_named(text, writer, board, event, stayed_further, no_own);
    put_asked_end(text, writer, is_none);
}

// Puts those of the further disk that an event names, behind others or not. Whether none is put yet is answered.
fn put_named<W: Write, I: Image, A: Allocator>(
    text: &mut Buffer<A>,
    writer: &mut W,
    board: &Board<I, A>,
    event: &Event<A>,
    stayed: u64,
    is_first: bool,
) -> bool
    ensures { (further : List (Option InFlight)) → stayed ≡ taken_bits further →
        PutsBegun (further_from (device_in event.now.what) further (slice_get board.now.slots event.now.slot)) is_first result
        (W.contents writer.old) (W.contents writer.new) (waiting text.old) (waiting text.new) }
{
    match event.what {
        EventKind::Device { device, .. } => {
            put_tags(
                text,
                writer,
                board,
                event.slot,
                Some(device),
                stayed,
                is_first,
            )
        }
        _ => is_first,
    }
}

// Puts those of a disk, the first of all or behind others. Whether none is put yet is answered.
fn put_tags<W: Write, I: Image, A: Allocator>(
    text: &mut Buffer<A>,
    writer: &mut W,
    board: &Board<I, A>,
    slot: u8,
    device: Option<u8>,
    stayed: u64,
    is_first: bool,
) -> bool
    ensures { (before : List (Option InFlight)) → stayed ≡ taken_bits before →
        PutsBegun (begun_from device 0 before (tags_of device (slice_get board.now.slots slot))) is_first result
        (W.contents writer.old) (W.contents writer.new) (waiting text.old) (waiting text.new) }
{
    let mut left = taken(board, slot, device) & !stayed;
    let mut is_none = is_first;
    while left != 0 {
        let (tag, others) = take_one(left);
        is_none = put_tag(text, writer, board, slot, device, tag, is_none);
        left = others;
    }
    is_none
}

// The lowest tag of a set, which has one, and the other tags.
#[inline]
fn take_one(tags: u64) -> (u8, u64)
    requires { tags ≢ 0 }
    ensures { TakesOne tags result.0 result.1 }
{
    let lowest = tags.trailing_zeros();
    (lowest as u8, tags & !(1 << lowest))
}

// Puts the operation that has a tag, the first of all or behind others. Whether none is put yet is answered.
fn put_tag<W: Write, I: Image, A: Allocator>(
    text: &mut Buffer<A>,
    writer: &mut W,
    board: &Board<I, A>,
    slot: u8,
    device: Option<u8>,
    tag: u8,
    is_first: bool,
) -> bool
    ensures sends { Sends (W.contents writer.old) (W.contents writer.new) (waiting text.old)
        (begun_text is_first (told_by_tag device tag (get_or (tags_of device (slice_get board.now.slots slot)) tag None))) (waiting text.new) }
    ensures none { result ≡ (if is_none (get_or (tags_of device (slice_get board.now.slots slot)) tag None) then is_first else false) }
{
    let Some(disk) = board.disk(slot, disk_named(device)) else {
        return is_first;
    };
    let Some(operation) = disk.operation(tag) else {
        return is_first;
    };
    put_begun(
        text,
        writer,
        is_first,
        device,
        tag,
        operation,
        disk.runs(tag),
    );
    false
}
