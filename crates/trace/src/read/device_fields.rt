//! What the fields of a line say that is about a further device.

ghost use Rattle.std.specs.Prelude.{◌≡◌, ◌∷◌, [], ◌<◌, ◌^◌, codes, map};
ghost use Rattle.trace.specs.declared.format.Format.{Format};
ghost use Rattle.trace.specs.declared.table.BehindKind.{BehindKind};
ghost use Rattle.trace.specs.declared.word.Word.{Word};
ghost use Rattle.board.specs.declared.event.DeviceEvent.{DeviceEvent};
ghost use Rattle.board.specs.declared.event.EventKind.{EventKind};
ghost use Rattle.hexadecimal.specs.Spelling.{num};
ghost use Rattle.trace.specs.ParsedEvent.{IsFineParsed, parsed_fields};
ghost use Rattle.trace.specs.Spelling.{behind_of, device_kind, spec_fields, value_text};
ghost use Rattle.trace.specs.Text.{word_for};
ghost use Rattle.trace.specs.Values.{AreOf};
ghost use Rattle.trace.specs.Words.{IsDeviceWord, IsDiskWord, Num, SpecInRange, behind_kind, shape_of, shapes, spelled};

use crate::read::parsed_event::ParsedEvent;
use crate::value::FieldValue::{
    self, Identity, Kind, Link, Mode, Number, Offset, Spelled, Value, Verdict, Width,
};
use crate::word::Word;
use board::{Bytes, DeviceEvent, DeviceSpec, Extent, HostEvent};
use std::alloc::Allocator;

/// What the values after a word say that is done to a further device. Bytes are still spelled, so there are none.
pub(crate) fn device_of<'a, A: Allocator>(
    none: Bytes<A>,
    word: Word,
    values: &[FieldValue<'a>],
) -> ParsedEvent<'a, A>
    requires word { IsDeviceWord word }
    requires none { none ≡ [] }
    requires values { AreOf (shapes Format.Extended word (map value_text values.now)) values.now }
    ensures fields { parsed_fields result ≡ spelled word ∷ map value_text values.now }
    ensures word { word_for result.event.what ≡ word }
    ensures fine { IsFineParsed result }
{
    match word {
        Word::Plug => plug_of(values),
        Word::DeviceRead => read_of(values),
        Word::DeviceWrite => write_of(values),
        Word::Supply => {
            let &[Number(slot), Number(device), Spelled(bytes)] = values else {
                unreachable!()
            };
            let supply = DeviceEvent::Supply { bytes: none };
            ParsedEvent::device(slot as u8, device as u8, supply, bytes)
        }
        Word::Receive => {
            let &[Number(slot), Number(device), Spelled(bytes)] = values else {
                unreachable!()
            };
            let receive = DeviceEvent::Receive { frame: none };
            ParsedEvent::device(slot as u8, device as u8, receive, bytes)
        }
        Word::TakeSent => {
            let (slot, device) = device_alone(values);
            ParsedEvent::device(slot, device, DeviceEvent::TakeSent, &[])
        }
        Word::DropSent => {
            let (slot, device) = device_alone(values);
            ParsedEvent::device(slot, device, DeviceEvent::DropSent, &[])
        }
        Word::SetLink => {
            let &[Number(slot), Number(device), Link(up)] = values else {
                unreachable!()
            };
            ParsedEvent::device(slot as u8, device as u8, DeviceEvent::SetLink { up }, &[])
        }
        Word::DeviceResize => resize_of(values),
        _ => said_of(word, values),
    }
}

// What those of a plug say.
fn plug_of<'a, A: Allocator>(values: &[FieldValue<'a>]) -> ParsedEvent<'a, A>
    requires { AreOf (shapes Format.Extended Word.Plug (map value_text values.now)) values.now }
    ensures fields { parsed_fields result ≡ spelled Word.Plug ∷ map value_text values.now }
    ensures word { word_for result.event.what ≡ Word.Plug }
    ensures fine { IsFineParsed result }
{
    let &[Number(slot), Number(device), Kind(kind), ref behind @ ..] = values else {
        unreachable!()
    };
    let plug = DeviceEvent::Plug(spec_of(kind, behind));
    ParsedEvent::device(slot as u8, device as u8, plug, &[])
}

// What a further device is to be, by its kind and the values behind that: disks alone have some.
fn spec_of(kind: DeviceSpec, behind: &[FieldValue<'_>]) -> DeviceSpec
    requires fits { SpecInRange kind }
    requires values { AreOf (map (shape_of []) (behind_kind (behind_of kind))) behind.now }
    ensures kind { device_kind result ≡ device_kind kind }
    ensures fields { spec_fields result ≡ map value_text behind.now }
    ensures range { SpecInRange result }
{
    match kind {
        DeviceSpec::Block { .. } => disk_of(behind),
        DeviceSpec::Image { .. } => image_of(behind),
        kind => kind,
    }
}

// What a further disk is to be that the host serves.
fn disk_of(values: &[FieldValue<'_>]) -> DeviceSpec
    requires { AreOf (map (shape_of []) (behind_kind BehindKind.HostedDisk)) values.now }
    ensures kind { device_kind result ≡ codes "disk" }
    ensures fields { spec_fields result ≡ map value_text values.now }
    ensures range { SpecInRange result }
{
    let &[
        Number(sectors),
        Mode(read_only),
        Identity(identity),
        Number(depth),
    ] = values
    else {
        unreachable!()
    };
    DeviceSpec::Block {
        sectors,
        read_only,
        identity,
        depth: depth as u8,
    }
}

// The same of one over the image.
fn image_of(values: &[FieldValue<'_>]) -> DeviceSpec
    requires { AreOf (map (shape_of []) (behind_kind BehindKind.ImageDisk)) values.now }
    ensures kind { device_kind result ≡ codes "image" }
    ensures fields { spec_fields result ≡ map value_text values.now }
    ensures range { SpecInRange result }
{
    let &[
        Number(start),
        Number(count),
        Mode(read_only),
        Identity(identity),
    ] = values
    else {
        unreachable!()
    };
    DeviceSpec::Image {
        extent: Extent { start, count },
        read_only,
        identity,
    }
}

// What those of a resize say.
fn resize_of<'a, A: Allocator>(values: &[FieldValue<'a>]) -> ParsedEvent<'a, A>
    requires { AreOf (shapes Format.Extended Word.DeviceResize (map value_text values.now)) values.now }
    ensures fields { parsed_fields result ≡ spelled Word.DeviceResize ∷ map value_text values.now }
    ensures word { word_for result.event.what ≡ Word.DeviceResize }
    ensures fine { IsFineParsed result }
{
    let &[Number(slot), Number(device), Number(cols), Number(rows)] = values else {
        unreachable!()
    };
    let (cols, rows) = (cols as u16, rows as u16);
    let resize = DeviceEvent::Resize { cols, rows };
    ParsedEvent::device(slot as u8, device as u8, resize, &[])
}

// What those say that the host says of a further disk.
fn said_of<'a, A: Allocator>(word: Word, values: &[FieldValue<'a>]) -> ParsedEvent<'a, A>
    requires word { IsDiskWord word }
    requires values { AreOf (shapes Format.Extended word (map value_text values.now)) values.now }
    ensures fields { parsed_fields result ≡ spelled word ∷ map value_text values.now }
    ensures word { word_for result.event.what ≡ word }
    ensures fine { IsFineParsed result }
{
    match word {
        Word::DeviceComplete => {
            let &[Number(slot), Number(device), Number(tag), Verdict(verdict)] = values else {
                unreachable!()
            };
            let tag = tag as u8;
            told(
                slot as u8,
                device as u8,
                HostEvent::Complete { tag, verdict },
            )
        }
        Word::DeviceDrop => {
            let (slot, device) = device_alone(values);
            told(slot, device, HostEvent::Drop)
        }
        Word::DeviceHold => {
            let (slot, device) = device_alone(values);
            told(slot, device, HostEvent::Hold)
        }
        Word::DeviceRelease => {
            let (slot, device) = device_alone(values);
            told(slot, device, HostEvent::Release)
        }
        _ => unreachable!(),
    }
}

// The host says this of a further disk.
fn told<'a, A: Allocator>(slot: u8, device: u8, said: HostEvent) -> ParsedEvent<'a, A>
    ensures event { result.event ≡ record { slot = slot; what = EventKind.Device device (DeviceEvent.Host said) } }
    ensures bytes { result.bytes.now ≡ [] }
{
    ParsedEvent::device(slot, device, DeviceEvent::Host(said), &[])
}

// The slot and the further device that are the only ones of these values.
fn device_alone(values: &[FieldValue<'_>]) -> (u8, u8)
    requires { AreOf (Num 8 ∷ Num 8 ∷ []) values.now }
    ensures { map value_text values.now ≡ num result.0 ∷ num result.1 ∷ [] }
{
    let &[Number(slot), Number(device)] = values else {
        unreachable!()
    };
    (slot as u8, device as u8)
}

// What those of a read of its window say.
#[tactic(auto, using(crate::proofs::Widths::num_width))]
fn read_of<'a, A: Allocator>(values: &[FieldValue<'a>]) -> ParsedEvent<'a, A>
    requires { AreOf (shapes Format.Extended Word.DeviceRead (map value_text values.now)) values.now }
    ensures fields { parsed_fields result ≡ spelled Word.DeviceRead ∷ map value_text values.now }
    ensures word { word_for result.event.what ≡ Word.DeviceRead }
    ensures fine { IsFineParsed result }
{
    let &[Number(slot), Number(device), Offset(offset), Width(width)] = values else {
        unreachable!()
    };
    let read = DeviceEvent::Read { offset, width };
    ParsedEvent::device(slot as u8, device as u8, read, &[])
}

// What those of a write say, whose value is read by the width before it.
fn write_of<'a, A: Allocator>(values: &[FieldValue<'a>]) -> ParsedEvent<'a, A>
    requires { AreOf (shapes Format.Extended Word.DeviceWrite (map value_text values.now)) values.now }
    ensures fields { parsed_fields result ≡ spelled Word.DeviceWrite ∷ map value_text values.now }
    ensures word { word_for result.event.what ≡ Word.DeviceWrite }
    ensures fine { IsFineParsed result }
{
    let &[
        Number(slot),
        Number(device),
        Offset(offset),
        Width(width),
        Value(_, value),
    ] = values
    else {
        unreachable!()
    };
    let write = DeviceEvent::Write {
        offset,
        width,
        value,
    };
    ParsedEvent::device(slot as u8, device as u8, write, &[])
}
