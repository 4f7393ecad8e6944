//! The line of a trace: a word, and the fields after it in the table's order.

ghost use Rattle.std.specs.Prelude.{◌≡◌, ◌++◌, ◌∷◌, OnOk, map};
ghost use Rattle.trace.specs.Spelling.{behind_of, device_kind, disk, field_text};
ghost use Rattle.trace.specs.Text.{ended, line};
ghost use Rattle.trace.specs.Words.{fields_in, spelled};

use crate::format::Format;
use crate::print::regions::push_regions;
use crate::table::{BehindKind, Field, fields_after};
use crate::word::{Word, spelling_of};
use board::{Backing, DeviceSpec, SlotWindow, Verdict};
use guest_memory::RegionSpec;
use hexadecimal::{push_bytes, push_fixed, push_num};
use std::alloc::{AllocError, Allocator};

/// What the fields of a line say; a word has only some of them.
#[derive(Clone, Copy)]
pub(crate) struct LineFields<'a> {
    pub sectors: u32,
    pub base: u64,
    pub size: u64,
    pub regions: &'a [RegionSpec],
    pub backing: Backing,
    pub spare: u64,
    pub start: u64,
    pub count: u64,
    pub read_only: bool,
    pub columns: u16,
    pub rows: u16,
    pub identity: [u8; 20],
    pub slot: u8,
    pub window: SlotWindow,
    pub offset: u16,
    pub width: u8,
    /// It is spelled by the width.
    pub value: u32,
    pub address: u64,
    pub length: u32,
    pub bytes: &'a [u8],
    pub tag: u8,
    pub verdict: Verdict,
    pub device: u8,
    pub kind: DeviceSpec,
    pub up: bool,
    pub capacity: u64,
    pub depth: u8,
}

impl Default for LineFields<'_> {
    fn default() -> Self {
        LineFields {
            sectors: 0,
            base: 0,
            size: 0,
            regions: &[],
            backing: Backing::Image,
            spare: 0,
            start: 0,
            count: 0,
            read_only: false,
            columns: 0,
            rows: 0,
            identity: [0; 20],
            slot: 0,
            window: SlotWindow::Block,
            offset: 0,
            width: 0,
            value: 0,
            address: 0,
            length: 0,
            bytes: &[],
            tag: 0,
            verdict: Verdict::Done,
            device: 0,
            kind: DeviceSpec::Entropy,
            up: false,
            capacity: 0,
            depth: 0,
        }
    }
}

/// Appends the line of a word in a format.
pub(crate) fn push_line<A: Allocator>(
    out: &mut Vec<u8, A>,
    format: Format,
    word: Word,
    fields: &LineFields<'_>,
) -> Result<(), AllocError>
    ensures { OnOk result (out.new.items ≡ out.old.items ++ ended (line (spelled word ∷ map (field_text fields.now) (fields_in format word (behind_of fields.now.kind))))) }
{
    out.extend_from_slice(spelling_of(word))?;
    let row = fields_after(format, word, behind_of(fields.kind));
    for field in row {
        out.push(b' ')?;
        push_field(out, *field, fields)?;
    }
    out.push(b'\n')?;
    Ok(())
}

// What stands behind the kind of what a further device is to be.
fn behind_of(kind: DeviceSpec) -> BehindKind
    ensures { result ≡ behind_of kind }
{
    match kind {
        DeviceSpec::Block { .. } => BehindKind::HostedDisk,
        DeviceSpec::Image { .. } => BehindKind::ImageDisk,
        _ => BehindKind::Nothing,
    }
}

// Appends the spelling of a field.
fn push_field<A: Allocator>(
    out: &mut Vec<u8, A>,
    field: Field,
    fields: &LineFields<'_>,
) -> Result<(), AllocError>
    ensures { OnOk result (out.new.items ≡ out.old.items ++ field_text fields.now field) }
{
    match field {
        Field::Sectors => push_num(out, u64::from(fields.sectors)),
        Field::Base => push_num(out, fields.base),
        Field::Size => push_num(out, fields.size),
        Field::Regions => push_regions(out, fields.regions),
        Field::Disk => push_disk(out, fields.backing, fields.spare),
        Field::Start => push_num(out, fields.start),
        Field::Count => push_num(out, fields.count),
        Field::Mode if fields.read_only => out.extend_from_slice(b"ro"),
        Field::Mode => out.extend_from_slice(b"rw"),
        Field::Columns => push_num(out, u64::from(fields.columns)),
        Field::Rows => push_num(out, u64::from(fields.rows)),
        Field::Identity => push_bytes(out, &fields.identity),
        Field::Slot => push_num(out, u64::from(fields.slot)),
        Field::Window => match fields.window {
            SlotWindow::Block => out.extend_from_slice(b"b"),
            SlotWindow::Console => out.extend_from_slice(b"c"),
        },
        Field::Offset => push_fixed(out, 3, u32::from(fields.offset)),
        Field::Width => push_num(out, u64::from(fields.width)),
        Field::Value => push_fixed(out, 2 * u16::from(fields.width), fields.value),
        Field::Address => push_num(out, fields.address),
        Field::Length => push_num(out, u64::from(fields.length)),
        Field::Bytes => push_bytes(out, fields.bytes),
        Field::Tag => push_num(out, u64::from(fields.tag)),
        Field::Verdict => match fields.verdict {
            Verdict::Done => out.extend_from_slice(b"done"),
            Verdict::Failed => out.extend_from_slice(b"failed"),
        },
        Field::Device => push_num(out, u64::from(fields.device)),
        Field::Kind => push_kind(out, fields.kind),
        Field::Link if fields.up => out.extend_from_slice(b"up"),
        Field::Link => out.extend_from_slice(b"down"),
        Field::Capacity => push_num(out, fields.capacity),
        Field::Depth => push_num(out, u64::from(fields.depth)),
    }
}

// Appends who has a slot's disk, and how many spare sectors the slot has.
#[tactic(auto, using(crate::proofs::Disks::spelled_beside))]
fn push_disk<A: Allocator>(
    out: &mut Vec<u8, A>,
    backing: Backing,
    spare: u64,
) -> Result<(), AllocError>
    ensures { OnOk result (out.new.items ≡ out.old.items ++ disk backing spare) }
{
    match backing {
        Backing::Image if spare == 0 => out.extend_from_slice(b"image"),
        Backing::Image => {
            out.extend_from_slice(b"image+")?;
            push_num(out, spare)
        }
        Backing::Host { depth } => {
            out.extend_from_slice(b"host:")?;
            push_num(out, u64::from(depth))
        }
    }
}

// Appends what a further device is to be.
fn push_kind<A: Allocator>(out: &mut Vec<u8, A>, kind: DeviceSpec) -> Result<(), AllocError>
    ensures { OnOk result (out.new.items ≡ out.old.items ++ device_kind kind) }
{
    match kind {
        DeviceSpec::Entropy => out.extend_from_slice(b"entropy"),
        DeviceSpec::Network { mac, mtu } => {
            out.extend_from_slice(b"network:")?;
            push_bytes(out, &mac)?;
            out.push(b':')?;
            push_num(out, u64::from(mtu))
        }
        DeviceSpec::Block { .. } => out.extend_from_slice(b"disk"),
        DeviceSpec::Image { .. } => out.extend_from_slice(b"image"),
        DeviceSpec::Console { cols, rows } => {
            out.extend_from_slice(b"console:")?;
            push_num(out, u64::from(cols))?;
            out.push(b':')?;
            push_num(out, u64::from(rows))
        }
    }
}
