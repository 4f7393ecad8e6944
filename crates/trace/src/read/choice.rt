//! Fields that choose one of a few values.

ghost use Rattle.std.specs.Prelude.{◌≡◌, ◌≢◌, ℕ, IfSome, IfNone, OnSome, false, replicate};
ghost use Rattle.device_list.specs.declared.spec.DeviceSpec.{DeviceSpec};
ghost use Rattle.board.specs.declared.spec.Backing.{Backing};
ghost use Rattle.trace.specs.Spelling.{link_state, window, mode, verdict};
ghost use Rattle.trace.specs.Words.{IsDiskField, IsKindField, behind_word, IsWidthField, Says, Disk, Kind, Link, Window, Width, Mode, Verdict as ByVerdict};

use crate::read::card::card_of;
use crate::read::console::console_of;
use crate::read::cut::behind;
use crate::table::BehindKind;
use board::{Backing, DeviceSpec, Extent, SlotWindow, Verdict};
use hexadecimal::{number, number_u8};

/// The kind of device whose window a field names.
pub(crate) fn window_of(field: &[u8]) -> Option<SlotWindow>
    ensures some { IfSome result (λ kind. field.now ≡ window kind) }
    ensures parsed { OnSome result (Says Window field.now) }
    ensures none { IfNone result (¬ Says Window field.now) }
{
    match field {
        b"b" => Some(SlotWindow::Block),
        b"c" => Some(SlotWindow::Console),
        _ => None,
    }
}

/// The width of a register access, in bytes.
pub(crate) fn width_of(field: &[u8]) -> Option<u8>
    ensures some { IfSome result (λ width. IsWidthField field.now width) }
    ensures parsed { OnSome result (Says Width field.now) }
    ensures none { IfNone result (¬ Says Width field.now) }
{
    match field {
        b"1" => Some(1),
        b"2" => Some(2),
        b"4" => Some(4),
        _ => None,
    }
}

/// Who has a slot's disk, with how many operations may be in flight where that is the host; and how many spare sectors of
/// the image the slot has.
pub(crate) fn backing_of(field: &[u8]) -> Option<(Backing, u64)>
    ensures some { IfSome result (λ disk. IsDiskField field.now disk.0 disk.1) }
    ensures parsed { OnSome result (Says Disk field.now) }
    ensures none { IfNone result (¬ Says Disk field.now) }
{
    match field {
        b"image" => Some((Backing::Image, 0)),
        _ => match spare_of(field) {
            Some(spare) => Some((Backing::Image, spare)),
            None => host_of(field),
        },
    }
}

// The spare sectors beside a disk of the image, of which there are some.
fn spare_of(field: &[u8]) -> Option<u64>
    ensures some { IfSome result (λ spare. IsDiskField field.now Backing.Image spare) }
    ensures none { IfNone result ((spare : ℕ) → spare ≢ 0 → ¬ IsDiskField field.now Backing.Image spare) }
{
    let digits = behind(field, b"image+")?;
    let spare = number(digits)?;
    if spare == 0 {
        return None;
    }
    Some(spare)
}

// The disk that the host serves, by how many operations may be in flight.
fn host_of(field: &[u8]) -> Option<(Backing, u64)>
    ensures some { IfSome result (λ disk. IsDiskField field.now disk.0 disk.1) }
    ensures parsed { OnSome result (Says Disk field.now) }
    ensures none { IfNone result ((depth spare : ℕ) → ¬ IsDiskField field.now (Backing.Host depth) spare) }
{
    let digits = behind(field, b"host:")?;
    let depth = number_u8(digits)?;
    Some((Backing::Host { depth }, 0))
}

/// Whether a slot is read-only.
pub(crate) fn mode_of(field: &[u8]) -> Option<bool>
    ensures some { IfSome result (λ read_only. field.now ≡ mode read_only) }
    ensures parsed { OnSome result (Says Mode field.now) }
    ensures none { IfNone result (¬ Says Mode field.now) }
{
    match field {
        b"rw" => Some(false),
        b"ro" => Some(true),
        _ => None,
    }
}

/// How an operation came out.
pub(crate) fn verdict_of(field: &[u8]) -> Option<Verdict>
    ensures some { IfSome result (λ came. field.now ≡ verdict came) }
    ensures parsed { OnSome result (Says ByVerdict field.now) }
    ensures none { IfNone result (¬ Says ByVerdict field.now) }
{
    match field {
        b"done" => Some(Verdict::Done),
        b"failed" => Some(Verdict::Failed),
        _ => None,
    }
}

/// What stands behind a field that has the place of a kind.
pub(crate) fn behind_word(field: &[u8]) -> BehindKind
    ensures { result ≡ behind_word field.now }
{
    match field {
        b"disk" => BehindKind::HostedDisk,
        b"image" => BehindKind::ImageDisk,
        _ => BehindKind::Nothing,
    }
}

/// What a further device is to be. What a disk is to be is said by the fields behind this one, and left out here.
pub(crate) fn kind_of(field: &[u8]) -> Option<DeviceSpec>
    ensures some { IfSome result (λ spec. IsKindField field.now spec) }
    ensures parsed { OnSome result (Says Kind field.now) }
    ensures none { IfNone result (¬ Says Kind field.now) }
{
    match field {
        b"entropy" => Some(DeviceSpec::Entropy),
        b"disk" => Some(blank_disk()),
        b"image" => Some(blank_image()),
        _ => match card_of(field) {
            Some(card) => Some(card),
            None => console_of(field),
        },
    }
}

// A further disk that the host serves, of which nothing is said yet.
fn blank_disk() -> DeviceSpec
    ensures { result ≡ DeviceSpec.Block 0 false (replicate 20 0) 0 }
{
    DeviceSpec::Block {
        sectors: 0,
        read_only: false,
        identity: [0; 20],
        depth: 0,
    }
}

// The same of one over the image.
fn blank_image() -> DeviceSpec
    ensures { result ≡ DeviceSpec.Image (record { start = 0; count = 0 }) false (replicate 20 0) }
{
    DeviceSpec::Image {
        extent: Extent { start: 0, count: 0 },
        read_only: false,
        identity: [0; 20],
    }
}

/// Whether the link of a network card is up.
pub(crate) fn link_of(field: &[u8]) -> Option<bool>
    ensures some { IfSome result (λ up. field.now ≡ link_state up) }
    ensures parsed { OnSome result (Says Link field.now) }
    ensures none { IfNone result (¬ Says Link field.now) }
{
    match field {
        b"up" => Some(true),
        b"down" => Some(false),
        _ => None,
    }
}
