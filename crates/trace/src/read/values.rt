//! The values that the fields of a line say, read over the table.

ghost use Rattle.std.specs.Prelude.{◌≡◌, ◌↔◌, ◌≤◌, IfNone, IfSome, IsTrue, OnSome, length, map};
ghost use Rattle.std.specs.Option.{option_copied};
ghost use Rattle.trace.specs.Cuts.{fields_left};
ghost use Rattle.trace.specs.Values.{SayValues, SaysValue};
ghost use Rattle.trace.specs.Words.{AllRight, AreRight, HasValueField, Says, Value as ByWidth, behind_word, kind_among, shape_of, shapes, width_among};

use crate::format::Format;
use crate::read::choice::{
    backing_of, behind_word, kind_of, link_of, mode_of, verdict_of, width_of, window_of,
};
use crate::read::cut::{at_end, next_field, nth_field};
use crate::read::identity::identity_of;
use crate::read::offset::offset_of;
use crate::read::regions::are_regions;
use crate::table::{BehindKind, Field, fields_after};
use crate::value::FieldValue::{
    self, Disk, Identity, Kind, Link, Mode, Number, Offset, Spelled, Value, Verdict, Width, Window,
};
use crate::value::MOST_FIELDS;
use crate::word::Word;
use arrayvec::ArrayVec;
use hexadecimal::{are_bytes, fixed_number, number, number_u8, number_u16, number_u32};

/// The values of a line.
pub(crate) type Values<'a> = ArrayVec<FieldValue<'a>, MOST_FIELDS>;

/// The values that the fields after a word say in a format, in the table's order. There are none where the fields aren't
/// as many, or one says no value of its own.
pub(crate) fn values_of(format: Format, word: Word, rest: Option<&[u8]>) -> Option<Values<'_>>
    ensures some { IfSome result (λ values. SayValues (shapes format word (fields_left (option_copied rest.entry))) (fields_left (option_copied rest.entry)) values.items) }
    ensures none { IfNone result (¬ AreRight format word (fields_left (option_copied rest.entry))) }
{
    let fields = fields_after(format, word, behind_in(rest));
    values_in(fields, width_for(word, rest), rest)
}

/// What stands behind the field after a word that has the place of a kind.
pub(crate) fn behind_in(rest: Option<&[u8]>) -> BehindKind
    ensures { result ≡ behind_word (kind_among (fields_left (option_copied rest.entry))) }
{
    behind_word(nth_field(rest, 2))
}

// The field by which a value of the word's line is read, where it has one.
fn width_for(word: Word, rest: Option<&[u8]>) -> &[u8]
    ensures { HasValueField word → result.now ≡ width_among (fields_left (option_copied rest.entry)) }
{
    match word {
        Word::Write | Word::DeviceWrite => nth_field(rest, 3),
        _ => &[],
    }
}

// The values of these fields, of which one is read by this width.
fn values_in<'a>(fields: &[Field], width: &[u8], mut rest: Option<&'a [u8]>) -> Option<Values<'a>>
    requires { length fields.now ≤ 8 }
    ensures some { IfSome result (λ values. SayValues (map (shape_of width.now) fields.now) (fields_left (option_copied rest.entry)) values.items) }
    ensures none { IfNone result (¬ AllRight (map (shape_of width.now) fields.now) (fields_left (option_copied rest.entry))) }
{
    let mut values = ArrayVec::new();
    for field in fields {
        let bytes = next_field(&mut rest)?;
        values.push(value_of(*field, width, bytes)?);
    }
    at_end(rest)?;
    Some(values)
}

/// Whether these bytes say a value of the field, which is read by this width.
pub(crate) fn says(field: Field, width: &[u8], bytes: &[u8]) -> bool
    ensures { IsTrue result ↔ Says (shape_of width.now field) bytes.now }
{
    value_of(field, width, bytes).is_some()
}

// The value of the field that these bytes say. Where there is no such width, any bytes may be a value.
fn value_of<'a>(field: Field, width: &[u8], bytes: &'a [u8]) -> Option<FieldValue<'a>>
    ensures some { IfSome result (λ value. SaysValue (shape_of width.now field) bytes.now value) }
    ensures parsed { OnSome result (Says (shape_of width.now field) bytes.now) }
    ensures none { IfNone result (¬ Says (shape_of width.now field) bytes.now) }
{
    match field {
        Field::Base
        | Field::Size
        | Field::Start
        | Field::Count
        | Field::Address
        | Field::Capacity => Some(Number(number(bytes)?)),
        Field::Sectors | Field::Length => Some(Number(u64::from(number_u32(bytes)?))),
        Field::Columns | Field::Rows => Some(Number(u64::from(number_u16(bytes)?))),
        Field::Slot | Field::Tag | Field::Device | Field::Depth => {
            Some(Number(u64::from(number_u8(bytes)?)))
        }
        Field::Offset => Some(Offset(offset_of(bytes)?)),
        Field::Value => written_value(width, bytes),
        Field::Window => Some(Window(window_of(bytes)?)),
        Field::Width => Some(Width(width_of(bytes)?)),
        Field::Disk => {
            let (backing, spare) = backing_of(bytes)?;
            Some(Disk(backing, spare))
        }
        Field::Mode => Some(Mode(mode_of(bytes)?)),
        Field::Verdict => Some(Verdict(verdict_of(bytes)?)),
        Field::Kind => Some(Kind(kind_of(bytes)?)),
        Field::Link => Some(Link(link_of(bytes)?)),
        Field::Bytes if are_bytes(bytes) => Some(Spelled(bytes)),
        Field::Regions if are_regions(bytes) => Some(Spelled(bytes)),
        Field::Bytes | Field::Regions => None,
        Field::Identity => Some(Identity(identity_of(bytes)?)),
    }
}

// The value that is written by this width.
fn written_value<'a>(width: &[u8], bytes: &'a [u8]) -> Option<FieldValue<'a>>
    ensures some { IfSome result (λ value. SaysValue (ByWidth width.now) bytes.now value) }
    ensures parsed { OnSome result (Says (ByWidth width.now) bytes.now) }
    ensures none { IfNone result (¬ Says (ByWidth width.now) bytes.now) }
{
    let Some(width) = width_of(width) else {
        return Some(Spelled(bytes));
    };
    let value = fixed_number(bytes, 2 * width as usize)?;
    Some(Value(width, value))
}
