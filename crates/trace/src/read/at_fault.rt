//! Which field of a line is at fault, over the table of its fields.

ghost use Rattle.std.specs.Prelude.{◌≡◌, ◌≢◌, ◌↔◌, [], ℕ, List, IsTrue, IfSome, IsNone, length, map};
ghost use Rattle.std.specs.Option.{option_copied};
ghost use Rattle.trace.specs.Cuts.{fields_left};
ghost use Rattle.trace.specs.Faults.{AllSay, IsAtFault, fault_of, first_field, other_fields};
ghost use Rattle.trace.specs.Refusals.{RefusesFields};
ghost use Rattle.trace.specs.Words.{AreRight, behind_word, kind_among, shape_of, shapes, spelled, width_among};
ghost use Rattle.trace.specs.declared.word.Word.{Word};

use crate::fault::FaultKind;
use crate::format::Format;
use crate::read::cut::{nth_field, take_field};
use crate::read::values::{behind_in, says};
use crate::table::{BehindKind, Field, fields_after};
use crate::word::{Word, word_of};

/// The first field of a line that has a fault of this kind, and the bytes that stand there.
pub fn field_at_fault(format: Format, line: &[u8], kind: FaultKind) -> Option<(Field, &[u8])>
    ensures some { IfSome result (λ found. (word : Word) → first_field line.now ≡ spelled word →
        IsAtFault kind (shapes format word (other_fields line.now)) (other_fields line.now) (shape_of (width_among (other_fields line.now)) found.0) found.1.now) }
    ensures none { IsNone result → (word : Word) → first_field line.now ≡ spelled word →
        AllSay kind (shapes format word (other_fields line.now)) (other_fields line.now) }
{
    let word = first_word(line)?;
    let (_, rest) = take_field(line);
    let fields = fields_after(format, word, behind_in(rest));
    first_at_fault(fields, rest, nth_field(rest, 3), kind)
}

/// The word that a line begins with, in some format.
pub fn first_word(line: &[u8]) -> Option<Word>
    ensures some { IfSome result (λ word. first_field line.now ≡ spelled word) }
    ensures none { IsNone result → (word : Word) → first_field line.now ≢ spelled word }
{
    let (first, _) = take_field(line);
    word_of(first)
}

/// What a line has behind what it names in the place of a kind.
pub fn behind_named(line: &[u8]) -> BehindKind
    ensures { result ≡ behind_word (kind_among (other_fields line.now)) }
{
    let (_, rest) = take_field(line);
    behind_in(rest)
}

/// The fault of the fields that are left after a word, in a format.
pub(crate) fn fault_in(format: Format, word: Word, rest: Option<&[u8]>) -> FaultKind
    requires { ¬ AreRight format word (fields_left (option_copied rest)) }
    ensures { RefusesFields format word (fields_left (option_copied rest.entry)) result }
{
    let fields = fields_after(format, word, behind_in(rest));
    let width = nth_field(rest, 3);
    if !are_as_many(fields, rest) {
        FaultKind::Fields
    } else if !all_say(fields, rest, width, FaultKind::Number) {
        FaultKind::Number
    } else if !all_say(fields, rest, width, FaultKind::Choice) {
        FaultKind::Choice
    } else {
        FaultKind::Bytes
    }
}

// Whether the fields that are left are as many as these.
fn are_as_many(fields: &[Field], rest: Option<&[u8]>) -> bool
    ensures { IsTrue result ↔ (length (fields_left (option_copied rest.entry)) ≡ length fields.now) }
{
    let Some(line) = rest else {
        return fields.is_empty();
    };
    let [_, others @ ..] = fields else {
        return false;
    };
    let (_, rest) = take_field(line);
    are_as_many(others, rest)
}

// Whether each of the fields that are left whose fault is of this kind says a value.
fn all_say(fields: &[Field], rest: Option<&[u8]>, width: &[u8], kind: FaultKind) -> bool
    ensures { IsTrue result ↔ AllSay kind (map (shape_of width.now) fields.now) (fields_left (option_copied rest.entry)) }
{
    first_at_fault(fields, rest, width, kind).is_none()
}

// The first of the fields that are left that has a fault of this kind. A value is read by this width.
fn first_at_fault<'a>(
    fields: &[Field],
    rest: Option<&'a [u8]>,
    width: &[u8],
    kind: FaultKind,
) -> Option<(Field, &'a [u8])>
    ensures some { IfSome result (λ found. IsAtFault kind (map (shape_of width.now) fields.now) (fields_left (option_copied rest.entry)) (shape_of width.now found.0) found.1.now) }
    ensures none { IsNone result → AllSay kind (map (shape_of width.now) fields.now) (fields_left (option_copied rest.entry)) }
{
    let [first, others @ ..] = fields else {
        return None;
    };
    let (bytes, rest) = take_field(rest?);
    if fault_for(*first) == kind && !says(*first, width, bytes) {
        return Some((*first, bytes));
    }
    first_at_fault(others, rest, width, kind)
}

// Which fault a field has that says no value.
fn fault_for(field: Field) -> FaultKind
    ensures { (width : List ℕ) → result ≡ fault_of (shape_of width field) }
{
    match field {
        Field::Disk
        | Field::Window
        | Field::Width
        | Field::Mode
        | Field::Verdict
        | Field::Kind
        | Field::Link => FaultKind::Choice,
        Field::Bytes | Field::Identity => FaultKind::Bytes,
        _ => FaultKind::Number,
    }
}
