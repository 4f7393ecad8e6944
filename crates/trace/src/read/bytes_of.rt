//! A field that spells so many bytes.

ghost use Rattle.std.specs.Prelude.{◌<◌, ◌≤◌, ℕ, List, IfNone, OnSome, length};
ghost use Rattle.trace.specs.Words.{IsBytesOf};

use hexadecimal::{are_digits, read_pairs};

/// Reads a field that spells as many bytes as there is room for, each by two digits.
pub(crate) fn fill(bytes: &mut [u8], field: &[u8]) -> Option<()>
    requires some { 0 < length bytes.old }
    requires few { length bytes.old ≤ 20 }
    ensures some { OnSome result (IsBytesOf (length bytes.old) field.now bytes.new) }
    ensures none { IfNone result ((bs : List ℕ) → ¬ IsBytesOf (length bytes.old) field.now bs) }
{
    if field.len() != 2 * bytes.len() || !are_digits(field) {
        return None;
    }
    read_pairs(field, bytes);
    Some(())
}
