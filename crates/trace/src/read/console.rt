//! The field that says a console.

ghost use Rattle.std.specs.Prelude.{ℕ, IfNone, IfSome, OnSome};
ghost use Rattle.device_list.specs.declared.spec.DeviceSpec.{DeviceSpec};
ghost use Rattle.trace.specs.Words.{IsConsoleField, IsKindField, Kind, Says};

use crate::read::cut::{behind, cut};
use board::DeviceSpec;
use hexadecimal::number_u16;

/// The console that a field says: behind its word stand its columns and its rows.
pub(crate) fn console_of(field: &[u8]) -> Option<DeviceSpec>
    ensures some { IfSome result (λ spec. IsKindField field.now spec) }
    ensures parsed { OnSome result (Says Kind field.now) }
    ensures none { IfNone result ((cols rows : ℕ) → ¬ IsKindField field.now (DeviceSpec.Console cols rows)) }
{
    let rest = behind(field, b"console:")?;
    let (cols, rows) = cols_and_rows(rest)?;
    Some(DeviceSpec::Console { cols, rows })
}

// The columns and the rows that stand with a colon between them.
fn cols_and_rows(field: &[u8]) -> Option<(u16, u16)>
    ensures some { IfSome result (λ x. IsConsoleField field.now x.0 x.1) }
    ensures none { IfNone result ((cols rows : ℕ) → ¬ IsConsoleField field.now cols rows) }
{
    let (cols, rows) = cut(field, b':');
    Some((number_u16(cols)?, number_u16(rows?)?))
}
