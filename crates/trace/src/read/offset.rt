//! The field that names a register.

ghost use Rattle.std.specs.Prelude.{IfNone, IfSome, OnSome};
ghost use Rattle.hexadecimal.specs.Fields.{IsFixed};
ghost use Rattle.trace.specs.Words.{Offset, Says};

use hexadecimal::fixed_number;

/// The register offset that a field of three digits spells.
#[inline(always)]
pub(crate) fn offset_of(field: &[u8]) -> Option<u16>
    ensures some { IfSome result (λ n. IsFixed 3 field.now n) }
    ensures parsed { OnSome result (Says Offset field.now) }
    ensures none { IfNone result (¬ Says Offset field.now) }
{
    let n = fixed_number(field, 3)?;
    Some(n as u16)
}
