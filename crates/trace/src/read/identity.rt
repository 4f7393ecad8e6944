//! The field that spells a slot's identity.

ghost use Rattle.std.specs.Prelude.{IfNone, IfSome};
ghost use Rattle.trace.specs.Words.{Identity, IsIdentityField, Says};

use crate::read::bytes_of::fill;

/// How many bytes an identity has (5.2.6).
const IDENTITY_LEN: usize = 20;

/// The identity that a field spells by two digits for each of its bytes.
pub fn identity_of(field: &[u8]) -> Option<[u8; IDENTITY_LEN]>
    ensures some { IfSome result (λ bs. IsIdentityField field.now bs) }
    ensures none { IfNone result (¬ Says Identity field.now) }
{
    let mut identity = [0; IDENTITY_LEN];
    fill(&mut identity, field)?;
    Some(identity)
}
