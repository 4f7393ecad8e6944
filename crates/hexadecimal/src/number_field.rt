//! Fields that spell numbers.

ghost use Rattle.std.specs.Prelude.{◌≡◌, ◌≤◌, ℕ, IfSome, IfNone, OnSome};
ghost use Rattle.hexadecimal.specs.Fields.{IsNum, IsFixed, SpellsFixed, SpellsNumber};

use crate::digit::{value_at, value_of};

/// The digits of the largest number.
const MOST_DIGITS: usize = 16;

/// The number of at most 64 bits that a field spells.
pub fn number(field: &[u8]) -> Option<u64>
    ensures some { IfSome result (λ n. IsNum 64 field.now n) }
    ensures said { OnSome result (SpellsNumber 64 field.now) }
    ensures none { IfNone result (¬ SpellsNumber 64 field.now) }
{
    if field.is_empty() || field.len() > MOST_DIGITS {
        return None;
    }
    let mut n: u64 = 0;
    for (i, c) in field.iter().enumerate() {
        if i > 0 && n == 0 {
            return None;
        }
        n = n * 16 + u64::from(value_of(*c)?);
    }
    Some(n)
}

/// The same of at most 32 bits.
pub fn number_u32(field: &[u8]) -> Option<u32>
    ensures some { IfSome result (λ n. IsNum 32 field.now n) }
    ensures said { OnSome result (SpellsNumber 32 field.now) }
    ensures none { IfNone result (¬ SpellsNumber 32 field.now) }
{
    u32::try_from(number(field)?).ok()
}

/// The same of at most 16 bits.
pub fn number_u16(field: &[u8]) -> Option<u16>
    ensures some { IfSome result (λ n. IsNum 16 field.now n) }
    ensures said { OnSome result (SpellsNumber 16 field.now) }
    ensures none { IfNone result (¬ SpellsNumber 16 field.now) }
{
    u16::try_from(number(field)?).ok()
}

/// The same of at most 8 bits.
pub fn number_u8(field: &[u8]) -> Option<u8>
    ensures some { IfSome result (λ n. IsNum 8 field.now n) }
    ensures said { OnSome result (SpellsNumber 8 field.now) }
    ensures none { IfNone result (¬ SpellsNumber 8 field.now) }
{
    u8::try_from(number(field)?).ok()
}

/// The number that a field of exactly `digits` digits spells.
#[inline(always)]
pub fn fixed_number(field: &[u8], digits: usize) -> Option<u32>
    requires { digits ≤ 8 }
    ensures some { IfSome result (λ n. IsFixed digits field.now n) }
    ensures none { IfNone result ((n : ℕ) → ¬ IsFixed digits field.now n) }
{
    if field.len() != digits {
        return None;
    }
    let mut n: u32 = 0;
    for c in field {
        n = n * 16 + u32::from(value_of(*c)?);
    }
    Some(n)
}

/// The number that a field of at most eight digits is known to spell. They are not tested.
#[inline(always)]
pub fn fixed_value(field: &[u8]) -> u32
    requires { SpellsFixed field.now }
    ensures { (digits n : ℕ) → IsFixed digits field.now n → result ≡ n }
{
    let mut n: u32 = 0;
    for c in field {
        n = n * 16 + u32::from(value_at(*c));
    }
    n
}
