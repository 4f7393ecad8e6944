//! One hexadecimal digit, from its value and back.

ghost use Rattle.std.specs.Prelude.{◌≡◌, ◌≢◌, ◌<◌, ℕ, IfSome, IfNone};
ghost use Rattle.hexadecimal.specs.Fields.{IsDigit, IsValue};
ghost use Rattle.hexadecimal.specs.Spelling.{digit};

/// What stands in the table for a byte that is no digit.
const NO: u8 = 16;

/// The value of each byte that is a digit.
static VALUES: [u8; 256] = [
    NO, NO, NO, NO, NO, NO, NO, NO, NO, NO, NO, NO, NO, NO, NO, NO, NO, NO, NO, NO, NO, NO, NO, NO,
    NO, NO, NO, NO, NO, NO, NO, NO, NO, NO, NO, NO, NO, NO, NO, NO, NO, NO, NO, NO, NO, NO, NO, NO,
    0, 1, 2, 3, 4, 5, 6, 7, 8, 9, NO, NO, NO, NO, NO, NO, NO, NO, NO, NO, NO, NO, NO, NO, NO, NO,
    NO, NO, NO, NO, NO, NO, NO, NO, NO, NO, NO, NO, NO, NO, NO, NO, NO, NO, NO, NO, NO, NO, NO, 10,
    11, 12, 13, 14, 15, NO, NO, NO, NO, NO, NO, NO, NO, NO, NO, NO, NO, NO, NO, NO, NO, NO, NO, NO,
    NO, NO, NO, NO, NO, NO, NO, NO, NO, NO, NO, NO, NO, NO, NO, NO, NO, NO, NO, NO, NO, NO, NO, NO,
    NO, NO, NO, NO, NO, NO, NO, NO, NO, NO, NO, NO, NO, NO, NO, NO, NO, NO, NO, NO, NO, NO, NO, NO,
    NO, NO, NO, NO, NO, NO, NO, NO, NO, NO, NO, NO, NO, NO, NO, NO, NO, NO, NO, NO, NO, NO, NO, NO,
    NO, NO, NO, NO, NO, NO, NO, NO, NO, NO, NO, NO, NO, NO, NO, NO, NO, NO, NO, NO, NO, NO, NO, NO,
    NO, NO, NO, NO, NO, NO, NO, NO, NO, NO, NO, NO, NO, NO, NO, NO, NO, NO, NO, NO, NO, NO, NO, NO,
    NO, NO, NO, NO, NO, NO, NO, NO, NO, NO, NO, NO, NO, NO,
];

/// The value of a lower case digit. Upper case letters are no digits here.
#[inline]
pub fn value_of(c: u8) -> Option<u8>
    ensures some { IfSome result (λ d. (d < 16) × (digit d ≡ c)) }
    ensures none { IfNone result ((d : ℕ) → d < 16 → digit d ≢ c) }
{
    let value = VALUES[c as usize];
    if value < NO { Some(value) } else { None }
}

/// The value of a byte that is known to be a lower case digit. It is not tested.
#[inline(always)]
pub fn value_at(c: u8) -> u8
    requires { IsDigit c }
    ensures { IsValue c result }
{
    VALUES[c as usize]
}

/// The lower case digit of each value.
static DIGITS: [u8; 16] = *b"0123456789abcdef";

/// The lower case digit of a value below 16.
#[inline]
pub fn digit_of(d: u8) -> u8
    requires { d < 16 }
    ensures { result ≡ digit d }
{
    DIGITS[d as usize]
}
