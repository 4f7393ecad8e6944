//! A number at the front of a line.

ghost use Rattle.std.specs.Prelude.{◌≡◌, ◌++◌, ◌∷◌, IfSome};
ghost use Rattle.hexadecimal.specs.Spelling.{num};

use hexadecimal::value_of;

/// The digits of the largest number.
const MOST_DIGITS: usize = 16;

/// The number of at most 64 bits that stands before the first space of a line, and what follows that space.
#[inline(always)]
pub(crate) fn take_number(line: &[u8]) -> Option<(u64, &[u8])>
    ensures { IfSome result (λ x. line.now ≡ num x.0 ++ 32 ∷ x.1.now) }
{
    if let [b'0', b' ', after @ ..] = line {
        return Some((0, after));
    }
    if line.is_empty() || line[0] == b'0' {
        return None;
    }
    let mut n: u64 = 0;
    for (i, c) in line[..line.len().min(MOST_DIGITS)].iter().enumerate() {
        let Some(digit) = value_of(*c) else {
            return if i > 0 && *c == b' ' {
                Some((n, &line[i + 1..]))
            } else {
                None
            };
        };
        n = n * 16 + u64::from(digit);
    }
    match line.get(MOST_DIGITS) {
        Some(b' ') => Some((n, &line[MOST_DIGITS + 1..])),
        _ => None,
    }
}
