//! Places and positions, which are counted round a ring.

ghost use Rattle.std.specs.Prelude.{◌≡◌, ◌<◌, ◌*◌, ◌%◌};

/// A number modulo another, of which it is below the double.
#[inline(always)]
pub fn reduced(n: u16, modulus: u16) -> u16
    requires { n < 2 * modulus }
    ensures { result ≡ n % modulus }
{
    if n < modulus { n } else { n - modulus }
}
