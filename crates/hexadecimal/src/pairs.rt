//! Bytes as pairs of digits, and back: few by `hex`, and many by loops without a branch in their bodies, so that many bytes
//! are taken at once.

ghost use Rattle.std.specs.Prelude.{◌≡◌, ◌+◌, ◌*◌, ◌/◌, ◌%◌, ◌^◌, ◌<◌, All, length};
ghost use Rattle.hex.specs.Hex.{encode_lower};
ghost use Rattle.hexadecimal.specs.Spelling.{digit};
ghost use Rattle.hexadecimal.specs.Fields.{IsDigit};

/// Up to so many bytes go by `hex`, one after another. More are taken eight at a time.
const FEW: usize = 7;

/// Writes bytes by two digits each.
pub fn spell(bytes: &[u8], digits: &mut [u8])
    requires { length digits.old ≡ 2 * length bytes.now }
    ensures { digits.new ≡ encode_lower bytes.now }
{
    if bytes.len() <= FEW {
        let _ = hex::encode_to_slice(bytes, digits);
    } else {
        spell_many(bytes, digits);
    }
}

/// Writes the bytes that the digits spell, two for each.
pub fn read_pairs(digits: &[u8], bytes: &mut [u8])
    requires digits { All IsDigit digits.now }
    requires size { length digits.now ≡ 2 * length bytes.old }
    ensures spelled { encode_lower bytes.new ≡ digits.now }
    ensures fits { All (λ b. b < 2 ^ 8) bytes.new }
{
    if bytes.len() <= FEW {
        let _ = hex::decode_to_slice(digits, bytes);
    } else {
        read_many(digits, bytes);
    }
}

// The same of many bytes.
fn spell_many(bytes: &[u8], digits: &mut [u8])
    requires { length digits.old ≡ 2 * length bytes.now }
    ensures { digits.new ≡ encode_lower bytes.now }
{
    for i in 0..bytes.len() {
        let pair = computed_pair(bytes[i]);
        digits[2 * i] = (pair % 256) as u8;
        digits[2 * i + 1] = (pair / 256) as u8;
    }
}

// The two digits of a byte as a number, whose lower byte is the first. It takes no table, so that many are made at once:
// a letter is 39 above the figure that would stand in its place.
fn computed_pair(byte: u8) -> u16
    ensures { result ≡ digit (byte / 16) + 256 * digit (byte % 16) }
{
    let values = u16::from(byte / 16) + 256 * u16::from(byte % 16);
    let letters = (values + 0x0606) / 16 & 0x0101;
    values + 0x3030 + 39 * letters
}

// The same of many bytes.
fn read_many(digits: &[u8], bytes: &mut [u8])
    requires digits { All IsDigit digits.now }
    requires size { length digits.now ≡ 2 * length bytes.old }
    ensures spelled { encode_lower bytes.new ≡ digits.now }
    ensures fits { All (λ b. b < 2 ^ 8) bytes.new }
{
    let (pairs, _) = digits.as_chunks::<2>();
    for i in 0..bytes.len() {
        bytes[i] = byte_of(u16::from_le_bytes(pairs[i]));
    }
}

// The byte of two digits, of which the first is the lower half of the pair. Both values are found at once: a digit's lower
// half is its value, and 9 less where it is a letter, whose byte is above 63.
fn byte_of(pair: u16) -> u8
    requires high { IsDigit (pair % 256) }
    requires low { IsDigit (pair / 256) }
    ensures high { digit (result / 16) ≡ pair % 256 }
    ensures low { digit (result % 16) ≡ pair / 256 }
{
    let values = (pair & 0x0f0f) + 9 * (pair / 64 & 0x0101);
    ((values * 16 + values / 256) % 256) as u8
}
