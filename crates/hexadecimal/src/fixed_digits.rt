//! A number of 32 bits by its eight digits, two at a time.

ghost use Rattle.std.specs.Prelude.{◌≡◌, ◌+◌, ◌*◌, ◌/◌, ◌%◌};
ghost use Rattle.hexadecimal.specs.Spelling.{digit, fixed};

/// The two digits of each byte, one byte after another.
static PAIRS: [u8; 512] = *b"\
    000102030405060708090a0b0c0d0e0f101112131415161718191a1b1c1d1e1f\
    202122232425262728292a2b2c2d2e2f303132333435363738393a3b3c3d3e3f\
    404142434445464748494a4b4c4d4e4f505152535455565758595a5b5c5d5e5f\
    606162636465666768696a6b6c6d6e6f707172737475767778797a7b7c7d7e7f\
    808182838485868788898a8b8c8d8e8f909192939495969798999a9b9c9d9e9f\
    a0a1a2a3a4a5a6a7a8a9aaabacadaeafb0b1b2b3b4b5b6b7b8b9babbbcbdbebf\
    c0c1c2c3c4c5c6c7c8c9cacbcccdcecfd0d1d2d3d4d5d6d7d8d9dadbdcdddedf\
    e0e1e2e3e4e5e6e7e8e9eaebecedeeeff0f1f2f3f4f5f6f7f8f9fafbfcfdfeff";

/// The eight digits of a number, leading zeros included.
#[inline]
pub fn eight_digits(n: u32) -> [u8; 8]
    ensures { result ≡ fixed 8 n }
{
    let first = pair_of((n / 0x100_0000) as u8);
    let second = pair_of((n / 0x1_0000 % 256) as u8);
    let third = pair_of((n / 256 % 256) as u8);
    let fourth = pair_of((n % 256) as u8);
    let low = u64::from(first) + 0x1_0000 * u64::from(second);
    let high = u64::from(third) + 0x1_0000 * u64::from(fourth);
    (low + 0x1_0000_0000 * high).to_le_bytes()
}

// The two digits of a byte as a number, whose lower byte is the first of them.
fn pair_of(byte: u8) -> u16
    ensures { result ≡ digit (byte / 16) + 256 * digit (byte % 16) }
{
    let at = 2 * byte as usize;
    u16::from_le_bytes([PAIRS[at], PAIRS[at + 1]])
}
