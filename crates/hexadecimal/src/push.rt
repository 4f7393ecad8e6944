//! Writing fields: each call appends the spelling of one value.
//!
//! After an error the output may end in a part of the spelling.

ghost use Rattle.std.specs.Prelude.{◌≡◌, ◌≤◌, ◌++◌, length, OnOk};
ghost use Rattle.hex.specs.Hex.{encode_lower};
ghost use Rattle.hexadecimal.specs.Spelling.{num, fixed, bytes as bytes_field};

use crate::digit::digit_of;
use crate::pairs::spell;
use std::alloc::{AllocError, Allocator};

/// Appends a number without leading zeros.
pub fn push_num<A: Allocator>(out: &mut Vec<u8, A>, n: u64) -> Result<(), AllocError>
    ensures { OnOk result (out.new.items ≡ out.old.items ++ num n) }
{
    if n < 16 {
        out.push(digit_of(n as u8))?;
        return Ok(());
    }
    push_num(out, n / 16)?;
    out.push(digit_of((n % 16) as u8))?;
    Ok(())
}

/// Appends a number by exactly `digits` digits. What is above them is left out.
pub fn push_fixed<A: Allocator>(out: &mut Vec<u8, A>, digits: u16, n: u32) -> Result<(), AllocError>
    ensures { OnOk result (out.new.items ≡ out.old.items ++ fixed digits n) }
{
    if digits == 0 {
        return Ok(());
    }
    push_fixed(out, digits - 1, n / 16)?;
    out.push(digit_of((n % 16) as u8))?;
    Ok(())
}

/// How many bytes are spelled at a time.
const BLOCK: usize = 32;

/// Appends bytes by two digits each, or `-` where there are none.
pub fn push_bytes<A: Allocator>(out: &mut Vec<u8, A>, bytes: &[u8]) -> Result<(), AllocError>
    ensures { OnOk result (out.new.items ≡ out.old.items ++ bytes_field bytes.now) }
{
    if bytes.is_empty() {
        out.push(b'-')?;
        return Ok(());
    }
    let mut rest = bytes;
    while !rest.is_empty() {
        let (block, after) = rest.split_at(rest.len().min(BLOCK));
        push_block(out, block)?;
        rest = after;
    }
    Ok(())
}

// Appends at most `BLOCK` bytes, by two digits each.
fn push_block<A: Allocator>(out: &mut Vec<u8, A>, bytes: &[u8]) -> Result<(), AllocError>
    requires { length bytes.now ≤ 32 }
    ensures { OnOk result (out.new.items ≡ out.old.items ++ encode_lower bytes.now) }
{
    let mut digits = [0; 2 * BLOCK];
    let text = &mut digits[..2 * bytes.len()];
    spell(bytes, text);
    out.extend_from_slice(text)
}
