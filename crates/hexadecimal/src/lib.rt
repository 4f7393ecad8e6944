//! Numbers and bytes as hexadecimal text, both ways.
//!
//! `digit` is one digit, and `pairs` the two that spell a byte. `number_field` and `byte_field` read a field, and `push` writes one. `fixed_digits` is a number of 32 bits.
#![tactic(auto)]

mod byte_field;
mod digit;
mod fixed_digits;
mod number_field;
mod pairs;
mod push;

pub use byte_field::{are_bytes, are_digits, digits_len, read_bytes, spelled_len};
pub use digit::{digit_of, value_at, value_of};
pub use fixed_digits::eight_digits;
pub use number_field::{fixed_number, fixed_value, number, number_u8, number_u16, number_u32};
pub use pairs::{read_pairs, spell};
pub use push::{push_bytes, push_fixed, push_num};
