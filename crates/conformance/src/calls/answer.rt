//! How an answer is written.

use crate::calls::subject::{Answered, Stuck};
use std::alloc::{AllocError, Global};
use std::fmt::Debug;

/// Bytes, as two hexadecimal digits each: `-` for none.
pub(crate) fn put_bytes(alloc: Global, answer: &mut String, bytes: &[u8]) -> Answered {
    if bytes.is_empty() {
        return put_word(answer, "-");
    }
    let digits = hex::encode(alloc, bytes)?;
    put_word(answer, digits.as_str())
}

/// A number in hexadecimal.
pub(crate) fn put_number(answer: &mut String, number: u64) -> Answered {
    written(write!(answer, "{number:x}"))
}

/// A number, or `none`.
pub(crate) fn put_option(answer: &mut String, number: Option<u64>) -> Answered {
    match number {
        Some(number) => put_number(answer, number),
        None => put_word(answer, "none"),
    }
}

/// `yes` or `no`.
pub(crate) fn put_flag(answer: &mut String, flag: bool) -> Answered {
    put_word(answer, if flag { "yes" } else { "no" })
}

/// `ok`, or the refusal's name.
pub(crate) fn put_result<E: Debug + Drop>(answer: &mut String, outcome: Result<(), E>) -> Answered {
    match outcome {
        Ok(()) => put_word(answer, "ok"),
        Err(refusal) => written(write!(answer, "{refusal:?}")),
    }
}

/// A word.
pub(crate) fn put_word(answer: &mut String, word: &str) -> Answered {
    written(answer.push_str(word))
}

/// What came of writing a part of an answer.
pub(crate) fn written(outcome: Result<(), AllocError>) -> Answered {
    match outcome {
        Ok(()) => Ok(()),
        Err(_) => Err(Stuck::NoMemory),
    }
}
