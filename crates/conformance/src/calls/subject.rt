//! What calls are made of.

use crate::calls::words::Words;
use std::alloc::{AllocError, AllocFailed};
use std::fmt;

/// Something whose calls a file has.
pub(crate) trait Subject {
    /// Makes the call that the words say, and writes its answer behind the text.
    fn call(&mut self, words: &mut Words<'_>, answer: &mut String) -> Answered;
}

/// Whether a call was made and its answer written.
pub(crate) type Answered = Result<(), Stuck>;

/// Why a call can't be made.
#[derive(Clone, Copy)]
pub(crate) enum Stuck {
    /// The words are none of this subject's.
    Words,
    /// What the call is made of isn't there, or doesn't meet the call's conditions.
    Conditions,
    /// There is no memory to make it.
    NoMemory,
}

impl fmt::Display for Stuck {
    fn fmt<W: fmt::Write>(&self, f: &mut fmt::Formatter<W>) -> fmt::Result {
        f.write_str(match self {
            Stuck::Words => "no such call",
            Stuck::Conditions => "the call's conditions don't hold",
            Stuck::NoMemory => "no memory",
        })
    }
}

impl From<AllocError> for Stuck {
    fn from(_error: AllocError) -> Stuck {
        Stuck::NoMemory
    }
}

impl<T: Drop> From<AllocFailed<T>> for Stuck {
    fn from(_error: AllocFailed<T>) -> Stuck {
        Stuck::NoMemory
    }
}
