//! Input gathered whole from a reader.

ghost use Rattle.std.specs.Prelude.{◌≡◌, ◌⊎◌, IfOk, IfErr, IfSome, OnOk};
ghost use Rattle.std.specs.Io.KnownBytes.{IsAtEnd};

use crate::fault::ReplayFault;
use std::alloc::Allocator;
use std::io::{ErrorKind, Read};

/// How many bytes are read at a time.
const CHUNK: usize = 65536;

/// Gathers what is left of the reader. Unlike `read_to_end` it tells want of memory from a reader that
/// fails.
pub fn gather<R: Read, A: Allocator>(alloc: A, reader: &mut R) -> Result<Vec<u8, A>, ReplayFault>
    ensures all { IfOk result (λ input. IfSome (R.remaining reader.old) (λ bytes. input.items ≡ bytes)) }
    ensures end { OnOk result (IsAtEnd (R.remaining reader.new)) }
    ensures fault { IfErr result (λ fault. (fault ≡ ReplayFault.Read) ⊎ (fault ≡ ReplayFault.NoMemory)) }
{
    let mut input = Vec::new(alloc);
    let mut chunk = [0; CHUNK];
    for _ in 0..u64::MAX {
        match reader.read(&mut chunk) {
            Ok(0) => return Ok(input),
            Ok(n) => {
                let Ok(()) = input.extend_from_slice(&chunk[..n]) else {
                    return Err(ReplayFault::NoMemory);
                };
            }
            Err(e) => {
                if e.kind() != ErrorKind::Interrupted {
                    return Err(ReplayFault::Read);
                }
            }
        }
    }
    Err(ReplayFault::Read)
}
