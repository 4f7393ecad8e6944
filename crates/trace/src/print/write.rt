//! Writing bytes of which it is known what went out, also where the writer fails.

ghost use Rattle.std.specs.Bool.{OnTrue};
ghost use Rattle.std.specs.Io.KnownBytes.{Appends};
ghost use Rattle.trace.specs.Sends.{AppendsFront};

use std::io::{ErrorKind, Write};

/// Writes the bytes, in few calls, and answers whether all of them went out. Where they did not, the
/// first of them did.
pub fn write_whole<W: Write>(out: &mut W, bytes: &[u8]) -> bool
    ensures whole { OnTrue result (Appends (W.contents out.old) (W.contents out.new) bytes.now) }
    ensures front { AppendsFront (W.contents out.old) (W.contents out.new) bytes.now }
{
    let mut sent = 0;
    for _ in 0..u64::MAX {
        if sent >= bytes.len() {
            return true;
        }
        match out.write(&bytes[sent..]) {
            Ok(0) => return false,
            Ok(n) => sent += n,
            Err(e) => {
                if e.kind() != ErrorKind::Interrupted {
                    return false;
                }
            }
        }
    }
    false
}
