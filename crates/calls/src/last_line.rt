//! The last line and the status of a call.

ghost use Rattle.std.specs.Prelude.{◌≡◌, IfErr, OnOk};
ghost use Rattle.std.specs.Io.KnownBytes.{Keeps};
ghost use Rattle.calls.specs.LastLine.{EndsBy};

use crate::fault::Fault;
use replay::finish;
use std::io::Write;
use trace::write_whole;

/// The status where the words are refused.
const REFUSED_USAGE: u8 = 2;

/// The status where a last line can't be written.
const LOST_OUTPUT: u8 = 3;

/// Writes the last line for what came of a call, and answers the status to exit with.
pub fn end<W: Write>(outcome: &Result<(), Fault>, out: &mut W) -> u8
    ensures done { OnOk outcome.now (result ≡ 0) }
    ensures silent { OnOk outcome.now (Keeps (W.contents out.old) (W.contents out.new)) }
    ensures fault { IfErr outcome.now (λ fault. EndsBy fault result (W.contents out.old) (W.contents out.new)) }
{
    match outcome {
        Ok(()) => finish(&Ok(()), out),
        Err(Fault::Usage) => {
            if write_whole(out, b"fault usage\n") {
                REFUSED_USAGE
            } else {
                LOST_OUTPUT
            }
        }
        Err(Fault::Replay(fault)) => finish(&Err(*fault), out),
    }
}
