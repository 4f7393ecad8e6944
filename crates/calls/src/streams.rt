//! The numbers of the standard streams.

ghost use Rattle.std.specs.Prelude.{◌<ℤ◌, pos, IfOk};
ghost use Rattle.std.specs.Fd.{file_raw_fd};

use std::fs::File;
use std::io::ErrorKind;
use std::os::fd::{AsRawFd, IntoRawFd};
use std::{fs, io};

/// The number of standard error, the last of the three.
const LAST: i32 = 2;

/// Takes the numbers of the standard streams that were closed at start, so that no file that is opened later gets one,
/// and with it what is meant for the stream. A stream that was closed stays as one: a folder that is open to be read
/// gives and takes no bytes. The answer is open under the lowest number that was free behind them.
pub(crate) fn hold(rt: &HostRuntime) -> io::Result<File>
    ensures behind { IfOk result (λ file. pos 2 <ℤ file_raw_fd file) }
{
    for _stream in 0..=LAST + 1 {
        let file = fs::open(rt, "/")?;
        if file.as_raw_fd() > LAST {
            return Ok(file);
        }
        // it stays open up to the end
        let _number = file.into_raw_fd();
    }
    Err(io::Error::from(ErrorKind::Other))
}
