//! A writer of records that says before the line of each what its event was, and behind it what came of that.

ghost use Rattle.std.specs.Prelude.{OnOk, false};
ghost use Rattle.std.specs.Io.KnownBytes.{Keeps};
ghost use Rattle.show.specs.Woven.{records_of};
ghost use Rattle.show.specs.Weaver.{weaver_records};

use crate::weave::tell::Tell;
use crate::weave::woven::Woven;
use std::alloc::Global;
use std::io;
use std::io::{ErrorKind, Write};

/// Such a writer. Of a record no more than a piece is held.
#[derive(Drop)]
pub struct Weaver<T: Tell + Drop, W: Write + Drop> {
    woven: Woven<W>,
    teller: T,
}

impl<T: Tell + Drop, W: Write + Drop> Weaver<T, W> {
    /// One in front of a writer.
    pub fn new(alloc: Global, teller: T, out: W) -> Weaver<T, W>
        ensures { Keeps (records_of false (W.contents out)) (weaver_records W.contents result) }
    {
        Weaver {
            woven: Woven::new(alloc, out),
            teller,
        }
    }

    // Says what came of the last event, and what the next one is.
    fn say_next(&mut self) -> io::Result<()>
        ensures { Keeps (weaver_records W.contents self.old) (weaver_records W.contents self.new) }
    {
        self.woven.say(self.teller.tail())?;
        self.teller.next();
        self.woven.say(self.teller.head())
    }

    /// Says how it ended, and writes all that waits.
    pub fn end(self) -> (W, io::Result<()>)
        ensures { OnOk result.1 (Keeps (weaver_records W.contents self) (records_of false (W.contents result.0))) }
    {
        let Weaver {
            mut woven,
            mut teller,
        } = self;
        if let Err(error) = woven.say(teller.tail()) {
            return (woven.into_out(), Err(error));
        }
        teller.end();
        if let Err(error) = woven.say(teller.head()) {
            return (woven.into_out(), Err(error));
        }
        let (out, is_whole) = woven.end();
        if is_whole {
            (out, Ok(()))
        } else {
            (out, Err(io::Error::from(ErrorKind::WriteZero)))
        }
    }

    /// The writer, after records that didn't come to their end, and whether there was no memory for some of it. What waits
    /// for the writer is dropped.
    pub fn give_up(self) -> (W, bool) {
        let Weaver { woven, teller: _ } = self;
        let is_full = woven.is_full();
        (woven.into_out(), is_full)
    }
}

impl<T: Tell + Drop, W: Write + Drop> Write for Weaver<T, W> {
    ghost use Rattle.show.specs.Weaver.{weaver_records};

    ghost contents = { weaver_records W.contents };

    fn write(&mut self, bytes: &[u8]) -> io::Result<usize> {
        self.woven.pass_on()?;
        if !self.woven.is_inside() {
            self.say_next()?;
        }
        self.woven.put(bytes)
    }

    fn flush(&mut self) -> io::Result<()> {
        Ok(())
    }
}
