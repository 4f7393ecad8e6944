//! The device: its size, its pending input, its features (5.3.3) and its configuration space (5.3.4).

ghost use Rattle.std.specs.Prelude.{◌≡◌, ◌++◌, ◌+◌, ◌∷◌, ◌≤◌, [], drop, length, take, IfOk, OnOk, OnErr};
ghost use Rattle.negotiation.specs.Features.{feature_bits};
ghost use Rattle.console_device.specs.Config.{config_of, console_features};
ghost use Rattle.console_device.specs.Console.{Console};
ghost use Rattle.console_device.specs.Device.{Fits, MayRefuse};
ghost use Rattle.console_device.specs.Input.{fitting};

use crate::no_memory::NoMemory;
use crate::outlet::Outlet;
use crate::pending::Pending;
use byteorder::{ByteOrder, LittleEndian};
use mmio_window::CONFIGURATION_OFFSET;
use negotiation::{Features, Flags};
use std::alloc::{Allocator, Global};
use std::marker::Model;

/// The queue for input (5.3.2).
pub const RECEIVEQ: u16 = 0;

/// The queue for output (5.3.2).
pub const TRANSMITQ: u16 = 1;

/// Where a driver writes to the console's window without a queue: emerg_wr (5.3.4).
pub const EMERGENCY_WRITE: u16 = CONFIGURATION_OFFSET + 8;

/// A console of one port.
#[derive(Drop)]
pub struct ConsoleDevice<A: Allocator = Global> {
    pub(crate) pending: Pending<A>,
    pub(crate) cols: u16,
    pub(crate) rows: u16,
}

impl<A: Allocator> Model for ConsoleDevice<A> {
    ghost use Rattle.console_device.specs.Console.{Console};

    ghost Value = { Console };

    ghost view = { λ c. record { pending = c.pending; cols = c.cols; rows = c.rows } };
}

impl<A: Allocator + Copy> ConsoleDevice<A> {
    /// A console of this size with no input. All the room that its input may need is made here.
    pub fn new(alloc: A, cols: u16, rows: u16) -> Result<ConsoleDevice<A>, NoMemory>
        ensures { IfOk result (λ console. console ≡ record { pending = []; cols = cols; rows = rows }) }
    {
        let pending = Pending::new(alloc)?;
        Ok(ConsoleDevice {
            pending,
            cols,
            rows,
        })
    }
}

impl<A: Allocator> ConsoleDevice<A> {
    /// The features that it offers (5.3.3).
    pub fn features(&self) -> Features
        ensures { feature_bits result ≡ console_features }
    {
        Features::of_every_device()
            .union(Features::CONSOLE_SIZE)
            .union(Features::CONSOLE_EMERG_WRITE)
    }

    /// Takes what is typed: the first bytes that fit become pending. Answers how many they are.
    pub fn input(&mut self, bytes: &[u8]) -> usize
        ensures count { result ≡ fitting self.old.pending bytes.now }
        ensures taken { self.new ≡ record self.old { pending = self.old.pending ++ take result bytes.now } }
        ensures limit { length self.new.pending ≤ 4096 }
    {
        self.pending.append(bytes)
    }

    /// Takes the first pending bytes away, once they stand in a buffer of the driver.
    #[inline(always)]
    pub(crate) fn skip_input(&mut self, count: usize)
        requires { count ≤ length self.old.pending }
        ensures { self.new ≡ record self.old { pending = drop count self.old.pending } }
    {
        self.pending.skip(count);
    }

    /// Puts this size and these pending bytes in the place of its own.
    pub fn restore(&mut self, pending: &[u8], cols: u16, rows: u16)
        requires { length pending.now ≤ 4096 }
        ensures { self.new ≡ record { pending = pending.now; cols = cols; rows = rows } }
    {
        self.pending.replace(pending);
        self.cols = cols;
        self.rows = rows;
    }

    /// Puts out the byte of an emergency write (5.3.4, 5.3.5.1).
    pub fn emergency<O: Outlet>(&mut self, byte: u8, out: &mut O) -> Result<(), NoMemory>
        ensures ok { OnOk result (O.bytes out.new ≡ O.bytes out.old ++ byte ∷ []) }
        ensures fits { OnOk result (Fits (O.limit out.old) (length (O.bytes out.old) + 1)) }
        ensures err { OnErr result (O.bytes out.new ≡ O.bytes out.old) }
        ensures refused { OnErr result (MayRefuse (O.limit out.old) (length (O.bytes out.old) + 1)) }
        ensures limit { O.limit out.new ≡ O.limit out.old }
        ensures same { self.new ≡ self.old }
    {
        out.make_room(1)?;
        out.append(&[byte]);
        Ok(())
    }

    /// Changes the size. Its window is told by the caller.
    pub fn resize(&mut self, cols: u16, rows: u16)
        ensures { self.new ≡ record self.old { cols = cols; rows = rows } }
    {
        self.cols = cols;
        self.rows = rows;
    }

    /// The configuration space (5.3.4), little-endian: cols at 0, rows at 2; max_nr_ports and emerg_wr read 0.
    pub fn config(&self) -> [u8; 64]
        ensures { result ≡ config_of self.now.cols self.now.rows }
    {
        let mut config = [0; 64];
        LittleEndian::write_u16(&mut config[..2], self.cols);
        LittleEndian::write_u16(&mut config[2..4], self.rows);
        config
    }
}
