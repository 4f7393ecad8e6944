//! What waits in a console, as it is saved and taken up again.

ghost use Rattle.std.specs.Prelude.{◌≡◌, ◌^◌, ◌≤◌, ◌++◌, ℕ, IfSome, List, Some, length};
ghost use Rattle.device_list.specs.Waiting.{Reads, terminal_at, terminal_with, waiting_in_terminal};

use crate::terminal::{TERMINAL_LIMIT, Terminal};
use crate::waiting::{Reader, write_counted};
use byteorder::{ByteOrder, LittleEndian};
use console_device::Outlet;
use std::alloc::Allocator;

/// How much input may be pending.
const MOST_PENDING: usize = 4096;

/// What waits in a console, in the bytes of a snapshot.
#[derive(Drop)]
pub(crate) struct SavedTerminal<'a> {
    cols: u16,
    rows: u16,
    pending: &'a [u8],
    output: &'a [u8],
}

impl<'a> SavedTerminal<'a> {
    pub(crate) fn read(left: &mut Reader<'a>) -> Option<SavedTerminal<'a>>
        ensures read { Reads terminal_at (λ x. terminal_with x.cols x.rows x.pending.now x.output.now)
            left.old.left.now result left.new.left.now }
        ensures pending { IfSome result (λ x. length x.pending.now ≤ 4096) }
        ensures output { IfSome result (λ x. length x.output.now ≤ 65536) }
    {
        Some(SavedTerminal {
            cols: left.u16()?,
            rows: left.u16()?,
            pending: left.counted(MOST_PENDING)?,
            output: left.counted(TERMINAL_LIMIT as usize)?,
        })
    }
}

impl<A: Allocator> Terminal<A> {
    /// In how many bytes what waits is saved.
    pub(crate) fn waiting_len(&self) -> usize
        ensures len { result ≡ length (waiting_in_terminal self.now) }
        ensures most { result ≤ 2 ^ 18 }
    {
        let (first, later) = self.output.waiting();
        12 + self.console.pending_len() + first.len() + later.len()
    }

    /// Writes that into a buffer of that length.
    pub(crate) fn write_waiting(&self, into: &mut [u8])
        requires len { length into.old ≡ length (waiting_in_terminal self.now) }
        ensures text { into.new ≡ waiting_in_terminal self.now }
        ensures back { (rest : List ℕ) → terminal_at (waiting_in_terminal self.now ++ rest) ≡ Some (self.now, rest) }
    {
        let (cols, rows) = self.console.size();
        let (size, counted) = into.split_at_mut(4);
        LittleEndian::write_u16(&mut size[..2], cols);
        LittleEndian::write_u16(&mut size[2..], rows);
        let (pending, output) = counted.split_at_mut(4 + self.console.pending_len());
        let (first, later) = self.console.pending();
        write_counted(first, later, pending);
        let (first, later) = self.output.waiting();
        write_counted(first, later, output);
    }

    /// Has what was saved wait, in the place of all that does.
    pub(crate) fn restore(&mut self, saved: &SavedTerminal<'_>)
        requires pending { length saved.now.pending.now ≤ 4096 }
        requires output { length saved.now.output.now ≤ 65536 }
        ensures { self.new ≡ terminal_with saved.now.cols saved.now.rows saved.now.pending.now saved.now.output.now }
    {
        self.console.restore(saved.pending, saved.cols, saved.rows);
        self.output.clear();
        self.output.append(saved.output);
    }
}
