//! What is typed to the console and what it put out.

ghost use Rattle.std.specs.Prelude.{◌≡◌, ◌++◌, ℕ, List, length, min, take, drop};
ghost use Rattle.console_device.specs.Input.{fitting};
ghost use Rattle.racing_guest.specs.Console.{with_size};
ghost use Rattle.racing_session.specs.Session.{IsTyped, waits_of};

use crate::memory::lent;
use crate::progress::progress_by;
use crate::session::RacingSession;
use crate::told::{Typed, Waits};
use racing_guest::GuestQueue;
use std::alloc::Allocator;

impl<A: Allocator> RacingSession<A> {
    /// Types bytes to the guest's console, and answers how many were taken: the first ones. A console keeps 4096 until its guest
    /// reads them.
    pub fn input(&mut self, bytes: &[u8]) -> Typed
        ghost stood: { List ℕ }
        ensures taken { result.taken ≡ fitting self.old.guest.console.device.pending bytes.now }
        ensures typed { IsTyped stood bytes.now self.old self.new result.progress }
        ensures waits { result.waits ≡ waits_of self.new }
    {
        let pages = lent(&mut self.pages);
        let regions = self.memory.regions();
        let mut mem = self.memory.over(&regions, pages);
        let (taken, so_far) = self.guest.input(bytes, &mut mem, self.limits);
        self.pages = mem.into_pages();
        self.due = self.due.by(GuestQueue::Receive, so_far);
        Typed {
            taken,
            progress: progress_by(self.is_any_due(), false),
            waits: self.waits(),
        }
    }

    /// Gives the guest's console another size, of which its driver is told.
    pub fn resize(&mut self, cols: u16, rows: u16) -> Waits
        ensures resized { self.new ≡ record self.old {
          guest = record self.old.guest { console = with_size cols rows self.old.guest.console };
        } }
        ensures waits { result ≡ waits_of self.new }
    {
        self.guest.resize(cols, rows);
        self.waits()
    }

    /// What the console put out and nobody has taken yet, in two parts.
    pub fn output(&self) -> (&[u8], &[u8])
        ensures { result.0.now ++ result.1.now ≡ self.now.output.bytes }
    {
        self.output.waiting()
    }

    /// How many bytes of what the console put out wait to be taken.
    pub fn output_len(&self) -> usize
        ensures { result ≡ length self.now.output.bytes }
    {
        self.output.len()
    }

    /// Moves the first bytes of what the console put out into `into`, as many as find room, and answers how many they are. The
    /// others stay.
    pub fn take_output(&mut self, into: &mut [u8]) -> usize
        ensures count { result ≡ min (length self.old.output.bytes) (length into.old) }
        ensures moved { into.new ≡ take result self.old.output.bytes ++ drop result into.old }
        ensures left { self.new ≡ record self.old {
          output = record self.old.output { bytes = drop result self.old.output.bytes };
        } }
    {
        self.output.take(into)
    }
}
