//! A console among the further devices: a console device, and the output that its host hasn't taken.

ghost use Rattle.std.specs.Prelude.{◌≡◌, ◌++◌, IfOk, length};
ghost use Rattle.std.specs.Option.{option_map};
ghost use Rattle.guest_memory.specs.Memory.{SameRange};
ghost use Rattle.mmio_window.specs.Soundness.{IsSound};
ghost use Rattle.negotiation.specs.Features.{feature_bits};
ghost use Rattle.console_device.specs.Config.{config_of, console_features};
ghost use Rattle.console_device.specs.Input.{fitting};
ghost use Rattle.device_list.specs.Terminal.{TerminalServesIn, fresh_terminal, is_terminal_starving, output_of, terminal_configured, with_emergency, with_size, with_typed, without_output};

mod saved;

use chain::{Chain, Progress};
use console_device::{ConsoleDevice, EMERGENCY_WRITE, RECEIVEQ, TRANSMITQ};
use guest_memory::GuestMemory;
use mmio_window::{CONFIGURATION_LEN, Stage, Window};
use negotiation::Features;
use network_device::NoMemory;
use output_queue::OutputQueue;
pub(crate) use saved::SavedTerminal;
use served_memory::{Limits, Served};
use std::alloc::{Allocator, Global};
use std::marker::Model;

/// How many bytes of a console's output may wait: this project's choice.
pub const TERMINAL_LIMIT: u32 = 65536;

/// A console and the output that waits for its host. All its memory is taken once.
#[derive(Drop)]
pub struct Terminal<A: Allocator = Global> {
    console: ConsoleDevice<A>,
    output: OutputQueue<A>,
}

impl<A: Allocator> Model for Terminal<A> {
    ghost use Rattle.std.specs.Prelude.{◌≡◌};
    ghost use Rattle.device_list.specs.Terminal.{Terminal, terminal_limit};

    ghost Value = { Terminal };

    ghost view = { λ t. record { console = t.console; waiting = t.output.bytes } };

    ghost invariant = { λ t. t.output.limit ≡ terminal_limit };
}

impl<A: Allocator + Copy> Terminal<A> {
    /// One of this size, for which nothing waits.
    pub(crate) fn new(alloc: A, cols: u16, rows: u16) -> Result<Terminal<A>, NoMemory>
        ensures { IfOk result (λ terminal. terminal ≡ fresh_terminal cols rows) }
    {
        let Ok(console) = ConsoleDevice::new(alloc, cols, rows) else {
            return Err(NoMemory);
        };
        let Ok(output) = OutputQueue::new(alloc, TERMINAL_LIMIT) else {
            return Err(NoMemory);
        };
        Ok(Terminal { console, output })
    }
}

impl<A: Allocator> Terminal<A> {
    /// Its columns and rows.
    pub fn size(&self) -> (u16, u16)
        ensures cols { result.0 ≡ self.now.console.cols }
        ensures rows { result.1 ≡ self.now.console.rows }
    {
        self.console.size()
    }

    /// The features that it offers (5.3.3).
    pub(crate) fn features(&self) -> Features
        ensures { feature_bits result ≡ console_features }
    {
        self.console.features()
    }

    /// Its configuration space (5.3.4).
    pub(crate) fn config(&self) -> [u8; CONFIGURATION_LEN]
        ensures { result ≡ config_of self.now.console.cols self.now.console.rows }
    {
        self.console.config()
    }

    /// Takes what is typed: the first bytes that fit. Answers how many they are.
    pub(crate) fn supply(&mut self, bytes: &[u8]) -> usize
        ensures count { result ≡ fitting self.old.console.pending bytes.now }
        ensures taken { self.new ≡ with_typed bytes.now self.old }
    {
        self.console.input(bytes)
    }

    /// All output that waits for the host, in two parts.
    pub(crate) fn sent(&self) -> Option<(&[u8], &[u8])>
        ensures { option_map (λ parts. parts.0.now ++ parts.1.now) result ≡ output_of self.now }
    {
        if self.output.len() == 0 {
            return None;
        }
        Some(self.output.waiting())
    }

    /// Takes that output away, and answers how many bytes it has. There is no answer where none waits.
    pub(crate) fn take_sent(&mut self) -> Option<usize>
        ensures count { result ≡ option_map (λ sent. length sent) (output_of self.old) }
        ensures taken { self.new ≡ without_output self.old }
    {
        let count = self.output.len();
        if count == 0 {
            return None;
        }
        self.output.clear();
        Some(count)
    }

    /// Changes the size. Its window is told by the caller.
    pub(crate) fn resize(&mut self, cols: u16, rows: u16)
        ensures { self.new ≡ with_size cols rows self.old }
    {
        self.console.resize(cols, rows);
    }

    /// Takes what its driver wrote to its configuration, at this offset of its window.
    pub(crate) fn configure(&mut self, offset: u16, value: u32)
        ensures { self.new ≡ terminal_configured offset value self.old }
    {
        if offset == EMERGENCY_WRITE {
            self.emergency((value % 256) as u8);
        }
    }

    /// Puts the byte of an emergency write (5.3.4) behind the output that waits, if there is room.
    fn emergency(&mut self, byte: u8)
        ensures { self.new ≡ with_emergency byte self.old }
    {
        let _ = self.console.emergency(byte, &mut self.output);
    }

    /// Serves a piece of the queue of this number in its window: pending input goes to the driver, and the bytes that
    /// the driver sent are taken while there is room.
    #[inline(always)]
    pub(crate) fn serve_in<G: Served>(
        &mut self,
        q: u16,
        mem: &mut G,
        window: &mut Window,
        stage: Stage,
        limits: Limits,
        chain: &mut Chain,
        room: &mut G::Room,
    ) -> Progress
        requires sound { IsSound (G.world.last (G.seen mem.old)) window.old }
        ensures serves { TerminalServesIn G.world stage limits result self.old q (G.seen mem.old) (G.seen mem.new) window.old
            window.new self.new }
        ensures range { SameRange (G.world.last (G.seen mem.old)) (G.world.last (G.seen mem.new)) }
        ensures sound { IsSound (G.world.last (G.seen mem.new)) window.new }
    {
        match q {
            RECEIVEQ => self
                .console
                .serve_receive_in(mem, window, stage, limits, chain, room),
            TRANSMITQ => {
                let out = &mut self.output;
                match self
                    .console
                    .serve_transmit_in(mem, window, out, stage, limits, chain, room)
                {
                    Ok(progress) => progress,
                    Err(_) => Progress::Done,
                }
            }
            _ => Progress::Done,
        }
    }

    /// Whether a chain is on offer in its receive queue and no input is pending for that.
    pub(crate) fn starved<M: Allocator>(
        &self,
        mem: &GuestMemory<M>,
        window: &Window,
        room: &mut Chain,
    ) -> bool
        requires sound { IsSound mem.now window.now }
        ensures { result ≡ is_terminal_starving self.now mem.now window.now }
    {
        self.console.pending_len() == 0 && window.has_offer(RECEIVEQ, mem, room)
    }
}
