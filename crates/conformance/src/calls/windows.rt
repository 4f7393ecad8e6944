//! `windows`: the registers of a device's window.

use crate::calls::answer::{put_number, put_word, written};
use crate::calls::subject::{Answered, Stuck, Subject};
use crate::calls::words::Words;
use guest_memory::GuestMemory;
use mmio_window::{Action, CONFIGURATION_LEN, DeviceKind, Window};
use negotiation::{Features, Flags};
use std::alloc::Global;

/// A window, its guest's memory, and its device's configuration.
#[derive(Drop)]
pub(crate) struct Windows {
    mem: GuestMemory,
    window: Window,
    config: [u8; CONFIGURATION_LEN],
}

impl Windows {
    /// A block window that offers nothing, over 64 KiB from 80000000 on.
    pub(crate) fn new(alloc: Global) -> Result<Windows, Stuck> {
        let Ok(mem) = GuestMemory::new(alloc, 0x8000_0000, 0x1_0000) else {
            return Err(Stuck::NoMemory);
        };
        Ok(Windows {
            mem,
            window: Window::new(DeviceKind::Block, Features::empty()),
            config: [0; CONFIGURATION_LEN],
        })
    }

    // A new window that offers these features.
    fn replace(
        &mut self,
        kind: DeviceKind,
        words: &mut Words<'_>,
        answer: &mut String,
    ) -> Answered {
        self.window = Window::new(kind, Features::from_bits_retain(words.u64()));
        put_word(answer, "ok")
    }

    // Sets a byte of the configuration.
    fn configure(&mut self, words: &mut Words<'_>, answer: &mut String) -> Answered {
        let at = usize::from(words.u16());
        let byte = words.u8();
        if at >= CONFIGURATION_LEN {
            return Err(Stuck::Conditions);
        }
        self.config[at] = byte;
        put_word(answer, "ok")
    }

    // Writes a register, and answers what is left for the device to do.
    fn write(&mut self, words: &mut Words<'_>) -> Action {
        let offset = words.u16();
        let width = words.u8();
        let value = words.u32();
        self.window.write(offset, width, value, &self.mem)
    }

    // Reads a register.
    fn read(&self, words: &mut Words<'_>) -> u32 {
        let offset = words.u16();
        let width = words.u8();
        self.window.read(offset, width, &self.config)
    }
}

fn put_action(answer: &mut String, action: Action) -> Answered {
    match action {
        Action::Notify(queue) => written(write!(answer, "notify {queue:x}")),
        Action::Reset => put_word(answer, "reset"),
        Action::ConfigWrite {
            offset,
            width,
            value,
        } => written(write!(answer, "config {offset:x} {width:x} {value:x}")),
        Action::None => put_word(answer, "nothing"),
    }
}

impl Subject for Windows {
    fn call(&mut self, words: &mut Words<'_>, answer: &mut String) -> Answered {
        match words.name() {
            "block" => self.replace(DeviceKind::Block, words, answer),
            "console" => self.replace(DeviceKind::Console, words, answer),
            "configure" => self.configure(words, answer),
            "write" => put_action(answer, self.write(words)),
            "read" => put_number(answer, u64::from(self.read(words))),
            "negotiated" => {
                let negotiated = self.window.negotiation().negotiated();
                put_number(answer, negotiated.bits())
            }
            _ => Err(Stuck::Words),
        }
    }
}
