//! `wants`: whether a driver wants a notification. Its area is written anew for each call.

use crate::calls::answer::put_flag;
use crate::calls::subject::{Answered, Stuck, Subject};
use crate::calls::words::Words;
use guest_memory::GuestMemory;
use std::alloc::Global;
use suppression::{packed_wants, split_wants};

/// Where the driver's area begins.
const AREA: u64 = 0x8000_0000;

/// A memory with room for the driver's area of any queue.
#[derive(Drop)]
pub(crate) struct Wants {
    mem: GuestMemory,
}

/// What a call says behind its name: the queue's size, whether VIRTIO_F_EVENT_IDX was negotiated, both numbers of the
/// driver's area, the first place that was passed, and how many were.
#[derive(Clone, Copy)]
struct Service {
    size: u16,
    event_idx: bool,
    numbers: (u16, u16),
    from: u16,
    passed: u16,
}

impl Wants {
    pub(crate) fn new(alloc: Global) -> Result<Wants, Stuck> {
        match GuestMemory::new(alloc, AREA, 0x1000) {
            Ok(mem) => Ok(Wants { mem }),
            Err(_) => Err(Stuck::NoMemory),
        }
    }

    /// `split_wants`: the numbers are the available ring's flags and used_event.
    fn split(&mut self, service: Service) -> Result<bool, Stuck> {
        let Service {
            size,
            event_idx,
            numbers: (flags, used_event),
            from,
            passed,
        } = service;
        let entries = 2 * u64::from(size);
        let _ = self.mem.put_u16(AREA, flags);
        let _ = self.mem.put_u16(AREA + 4 + entries, used_event);
        if passed > size || !self.mem.holds(AREA, 6 + entries) {
            return Err(Stuck::Conditions);
        }
        Ok(split_wants(&self.mem, AREA, size, event_idx, from, passed))
    }

    /// `packed_wants`: the numbers are those of the driver event suppression structure.
    fn packed(&mut self, service: Service) -> Result<bool, Stuck> {
        let Service {
            size,
            event_idx,
            numbers: (event, flags),
            from,
            passed,
        } = service;
        let places = 2 * u32::from(size);
        let _ = self.mem.put_u16(AREA, event);
        let _ = self.mem.put_u16(AREA + 2, flags);
        if u32::from(from) >= places || u32::from(passed) >= places || !self.mem.holds(AREA, 4) {
            return Err(Stuck::Conditions);
        }
        Ok(packed_wants(&self.mem, AREA, size, event_idx, from, passed))
    }
}

impl Service {
    fn read(words: &mut Words<'_>) -> Service {
        Service {
            size: words.u16(),
            event_idx: words.choice("event_idx", "-"),
            numbers: (words.u16(), words.u16()),
            from: words.u16(),
            passed: words.u16(),
        }
    }
}

impl Subject for Wants {
    fn call(&mut self, words: &mut Words<'_>, answer: &mut String) -> Answered {
        let wanted = match words.name() {
            "split" => self.split(Service::read(words)),
            "packed" => self.packed(Service::read(words)),
            _ => Err(Stuck::Words),
        };
        put_flag(answer, wanted?)
    }
}
