//! Going along with a replay: each event is handled by a board of one's own, and said.

use crate::device::{Access, DeviceName, access_of, device_of, told_of};
use crate::guest::{SlotQueue, ring_of};
use crate::look::look;
use crate::seen::Guest;
use crate::served::Service;
use crate::service::serve;
use crate::watched::Watched;
use crate::weave::Text;
use crate::wording::{
    Mistake, SHOWN, read_mistake, say_disk, say_event, say_place, say_value, write_mistake,
};
use board::{Event, EventKind, HostEvent, Reply, SlotSpec};
use chain::{Chain, Fault};
use guest_memory::RegionSpec;
use mmio_window::Queue;
use negotiation::{Features, Flags};
use std::alloc::{AllocError, Global};
use trace::{Format, Trace, Version};

/// The offset of QueueNotify (4.2.2).
const QUEUE_NOTIFY: u16 = 0x050;

/// How many tags a slot has at most.
const MOST_TAGS: u8 = 64;

/// How many mistakes are listed.
const MOST_LISTED: u64 = 1000;

/// A board that goes along, and what was seen of it.
#[derive(Drop)]
pub struct Watcher {
    board: Watched,
    alloc: Global,
    guests: Vec<Guest>,
    chain: Chain,
    output: Vec<u8>,
    /// The list of mistakes.
    list: Text,
    events: u64,
    mistakes: u64,
    faults: u64,
}

impl Watcher {
    /// One over a new board.
    pub fn new(alloc: Global, board: Watched) -> Result<Watcher, AllocError> {
        let mut guests = Vec::with_capacity(alloc, board.slots())?;
        for slot in 0..board.slots().min(64) {
            guests.push(Guest::new(alloc, &board, slot as u8)?)?;
        }
        Ok(Watcher {
            board,
            alloc,
            guests,
            chain: Chain::new(),
            output: Vec::new(alloc),
            list: Text::new(alloc),
            events: 0,
            mistakes: 0,
            faults: 0,
        })
    }

    /// Says the board of a trace, a line for each of the trace's.
    pub fn say_board(&self, trace: &Trace, text: &mut Text) {
        text.say(match trace.format {
            Format::Plain(Version::One) => "1 version 1\n",
            Format::Plain(Version::Two) => "1 version 2\n",
            Format::Extended => "1 extended\n",
        });
        text.say("2 cache of ");
        text.counted(u64::from(trace.cache), "sector");
        text.say("\n");
        for (number, slot) in trace.slots.iter().enumerate() {
            say_slot(text, number as u64, slot);
        }
    }

    /// Handles the event of a line. What it was goes to `head`, and what came of it to `tail`.
    pub fn event(&mut self, line: u64, event: &Event, head: &mut Text, tail: &mut Text) {
        self.events = self.events.saturating_add(1);
        let slot = event.slot;
        head.count(line);
        head.say(" guest ");
        head.count(u64::from(slot));
        say_place(head, &event.what);
        let access = access_of(&event.what);
        let kind = device_of(&event.what).and_then(|device| self.board.kind(slot, device));
        say_event(head, &event.what, kind);
        if self.board.memory(slot).is_none() {
            head.say(" -> no such guest");
            return;
        }
        match (access, &event.what) {
            (Some(access), _) if access.value.is_none() => {
                self.read(line, event, access, head, tail);
            }
            (_, EventKind::MemRead { addr, len }) => self.read_memory(slot, *addr, *len, head),
            _ => self.change(line, event, access, head, tail),
        }
    }

    // A read of a register or a field.
    fn read(&mut self, line: u64, event: &Event, access: Access, head: &mut Text, tail: &mut Text) {
        match self.board.step(event, &mut self.output) {
            Reply::Value(value) => {
                head.say(" -> ");
                say_value(head, access.offset, access.width, value);
                let mistake = read_mistake(access.offset, access.width);
                self.note(line, event.slot, mistake, tail);
            }
            reply => say_reply(&reply, head),
        }
    }

    // A read of memory, of which the bytes stand in the record.
    fn read_memory(&self, slot: u8, addr: u64, len: u32, head: &mut Text) {
        if let Some(mem) = self.board.memory(slot) {
            if !mem.holds(addr, u64::from(len)) {
                head.say(" -> outside memory");
            }
        }
    }

    // An event that may change something.
    fn change(
        &mut self,
        line: u64,
        event: &Event,
        access: Option<Access>,
        head: &mut Text,
        tail: &mut Text,
    ) {
        self.output.clear();
        let slot = event.slot;
        let (service, fault_mistake) = self.handled(event, tail);
        if matches!(&service.reply, Reply::Idle) {
            head.say(idle_words(&self.board, event));
        }
        say_reply(&service.reply, head);
        self.say_effects(slot, head);
        if service.fault.is_some() {
            self.faults = self.faults.saturating_add(1);
        }
        // a busy event is made again, and judged then
        if !matches!(&service.reply, Reply::Busy) {
            self.say_states(line, event, access, tail);
        }
        self.note(line, slot, service.mistake, tail);
        self.note(line, slot, fault_mistake, tail);
    }

    // Handles an event, and answers what it came to. Where a fault ended the service of a queue, it is also what that shows.
    fn handled(&mut self, event: &Event, tail: &mut Text) -> (Service, Option<Mistake>) {
        let Some(served) = served_of(&self.board, event) else {
            say_left(&mut self.board, event, tail);
            let service = Service {
                reply: self.board.step(event, &mut self.output),
                fault: None,
                mistake: None,
            };
            return (service, None);
        };
        let service = self.served(served, &event.what, tail);
        let is_packed = is_packed_queue(&self.board, served);
        let mistake = fault_mistake(service.fault, is_packed);
        (service, mistake)
    }

    // An event that serves a queue.
    fn served(&mut self, served: SlotQueue, what: &EventKind, tail: &mut Text) -> Service {
        let (board, alloc) = (&mut self.board, self.alloc);
        let (chain, output) = (&mut self.chain, &mut self.output);
        if board.is_hosted(served) {
            look(board, served, what, chain, output, alloc, tail)
        } else {
            serve(board, served, what, chain, output, alloc, tail)
        }
    }

    // Says the interrupts that an event raised and what the console put out.
    fn say_effects(&mut self, slot: u8, head: &mut Text) {
        if let Some(guest) = self.guests.get_mut(usize::from(slot)) {
            guest.say_raised(&self.board, slot, head);
        }
        if !self.output.is_empty() {
            head.say("; puts out ");
            head.quoted(self.output.as_slice(), SHOWN);
        }
    }

    // Says what of the slot's windows isn't as it was said last, and what was wrong with a write to one.
    fn say_states(&mut self, line: u64, event: &Event, access: Option<Access>, tail: &mut Text) {
        let slot = event.slot;
        let Some(guest) = self.guests.get_mut(usize::from(slot)) else {
            return;
        };
        let old = access.and_then(|access| guest.window(access.device));
        let has_changed = guest.say_changes(&self.board, slot, tail);
        let new = access.and_then(|access| guest.window(access.device));
        if has_changed && matches!(&event.what, EventKind::MemWrite { .. }) {
            self.note(line, slot, Some(Mistake::AvailableChanged), tail);
        }
        let (Some(access), Some(old), Some(new)) = (access, old, new) else {
            return;
        };
        if let Some(value) = access.value {
            let mistake = write_mistake(access.offset, access.width, value, &old, &new);
            self.note(line, slot, mistake, tail);
        }
    }

    // Says a mistake where it was made, and puts it into the list.
    fn note(&mut self, line: u64, slot: u8, mistake: Option<Mistake>, tail: &mut Text) {
        let Some(mistake) = mistake else {
            return;
        };
        self.mistakes = self.mistakes.saturating_add(1);
        tail.say("  mistake ");
        tail.say(mistake.section());
        tail.say(": ");
        tail.say(mistake.sentence());
        tail.say("\n");
        if self.mistakes <= MOST_LISTED {
            self.list.say("  line ");
            self.list.count(line);
            self.list.say(", guest ");
            self.list.count(u64::from(slot));
            self.list.say(", ");
            self.list.say(mistake.section());
            self.list.say(": ");
            self.list.say(mistake.sentence());
            self.list.say("\n");
        }
    }

    /// Says how many events there were, and the list of mistakes.
    pub fn say_end(&self, text: &mut Text) {
        text.say("end: ");
        text.counted(self.events, "event");
        text.say(", ");
        text.counted(self.faults, "fault");
        text.say(", ");
        text.counted(self.mistakes, "mistake");
        text.say("\n");
        text.put(self.list.bytes());
        if self.mistakes > MOST_LISTED {
            text.say("  and ");
            text.count(self.mistakes - MOST_LISTED);
            text.say(" more\n");
        }
    }
}

// Says what an event was answered, but for a value.
fn say_reply(reply: &Reply, head: &mut Text) {
    match reply {
        Reply::Took(count) => {
            head.say(" -> took ");
            head.count(*count as u64);
        }
        Reply::BadRange => head.say(" -> outside memory"),
        Reply::BadState => head.say(" -> no such snapshot"),
        Reply::BadDevice => head.say(" -> no such device, or not for it"),
        Reply::Busy => head.say(" -> busy, until nothing is in flight"),
        Reply::NoMemory => head.say(" -> no memory"),
        Reply::BadSlot => head.say(" -> no such guest"),
        _ => {}
    }
}

// Says a slot of a trace.
fn say_slot(text: &mut Text, number: u64, slot: &SlotSpec) {
    text.count(number.wrapping_add(3));
    text.say(" guest ");
    text.count(number);
    text.say(": memory ");
    say_regions(text, slot.regions.as_slice());
    text.say(", ");
    say_disk(text, slot.extent, slot.backing, slot.read_only);
    if slot.spare > 0 {
        text.say(", ");
        text.counted(slot.spare, "spare sector");
    }
    text.say(", console ");
    text.count(u64::from(slot.cols));
    text.say(" by ");
    text.count(u64::from(slot.rows));
    text.say("\n");
}

// Says the regions of a guest's memory.
fn say_regions(text: &mut Text, regions: &[RegionSpec]) {
    for (place, region) in regions.iter().enumerate() {
        if place > 0 {
            text.say(" and ");
        }
        text.hex(region.base);
        text.say("+");
        text.hex(region.len);
    }
}

// The queue that an event serves, where it serves one whose chains are told: of further devices those of disks.
fn served_of(board: &Watched, event: &Event) -> Option<SlotQueue> {
    let at = named_by(board, event)?;
    let is_told = match at.device {
        DeviceName::Block | DeviceName::Console => true,
        DeviceName::Further(_) => board.is_hosted(at) || board.image_disk(at).is_some(),
    };
    if is_told && is_ready(board, at) && serves(board, at, &event.what) {
        Some(at)
    } else {
        None
    }
}

// Whether an event that names a queue serves it. Where no tag of a disk is free, a completion alone does, and where the queue is
// on hold a completion and a release.
fn serves(board: &Watched, at: SlotQueue, what: &EventKind) -> bool {
    match told_of(what) {
        Some((_, HostEvent::Complete { tag, .. })) => board.is_taken(at, tag),
        Some(_) => board.is_on_hold(at) && !board.is_full(at),
        None => !board.is_on_hold(at) && !board.is_full(at),
    }
}

// Whether a queue is ready, of a window that is live.
fn is_ready(board: &Watched, at: SlotQueue) -> bool {
    let Some(window) = board.window(at.slot, at.device) else {
        return false;
    };
    window.negotiation().live() && ring_of(board, at).is_some()
}

// The queue that an event names, where it may serve one.
fn named_by(board: &Watched, event: &Event) -> Option<SlotQueue> {
    let slot = event.slot;
    if let Some(access) = access_of(&event.what) {
        let queue = queue_notified(board, slot, access)?;
        return Some(SlotQueue::new(slot, access.device, queue));
    }
    match (told_at(event), &event.what) {
        (Some((at, HostEvent::Complete { .. } | HostEvent::Release)), _) => Some(at),
        (None, EventKind::Input { .. }) => Some(SlotQueue::new(slot, DeviceName::Console, 0)),
        _ => None,
    }
}

// What the host says by an event, and of which disk's queue, where it is such an event.
fn told_at(event: &Event) -> Option<(SlotQueue, HostEvent)> {
    let (device, told) = told_of(&event.what)?;
    Some((SlotQueue::new(event.slot, device, 0), told))
}

// Says what an event leaves undone that serves no queue: a chain that isn't given back, or a notify of a queue on hold.
fn say_left(board: &mut Watched, event: &Event, text: &mut Text) {
    match told_at(event) {
        Some((at, HostEvent::Complete { tag, .. })) => say_lost(board, at, tag, text),
        Some((at, HostEvent::Drop)) => {
            for tag in 0..MOST_TAGS {
                say_lost(board, at, tag, text);
            }
        }
        Some(_) => {}
        None => {
            if let Some(at) = named_by(board, event) {
                if board.is_on_hold(at) && is_ready(board, at) {
                    text.say("  no chain is taken: the queue is on hold\n");
                }
            }
        }
    }
}

// Says that the chain in flight of a tag isn't given back, where there is one.
fn say_lost(board: &mut Watched, at: SlotQueue, tag: u8, text: &mut Text) {
    if board.take_flight(at, tag).is_some() {
        text.say("  the chain of tag ");
        text.count(u64::from(tag));
        text.say(" isn't given back: the device asks to be reset\n");
    }
}

// Why there was nothing to do of what the host says.
fn idle_words(board: &Watched, event: &Event) -> &'static str {
    match told_at(event) {
        Some((_, HostEvent::Drop)) => " -> idle, nothing is in flight",
        Some((at, HostEvent::Hold)) if board.is_on_hold(at) => " -> idle, it is on hold",
        Some((_, HostEvent::Hold)) => " -> idle, the host doesn't serve this disk",
        Some((_, HostEvent::Release)) => " -> idle, it isn't on hold",
        _ => " -> idle, no chain has this tag",
    }
}

// The queue that a write to QueueNotify names (4.2.3.3), where an access is one.
fn queue_notified(board: &Watched, slot: u8, access: Access) -> Option<u32> {
    let value = access.value?;
    if access.offset != QUEUE_NOTIFY || access.width != 4 {
        return None;
    }
    let window = board.window(slot, access.device)?;
    let features = window.negotiation().negotiated();
    if features.contains(Features::NOTIFICATION_DATA) {
        Some(value % 0x1_0000)
    } else {
        Some(value)
    }
}

// Whether a queue's ring is packed.
fn is_packed_queue(board: &Watched, served: SlotQueue) -> bool {
    matches!(ring_of(board, served), Some(Queue::Packed(_)))
}

// What a fault shows that the standard forbids a driver.
fn fault_mistake(fault: Option<Fault>, is_packed: bool) -> Option<Mistake> {
    Mistake::of_fault(fault?, is_packed)
}
