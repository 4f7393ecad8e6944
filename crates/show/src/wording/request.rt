//! A chain of a block device as a request (5.2.6).

ghost use Rattle.std.specs.Prelude.{All};
ghost use Rattle.chain.specs.Buffers.{Within};

use crate::weave::Text;
use block_device::{BlockDevice, Operation, OperationKind, Request, RequestStatus};
use chain::Chain;
use guest_memory::GuestMemory;

/// What a chain asks for.
#[derive(Clone, Copy)]
pub struct RequestSeen {
    /// The header's type and sector, where the chain has a header.
    pub header: Option<(u32, u64)>,
    pub request: Request,
    /// The address of the status byte, where the chain has one.
    pub status_at: Option<u64>,
}

impl RequestSeen {
    /// Whether the host is asked for it, where the host serves the disk.
    pub fn asks_host(&self) -> bool {
        match self.request {
            Request::Rejected(_) | Request::GetId => false,
            _ => self.status_at.is_some(),
        }
    }
}

/// What a chain asks of a device, as the device itself reads it.
pub fn request_seen(device: &BlockDevice, mem: &GuestMemory, chain: &Chain) -> RequestSeen
    requires { All (Within mem.now) chain.now }
{
    let room = chain.writable_len().saturating_sub(1);
    RequestSeen {
        header: header_of(mem, chain),
        request: device.request(mem, chain, room),
        status_at: status_of(chain),
    }
}

// The type and the sector of a header.
fn header_of(mem: &GuestMemory, chain: &Chain) -> Option<(u32, u64)>
    requires { All (Within mem.now) chain.now }
{
    if chain.readable_len() < 16 {
        return None;
    }
    let mut header = [0; 16];
    chain.read_at(mem, 0, &mut header);
    let number = u128::from_le_bytes(header);
    Some(((number & 0xffff_ffff) as u32, (number >> 64) as u64))
}

// The address of the last writable byte.
fn status_of(chain: &Chain) -> Option<u64> {
    let mut last = None;
    for buffer in chain.buffers() {
        let segment = buffer.segment;
        if buffer.writable && segment.len > 0 {
            last = Some(segment.addr.wrapping_add(u64::from(segment.len) - 1));
        }
    }
    last
}

/// Says a request, and the status that its driver then reads.
pub fn say_request(text: &mut Text, mem: &GuestMemory, seen: &RequestSeen) {
    say_what(text, seen);
    match (seen.status_at, seen.request) {
        (None, _) => text.say("no room for a status"),
        (_, Request::Rejected(RequestStatus::IoError)) => text.say("IOERR"),
        (_, Request::Rejected(RequestStatus::Unsupported)) => text.say("UNSUPP"),
        (Some(at), _) => say_status(text, mem, at),
    }
    text.say("\n");
}

/// Says a request, and what the host is asked for it by a tag, with so many runs.
pub fn say_asked(text: &mut Text, seen: &RequestSeen, tag: u8, operation: Operation, runs: usize) {
    say_what(text, seen);
    text.say("asks the host by tag ");
    text.count(u64::from(tag));
    text.say(" to ");
    let runs = runs as u64;
    match operation.kind {
        OperationKind::In => say_transfer(text, "read ", operation, " into ", runs),
        OperationKind::Out => say_transfer(text, "write ", operation, " out of ", runs),
        OperationKind::Flush => text.say("make stable what was written"),
        OperationKind::Zeroes => {
            text.say("zero ");
            text.counted(runs, "run");
            text.say(" of the disk");
        }
    }
    text.say(if operation.stable {
        ", to be stable\n"
    } else {
        "\n"
    });
}

// Says the bytes of an IN or OUT: how many, where on the disk, and the runs of guest memory.
fn say_transfer(text: &mut Text, verb: &str, operation: Operation, way: &str, runs: u64) {
    text.say(verb);
    text.counted(operation.len, "byte");
    text.say(" at byte ");
    text.count(operation.start);
    text.say(" of the disk");
    text.say(way);
    text.counted(runs, "run");
}

// Begins a line on a request.
fn say_what(text: &mut Text, seen: &RequestSeen) {
    text.say("    ");
    match seen.header {
        Some((kind, sector)) => say_header(text, kind, sector, seen.request),
        None => text.say("a request without a whole header"),
    }
    text.say(": ");
}

// Says what a header asks for.
fn say_header(text: &mut Text, kind: u32, sector: u64, request: Request) {
    match kind {
        0 => text.say("IN"),
        1 => text.say("OUT"),
        4 => text.say("FLUSH"),
        8 => text.say("GET_ID"),
        13 => text.say("WRITE_ZEROES"),
        _ => {
            text.say("type ");
            text.count(u64::from(kind));
        }
    }
    if kind < 2 {
        text.say(" sector ");
        text.count(sector);
    }
    match request {
        Request::Read { count, .. } | Request::Write { count, .. } => {
            text.say(", ");
            text.counted(count, "sector");
        }
        Request::WriteZeroes { segments } => {
            text.say(", ");
            text.counted(segments, "segment");
        }
        Request::Rejected(RequestStatus::Unsupported) => text.say(", unsupported"),
        Request::Rejected(_) => text.say(", which can't be served"),
        Request::Flush | Request::GetId => {}
    }
}

// Says the status at an address.
fn say_status(text: &mut Text, mem: &GuestMemory, at: u64) {
    match mem.part(at, 1) {
        Some([0]) => text.say("OK"),
        Some([1]) => text.say("IOERR"),
        Some([2]) => text.say("UNSUPP"),
        Some(other) => {
            text.say("status ");
            text.pairs(other, 1);
        }
        None => text.say("no status"),
    }
}
