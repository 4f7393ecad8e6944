//! An event as its line says it.
//!
//! Its bytes are left in the field that spells them, so it takes no memory.

ghost use Rattle.std.specs.Prelude.{◌≡◌, ◌/◌, [], IfOk};
ghost use Rattle.board.specs.declared.event.EventKind.{EventKind};
ghost use Rattle.trace.specs.Validating.{parsed_len};
ghost use Rattle.trace.specs.Refusals.{IsFine};
ghost use Rattle.trace.specs.ParsedEvent.{IsFineDone, IsFineParsed, IsMeantBy, parsed_fields};
ghost use Rattle.trace.specs.Text.{event_fields, word_for};
ghost use Rattle.hexadecimal.specs.Fields.{IsBytesField};
ghost use Rattle.trace.specs.Words.{Says, Bytes as ByBytes};

use board::{Bytes, DeviceEvent, Event, EventKind, HostEvent};
use hexadecimal::{read_bytes, spelled_len};
use std::alloc::{AllocError, Allocator, Global};

/// What a line after the slots says.
#[derive(Drop)]
pub struct ParsedEvent<'a, A: Allocator = Global> {
    /// The event, with none of its bytes.
    pub event: Event<A>,
    /// The field that spells them, empty where an event has no bytes.
    pub bytes: &'a [u8],
}

impl<'a, A: Allocator> ParsedEvent<'a, A> {
    /// An event whose bytes a field spells.
    #[inline]
    pub(crate) fn new(slot: u8, what: EventKind<A>, bytes: &'a [u8]) -> ParsedEvent<'a, A>
        ensures event { result.event ≡ record { slot = slot; what = what } }
        ensures bytes { result.bytes.now ≡ bytes.now }
    {
        ParsedEvent {
            event: Event { slot, what },
            bytes,
        }
    }

    /// An event without bytes.
    #[inline]
    pub(crate) fn plain(slot: u8, what: EventKind<A>) -> ParsedEvent<'a, A>
        ensures event { result.event ≡ record { slot = slot; what = what } }
        ensures bytes { result.bytes.now ≡ [] }
    {
        ParsedEvent::new(slot, what, &[])
    }

    /// What the host says of the slot's disk.
    #[inline]
    pub(crate) fn said(slot: u8, said: HostEvent) -> ParsedEvent<'a, A>
        ensures event { result.event ≡ record { slot = slot; what = EventKind.Host said } }
        ensures bytes { result.bytes.now ≡ [] }
    {
        ParsedEvent::plain(slot, EventKind::Host(said))
    }

    /// What is done to a further device of the slot.
    #[inline]
    pub(crate) fn device(
        slot: u8,
        device: u8,
        what: DeviceEvent<A>,
        bytes: &'a [u8],
    ) -> ParsedEvent<'a, A>
        ensures event { result.event ≡ record { slot = slot; what = EventKind.Device device what } }
        ensures bytes { result.bytes.now ≡ bytes.now }
    {
        ParsedEvent::new(slot, EventKind::Device { device, what }, bytes)
    }

    /// How many bytes it spells.
    pub fn spelled_len(&self) -> usize
        ensures { result ≡ parsed_len self.now }
    {
        spelled_len(self.bytes)
    }

    /// The event, which owns its bytes.
    pub fn into_event(self, alloc: A) -> Result<Event<A>, AllocError>
        requires { IsFineParsed self }
        ensures fields { IfOk result (λ e. event_fields e ≡ parsed_fields self.entry) }
        ensures word { IfOk result (λ e. word_for e.what ≡ word_for self.entry.event.what) }
        ensures fine { IfOk result IsFine }
    {
        let ParsedEvent {
            event,
            bytes: field,
        } = self;
        let Event { slot, what } = event;
        match what {
            EventKind::MemWrite { addr, .. } => {
                let bytes = owned(alloc, field)?;
                let what = EventKind::MemWrite { addr, bytes };
                Ok(Event { slot, what })
            }
            EventKind::Input { .. } => {
                let bytes = owned(alloc, field)?;
                let what = EventKind::Input { bytes };
                Ok(Event { slot, what })
            }
            EventKind::Restore { .. } => {
                let bytes = owned(alloc, field)?;
                let what = EventKind::Restore { bytes };
                Ok(Event { slot, what })
            }
            EventKind::Device { device, what } => {
                let what = with_bytes(alloc, device, what, field)?;
                let what = EventKind::Device { device, what };
                Ok(Event { slot, what })
            }
            what => Ok(Event { slot, what }),
        }
    }
}

// What is done to a further device, with the bytes that a field spells where it has some.
fn with_bytes<A: Allocator>(
    alloc: A,
    device: u8,
    done: DeviceEvent<A>,
    field: &[u8],
) -> Result<DeviceEvent<A>, AllocError>
    requires { IsFineDone device done field.now }
    ensures { IfOk result (IsMeantBy device done field.now) }
{
    match done {
        DeviceEvent::Supply { .. } => {
            let bytes = owned(alloc, field)?;
            Ok(DeviceEvent::Supply { bytes })
        }
        DeviceEvent::Receive { .. } => {
            let frame = owned(alloc, field)?;
            Ok(DeviceEvent::Receive { frame })
        }
        done => Ok(done),
    }
}

// The bytes that a field spells.
fn owned<A: Allocator>(alloc: A, field: &[u8]) -> Result<Bytes<A>, AllocError>
    requires { Says ByBytes field.now }
    ensures { IfOk result (λ bytes. IsBytesField field.now bytes) }
{
    let mut bytes = vec![in alloc; 0; spelled_len(field)]?;
    read_bytes(field, bytes.as_mut_slice());
    Ok(Bytes::from(bytes))
}
