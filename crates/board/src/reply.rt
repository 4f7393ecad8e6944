//! What goes out: the reply to each event, and its record.

use crate::bytes::Bytes;
use std::alloc::{Allocator, Global};
use thiserror::Error;

/// What a guest is answered.
#[derive(Drop)]
#[derive_where(Debug, PartialEq, Eq)]
pub enum Reply<A: Allocator = Global> {
    /// What a read of a window gave. One that is narrower than 32 bits is extended by zeros.
    Value(u32),
    /// The event was done, and there is nothing to tell.
    Done,
    /// What a read of memory gave.
    Bytes(Bytes<A>),
    /// How many of the bytes that were typed the console took: the first ones.
    Took(usize),
    /// The board has no such slot. Nothing changed.
    BadSlot,
    /// Not all of the range lies inside the slot's memory. Nothing changed.
    BadRange,
    /// The bytes are no snapshot that the slot takes up. Nothing changed.
    BadState,
    /// The slot has no such device, or it takes no such thing. Nothing changed.
    BadDevice,
    /// There was no memory for the answer.
    NoMemory,
    /// The event waits for what is in flight: make it again behind the completion. Nothing changed.
    Busy,
    /// There was nothing to do: no operation has the tag, none is in flight, the slot is on hold already, or isn't.
    /// Nothing changed.
    Idle,
}

/// What an event came to: its reply, and InterruptStatus of both windows after it (4.2.2), 0 where there is no such slot.
#[derive(Drop)]
pub struct Handled<A: Allocator = Global> {
    pub reply: Reply<A>,
    pub block_irq: u8,
    pub console_irq: u8,
}

/// An event that was handled: whose it was, what it was answered, and what could be seen after it.
#[derive(Drop)]
#[derive_where(Debug, PartialEq, Eq)]
pub struct Record<A: Allocator = Global> {
    pub reply: Reply<A>,
    /// What the slot's console put out during the event.
    pub output: Bytes<A>,
    // beside the two words, without padding
    pub slot: u8,
    /// The block window's InterruptStatus after the event, and 0 where there is no such slot
    /// (4.2.2).
    pub block_irq: u8,
    /// The console window's InterruptStatus after the event, and 0 where there is no such slot.
    pub console_irq: u8,
}

/// A run that stopped, since there was no memory for the next record: the first `done` events are
/// done and recorded, and the next one is untouched.
#[derive(Clone, Copy, Debug, Error, PartialEq, Eq)]
#[error("no memory for the record after the first {done}")]
pub struct RunStop {
    pub done: usize,
}
