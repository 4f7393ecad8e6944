//! The text of records.

ghost use Rattle.std.specs.Prelude.{◌≡◌, ◌≤◌, ◌<◌, ◌∷◌, [], ◌++◌, All, IfOk, codes, drop, length};
ghost use Rattle.board.specs.Line.{HasInterruptWords};
ghost use Rattle.hex.specs.Hex.{encode_lower};
ghost use Rattle.trace.specs.Records.{entry_of, quiet_line, read_line, record_fields, record_line, records_text, reply_field};
ghost use Rattle.trace.specs.Sends.{Sends, waiting};
ghost use Rattle.hexadecimal.specs.Spelling.{bytes as bytes_field, digit, fixed, num};
ghost use Rattle.trace.specs.Text.{ended, line};

use crate::no_memory::NoMemory;
use crate::print::buffer::{Buffer, Nowhere};
use board::{Record, Reply};
use hexadecimal::{digit_of, eight_digits, spell};
use std::alloc::Allocator;
use std::io::Write;

/// The room that is made ahead for a line. A line without bytes has no more.
const LINE_ROOM: usize = 24;

/// The text of records, a line for each in their order.
pub fn print_records<A: Allocator>(alloc: A, records: &[Record<A>]) -> Result<Vec<u8, A>, NoMemory>
    requires { All HasInterruptWords records.now }
    ensures { IfOk result (λ text. text.items ≡ records_text records.now) }
{
    let mut text = Buffer::growing(alloc, records.len().saturating_mul(LINE_ROOM))?;
    put_records(&mut text, &mut Nowhere, records);
    text.into_bytes()
}

// Puts the text of records.
fn put_records<W: Write, A: Allocator, B: Allocator>(
    buffer: &mut Buffer<B>,
    out: &mut W,
    records: &[Record<A>],
)
    requires { All HasInterruptWords records.now }
    ensures { Sends (W.contents out.old) (W.contents out.new) (waiting buffer.old) (records_text records.now) (waiting buffer.new) }
{
    for entry in records {
        put_record(buffer, out, entry);
    }
}

// Puts the line of a record.
fn put_record<W: Write, A: Allocator, B: Allocator>(
    buffer: &mut Buffer<B>,
    out: &mut W,
    entry: &Record<A>,
)
    requires { HasInterruptWords entry.now }
    ensures { Sends (W.contents out.old) (W.contents out.new) (waiting buffer.old) (ended (record_line entry.now)) (waiting buffer.new) }
{
    let words = (entry.block_irq, entry.console_irq);
    put_line(
        buffer,
        out,
        entry.slot,
        &entry.reply,
        entry.output.as_slice(),
        words,
    );
}

/// Puts the line of a record that is told by its parts. It is read into its caller, who mostly knows which reply that is.
#[inline(always)]
#[tactic(auto, unfolding(crate::specs::Records::record_line))]
pub fn put_line<W: Write, A: Allocator, B: Allocator>(
    buffer: &mut Buffer<B>,
    out: &mut W,
    slot: u8,
    reply: &Reply<A>,
    output: &[u8],
    words: (u8, u8),
)
    requires block { words.0 ≤ 3 }
    requires console { words.1 ≤ 3 }
    ensures { Sends (W.contents out.old) (W.contents out.new) (waiting buffer.old) (ended (record_line (entry_of slot reply.now output.now words))) (waiting buffer.new) }
{
    if !output.is_empty() {
        put_fields(buffer, out, slot, reply, output, words, b'\n');
        return;
    }
    match reply {
        Reply::Value(value) => put_value(buffer, out, slot, *value, words),
        Reply::Done => put_done(buffer, out, slot, words),
        Reply::Took(count) => put_took(buffer, out, slot, *count as u64, words),
        _ => put_fields(buffer, out, slot, reply, output, words, b'\n'),
    }
}

/// Puts the fields of a record that is told by its parts, and this byte behind them.
pub fn put_fields<W: Write, A: Allocator, B: Allocator>(
    buffer: &mut Buffer<B>,
    out: &mut W,
    slot: u8,
    reply: &Reply<A>,
    output: &[u8],
    words: (u8, u8),
    end: u8,
)
    requires block { words.0 ≤ 3 }
    requires console { words.1 ≤ 3 }
    ensures { Sends (W.contents out.old) (W.contents out.new) (waiting buffer.old) (line (record_fields (entry_of slot reply.now output.now words)) ++ end ∷ []) (waiting buffer.new) }
{
    put_slot(buffer, out, slot);
    put_reply(buffer, out, reply);
    put_output(buffer, out, output);
    put_words(buffer, out, words, end);
}

// Puts the line of a value without output, all of it at once. It is read into its caller, as reads of registers are many.
#[inline(always)]
fn put_value<W: Write, B: Allocator>(
    buffer: &mut Buffer<B>,
    out: &mut W,
    slot: u8,
    value: u32,
    words: (u8, u8),
)
    requires block { words.0 ≤ 3 }
    requires console { words.1 ≤ 3 }
    ensures { Sends (W.contents out.old) (W.contents out.new) (waiting buffer.old) (ended (quiet_line slot (codes "v:" ++ fixed 8 value) words)) (waiting buffer.new) }
{
    let mut line = *b"0 v:00000000 - 0 0\n";
    line[4..12].copy_from_slice(&eight_digits(value));
    line[15] = digit_of(words.0);
    line[17] = digit_of(words.1);
    put_numbered(buffer, out, slot, &mut line);
}

// The same of `done`.
fn put_done<W: Write, B: Allocator>(buffer: &mut Buffer<B>, out: &mut W, slot: u8, words: (u8, u8))
    requires block { words.0 ≤ 3 }
    requires console { words.1 ≤ 3 }
    ensures { Sends (W.contents out.old) (W.contents out.new) (waiting buffer.old) (ended (quiet_line slot (codes "done") words)) (waiting buffer.new) }
{
    let mut line = *b"0 done - 0 0\n";
    line[9] = digit_of(words.0);
    line[11] = digit_of(words.1);
    put_numbered(buffer, out, slot, &mut line);
}

// Puts a line, whose first byte becomes the last digit of its slot. It is read into its caller, who knows how long the line is:
// so it is stored without a call.
#[inline(always)]
fn put_numbered<W: Write, B: Allocator>(
    buffer: &mut Buffer<B>,
    out: &mut W,
    slot: u8,
    line: &mut [u8],
)
    requires { 1 ≤ length line.old }
    ensures { Sends (W.contents out.old) (W.contents out.new) (waiting buffer.old) (num slot ++ drop 1 line.old) (waiting buffer.new) }
{
    line[0] = digit_of(slot % 16);
    if slot < 16 {
        buffer.put(out, line);
    } else {
        put_behind_digit(buffer, out, slot / 16, line);
    }
}

// Puts a line behind the first digit of its slot.
#[inline(never)]
fn put_behind_digit<W: Write, B: Allocator>(
    buffer: &mut Buffer<B>,
    out: &mut W,
    first: u8,
    line: &[u8],
)
    requires { first < 16 }
    ensures { Sends (W.contents out.old) (W.contents out.new) (waiting buffer.old) (digit first ∷ line.now) (waiting buffer.new) }
{
    buffer.put(out, &[digit_of(first)]);
    buffer.put(out, line);
}

// The same of how many bytes were taken. A number of two digits goes out with its line, all of it at once.
fn put_took<W: Write, B: Allocator>(
    buffer: &mut Buffer<B>,
    out: &mut W,
    slot: u8,
    count: u64,
    words: (u8, u8),
)
    requires block { words.0 ≤ 3 }
    requires console { words.1 ≤ 3 }
    ensures { Sends (W.contents out.old) (W.contents out.new) (waiting buffer.old) (ended (quiet_line slot (codes "took:" ++ num count) words)) (waiting buffer.new) }
{
    if count < 16 || count >= 256 {
        put_took_in_parts(buffer, out, slot, count, words);
        return;
    }
    let mut line = *b"0 took:00 - 0 0\n";
    line[7] = digit_of((count / 16) as u8);
    line[8] = digit_of((count % 16) as u8);
    line[12] = digit_of(words.0);
    line[14] = digit_of(words.1);
    put_numbered(buffer, out, slot, &mut line);
}

// The same of any number.
#[inline(never)]
fn put_took_in_parts<W: Write, B: Allocator>(
    buffer: &mut Buffer<B>,
    out: &mut W,
    slot: u8,
    count: u64,
    words: (u8, u8),
)
    requires block { words.0 ≤ 3 }
    requires console { words.1 ≤ 3 }
    ensures { Sends (W.contents out.old) (W.contents out.new) (waiting buffer.old) (ended (quiet_line slot (codes "took:" ++ num count) words)) (waiting buffer.new) }
{
    put_slot(buffer, out, slot);
    buffer.put(out, b"took:");
    put_num(buffer, out, count);
    let (x, y) = (digit_of(words.0), digit_of(words.1));
    buffer.put(out, &[b' ', b'-', b' ', x, b' ', y, b'\n']);
}

/// Puts the fields of the record of a read of memory, whose bytes lie where they were read, and this byte behind them.
pub fn put_read<W: Write, B: Allocator>(
    buffer: &mut Buffer<B>,
    out: &mut W,
    slot: u8,
    bytes: &[u8],
    words: (u8, u8),
    end: u8,
)
    requires block { words.0 ≤ 3 }
    requires console { words.1 ≤ 3 }
    ensures { Sends (W.contents out.old) (W.contents out.new) (waiting buffer.old) (read_line slot bytes.now words ++ end ∷ []) (waiting buffer.new) }
{
    put_slot(buffer, out, slot);
    buffer.put(out, b"b:");
    put_bytes(buffer, out, bytes);
    put_output(buffer, out, &[]);
    put_words(buffer, out, words, end);
}

// Puts both interrupt words, each after a space, and this byte behind them.
fn put_words<W: Write, B: Allocator>(buffer: &mut Buffer<B>, out: &mut W, words: (u8, u8), end: u8)
    requires block { words.0 ≤ 3 }
    requires console { words.1 ≤ 3 }
    ensures { Sends (W.contents out.old) (W.contents out.new) (waiting buffer.old) (32 ∷ digit words.0 ∷ 32 ∷ digit words.1 ∷ end ∷ []) (waiting buffer.new) }
{
    let last = [b' ', digit_of(words.0), b' ', digit_of(words.1), end];
    buffer.put(out, &last);
}

// Puts a slot's number and a space.
#[inline]
fn put_slot<W: Write, B: Allocator>(buffer: &mut Buffer<B>, out: &mut W, slot: u8)
    ensures { Sends (W.contents out.old) (W.contents out.new) (waiting buffer.old) (num slot ++ 32 ∷ []) (waiting buffer.new) }
{
    if slot < 16 {
        buffer.put(out, &[digit_of(slot), b' ']);
    } else {
        buffer.put(out, &[digit_of(slot / 16), digit_of(slot % 16), b' ']);
    }
}

// Puts what was answered.
fn put_reply<W: Write, A: Allocator, B: Allocator>(
    buffer: &mut Buffer<B>,
    out: &mut W,
    reply: &Reply<A>,
)
    ensures { Sends (W.contents out.old) (W.contents out.new) (waiting buffer.old) (reply_field reply.now) (waiting buffer.new) }
{
    match reply {
        Reply::Value(value) => {
            buffer.put(out, b"v:");
            buffer.put(out, &eight_digits(*value));
        }
        Reply::Done => buffer.put(out, b"done"),
        Reply::Bytes(bytes) => {
            buffer.put(out, b"b:");
            put_bytes(buffer, out, bytes.as_slice());
        }
        Reply::Took(n) => {
            buffer.put(out, b"took:");
            put_num(buffer, out, *n as u64);
        }
        Reply::BadSlot => buffer.put(out, b"badslot"),
        Reply::BadRange => buffer.put(out, b"badrange"),
        Reply::BadState => buffer.put(out, b"badstate"),
        Reply::BadDevice => buffer.put(out, b"baddevice"),
        Reply::Busy => buffer.put(out, b"busy"),
        Reply::Idle => buffer.put(out, b"idle"),
        Reply::NoMemory => buffer.put(out, b"nomem"),
    }
}

/// Puts a number without leading zeros.
pub(super) fn put_num<W: Write, B: Allocator>(buffer: &mut Buffer<B>, out: &mut W, n: u64)
    ensures { Sends (W.contents out.old) (W.contents out.new) (waiting buffer.old) (num n) (waiting buffer.new) }
{
    if n < 16 {
        buffer.put(out, &[digit_of(n as u8)]);
        return;
    }
    let low = digit_of((n % 16) as u8);
    if n < 256 {
        buffer.put(out, &[digit_of((n / 16) as u8), low]);
        return;
    }
    put_num(buffer, out, n / 16);
    buffer.put(out, &[low]);
}

// Puts a space and the output.
fn put_output<W: Write, B: Allocator>(buffer: &mut Buffer<B>, out: &mut W, output: &[u8])
    ensures { Sends (W.contents out.old) (W.contents out.new) (waiting buffer.old) (32 ∷ bytes_field output.now) (waiting buffer.new) }
{
    if output.is_empty() {
        buffer.put(out, b" -");
        return;
    }
    buffer.put(out, b" ");
    put_bytes(buffer, out, output);
}

/// How many bytes are spelled at a time.
const BLOCK: usize = 512;

// Puts bytes by two digits each, or `-` where there are none.
fn put_bytes<W: Write, B: Allocator>(buffer: &mut Buffer<B>, out: &mut W, bytes: &[u8])
    ensures { Sends (W.contents out.old) (W.contents out.new) (waiting buffer.old) (bytes_field bytes.now) (waiting buffer.new) }
{
    if bytes.is_empty() {
        buffer.put(out, b"-");
        return;
    }
    let mut rest = bytes;
    while !rest.is_empty() {
        let (block, after) = rest.split_at(rest.len().min(BLOCK));
        put_block(buffer, out, block);
        rest = after;
    }
}

// Puts at most `BLOCK` bytes, by two digits each.
fn put_block<W: Write, B: Allocator>(buffer: &mut Buffer<B>, out: &mut W, bytes: &[u8])
    requires { length bytes.now ≤ 512 }
    ensures { Sends (W.contents out.old) (W.contents out.new) (waiting buffer.old) (encode_lower bytes.now) (waiting buffer.new) }
{
    let mut digits = [0; 2 * BLOCK];
    let text = &mut digits[..2 * bytes.len()];
    spell(bytes, text);
    buffer.put(out, text);
}
