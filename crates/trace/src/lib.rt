//! Traces and records as text, both ways.
//!
//! A trace says which board there is and what its guests do. It is ASCII text of lines, and each trace has
//! one text. `read` has the way from a text to its trace, `print` the way back and the text of records, and
//! `round_trip` goes both ways. `word` says what a line is, `table` which fields it has, `value` what one says, and
//! `format` what the first line says. How numbers and bytes are spelled is `hexadecimal`'s.
//! `hosted` tells whether the host serves a disk. `fault` has what is answered for a text that isn't a trace, and `laws`
//! says that a text has one meaning or one fault.
#![tactic(auto)]

mod fault;
mod format;
mod hosted;
mod laws;
mod no_memory;
mod print;
mod read;
mod round_trip;
mod table;
mod trace;
mod value;
mod word;

pub use fault::{FaultKind, TraceFault};
pub use format::{Format, Version, format_of};
pub use hosted::is_hosted;
pub use laws::{a_trace_has_no_fault, lines_begin_with_an_event, one_fault, one_trace};
pub use no_memory::NoMemory;
pub use print::{
    Buffer, is_printable, print_records, print_trace, put_asked_end, put_begun, put_fields,
    put_line, put_read, write_whole,
};
pub use read::{
    ParsedEvent, Validated, behind_named, event_of_line, field_at_fault, first_word, line_of,
    read_bytes, read_trace, spelled_len, take_event, take_input, take_mem_write, take_read,
    take_write, unrefused_line_begins, validate,
};
pub use round_trip::read_back;
pub use table::{BehindKind, Field, fields_after};
pub use trace::{Trace, to_version_2};
pub use word::Word;
