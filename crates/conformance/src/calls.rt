//! Worked calls, made.
//!
//! A file's first line names its subject, and each other line is a call with the answer that it must give;
//! `data/calls/README.md` has the calls of each subject. `row` splits a line, `words` reads a call's words, `subject` says
//! what a subject is, `check` goes through a file.

mod answer;
mod chains;
mod check;
mod guests;
mod memory;
mod rings;
mod row;
mod subject;
mod wants;
mod windows;
mod words;

pub(crate) use check::check_file;
