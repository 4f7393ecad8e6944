//! The rows of a file, one after another.

use crate::calls::chains::Chains;
use crate::calls::guests::{Guests, Stops};
use crate::calls::memory::Memory;
use crate::calls::rings::Rings;
use crate::calls::row::{Row, row_of};
use crate::calls::subject::{Answered, Stuck, Subject};
use crate::calls::wants::Wants;
use crate::calls::windows::Windows;
use crate::calls::words::Words;
use linked_list_allocator::LocalHeap;
use std::io::Write;
use std::rt::Files;
use std::{fs, io};
use test_support::RefusingHeap;

/// How much memory the guests of a file have at most.
const HEAP: usize = 0x400_0000;

/// Checks the rows of a file: writes how many there are, or each that answers otherwise. The answer is whether all is well.
pub(crate) fn check_file<R: Files + AllocGlobal + Clone + Drop, W: Write>(
    rt: &R,
    file: &str,
    out: &mut W,
) -> io::Result<bool> {
    let Ok(text) = fs::read_to_string(rt, file) else {
        writeln!(out, "{file} can't be read")?;
        return Ok(false);
    };
    let (subject, rows) = text.split_once('\n').unwrap_or(("", ""));
    check_subject(rt, file, subject, rows, out)
}

// Checks these rows of the subject that the file names.
fn check_subject<R: AllocGlobal, W: Write>(
    rt: &R,
    file: &str,
    subject: &str,
    rows: &str,
    out: &mut W,
) -> io::Result<bool> {
    let alloc = rt.alloc();
    match subject {
        "chains" => check_made(rt, file, rows, Chains::new(alloc), out),
        "guests" => check_guests(rt, file, rows, out),
        "memory" => check_made(rt, file, rows, Memory::new(alloc), out),
        "rings" => check_made(rt, file, rows, Rings::new(alloc), out),
        "stops" => check_made(rt, file, rows, Ok(Stops::new(alloc)), out),
        "wants" => check_made(rt, file, rows, Wants::new(alloc), out),
        "windows" => check_made(rt, file, rows, Windows::new(alloc), out),
        _ => {
            writeln!(out, "{file} names no subject")?;
            Ok(false)
        }
    }
}

fn check_guests<R: AllocGlobal, W: Write>(
    rt: &R,
    file: &str,
    rows: &str,
    out: &mut W,
) -> io::Result<bool> {
    let local = LocalHeap::new(rt.alloc(), HEAP)?;
    let heap = RefusingHeap::new(&local);
    check_rows(rt, file, rows, &mut Guests::new(rt.alloc(), &heap), out)
}

// Checks these rows of a subject, if that could be made.
fn check_made<R: AllocGlobal, S: Subject + Drop, W: Write>(
    rt: &R,
    file: &str,
    rows: &str,
    made: Result<S, Stuck>,
    out: &mut W,
) -> io::Result<bool> {
    match made {
        Ok(mut subject) => check_rows(rt, file, rows, &mut subject, out),
        Err(stuck) => {
            writeln!(out, "{file}: {stuck}")?;
            Ok(false)
        }
    }
}

// Checks these rows, which stand behind the file's first line.
fn check_rows<R: AllocGlobal, S: Subject, W: Write>(
    rt: &R,
    file: &str,
    rows: &str,
    subject: &mut S,
    out: &mut W,
) -> io::Result<bool> {
    let mut count = 0u64;
    let mut all_well = true;
    for (at, line) in rows.lines().enumerate() {
        let Some(row) = row_of(line) else {
            continue;
        };
        count = count.saturating_add(1);
        let number = at.saturating_add(2);
        if !check_row(rt, subject, file, number, row, out)? {
            all_well = false;
        }
    }
    if all_well {
        writeln!(out, "{file}: {count} calls answer as they must")?;
    }
    Ok(all_well)
}

// Makes a row's call. Is its answer the one that it must give? Writes where it isn't.
fn check_row<R: AllocGlobal, S: Subject, W: Write>(
    rt: &R,
    subject: &mut S,
    file: &str,
    number: usize,
    row: Row<'_>,
    out: &mut W,
) -> io::Result<bool> {
    let mut answer = String::new(rt.alloc());
    let mut words = Words::new(row.call);
    let made = subject.call(&mut words, &mut answer);
    tell(file, number, row, words.judge(made), answer.as_str(), out)
}

// Is the answer of a row's call the one that it must give? Writes where it isn't.
fn tell<W: Write>(
    file: &str,
    number: usize,
    row: Row<'_>,
    made: Answered,
    found: &str,
    out: &mut W,
) -> io::Result<bool> {
    let Row { call, answer } = row;
    match made {
        Ok(()) if found == answer => return Ok(true),
        Ok(()) => writeln!(
            out,
            "{file} line {number}: {call}: expected {answer}, found {found}"
        )?,
        Err(stuck) => writeln!(out, "{file} line {number}: {call}: {stuck}")?,
    }
    Ok(false)
}
