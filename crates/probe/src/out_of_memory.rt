//! The example is opened and the Vote committed, while an allocation fails in a test. A call that
//! found no memory leaves all as it was, and made again it succeeds: only one allocation fails.

use crate::example::{CELL, RECORDS, site, vote, whole_line};
use crate::fault::Fault;
use crate::opened_cells::{owner, push_book};
use crate::records_text::push_records;
use book::{Book, CommitFault, OpenFault, Owner, Record};
use cell_device::MemoryCell;
use std::alloc::Global;

/// The records and the bytes after the Vote.
pub fn voted_line(alloc: Global) -> Result<String, Fault> {
    let mut text = String::new(alloc);
    match push_voted(alloc, &mut text) {
        Ok(()) => Ok(text),
        Err(fault) => Err(fault),
    }
}

fn push_voted(alloc: Global, text: &mut String) -> Result<(), Fault> {
    let owner = owner(site()?)?;
    let cell = MemoryCell::new(alloc, hex::decode(alloc, CELL)?);
    match Book::open(alloc, cell, owner) {
        Ok(book) => push_committed(alloc, text, book),
        Err((cell, OpenFault::Memory)) => open_again(alloc, text, cell, owner),
        Err((cell, _)) => refuse(cell),
    }
}

fn refuse(cell: MemoryCell) -> Result<(), Fault> {
    drop(cell);
    Err(Fault::Wrong)
}

fn open_again(
    alloc: Global,
    text: &mut String,
    cell: MemoryCell,
    owner: Owner,
) -> Result<(), Fault> {
    let is_kept = check_bytes(alloc, cell.bytes());
    match Book::open(alloc, cell, owner) {
        Ok(book) => push_late(alloc, text, is_kept, book),
        Err((cell, _)) => refuse(cell),
    }
}

/// Whether these are the bytes of the example.
fn check_bytes(alloc: Global, bytes: &[u8]) -> Result<(), Fault> {
    let digits = hex::encode(alloc, bytes)?;
    check(digits.as_str() == CELL)
}

/// The Vote is committed in a book that was opened late, and has to be said as ever.
fn push_late(
    alloc: Global,
    text: &mut String,
    is_kept: Result<(), Fault>,
    book: Book<MemoryCell>,
) -> Result<(), Fault> {
    let pushed = push_committed(alloc, text, book);
    is_kept?;
    pushed?;
    check_whole(alloc, text.as_str())?;
    Err(Fault::Memory)
}

fn push_committed(alloc: Global, text: &mut String, book: Book<MemoryCell>) -> Result<(), Fault> {
    let mut book = book;
    let committed = commit(alloc, &mut book);
    match committed {
        Ok(true) => push_book(alloc, text, book),
        Ok(false) => push_committed_late(alloc, text, book),
        Err(fault) => refuse_book(book, fault),
    }
}

fn refuse_book(book: Book<MemoryCell>, fault: Fault) -> Result<(), Fault> {
    drop(book);
    Err(fault)
}

/// Had the failed call changed the cell, its bytes were others now.
fn push_committed_late(
    alloc: Global,
    text: &mut String,
    book: Book<MemoryCell>,
) -> Result<(), Fault> {
    push_book(alloc, text, book)?;
    check_whole(alloc, text.as_str())?;
    Err(Fault::Memory)
}

/// Commits the Vote. Whether it found memory at once.
fn commit(alloc: Global, book: &mut Book<MemoryCell>) -> Result<bool, Fault> {
    match book.commit(vote(alloc)?) {
        Ok(()) => Ok(true),
        Err(CommitFault::Memory) => commit_again(alloc, book),
        Err(_) => Err(Fault::Wrong),
    }
}

fn commit_again(alloc: Global, book: &mut Book<MemoryCell>) -> Result<bool, Fault> {
    check(!book.needs_opening())?;
    check_records(alloc, book.records())?;
    book.commit(vote(alloc)?)?;
    Ok(false)
}

/// Whether these are the records of the example.
fn check_records(alloc: Global, records: &[Record]) -> Result<(), Fault> {
    let mut text = String::new(alloc);
    match push_records(&mut text, records) {
        Ok(()) => check(text.as_str() == RECORDS),
        Err(_) => Err(Fault::Memory),
    }
}

fn check_whole(alloc: Global, line: &str) -> Result<(), Fault> {
    let whole = whole_line(alloc)?;
    check(line == whole.as_str())
}

fn check(holds: bool) -> Result<(), Fault> {
    if holds { Ok(()) } else { Err(Fault::Wrong) }
}
