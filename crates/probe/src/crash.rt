//! A cell is opened while its device fails, and then opened again.

use crate::fault::Fault;
use crate::opened_cells::{push_fault, push_opening};
use crate::records_text::push_records;
use book::{Book, Owner};
use cell_device::{Fuse, How, MemoryCell};
use std::alloc::Global;

/// The fuse of three words: `fail` or `stop`, the call and the bytes that are kept.
pub fn fuse_of(words: &str) -> Result<Fuse, Fault> {
    let (how, numbers) = words.split_once(" ").ok_or(Fault::Line)?;
    let (call, kept) = numbers.split_once(" ").ok_or(Fault::Line)?;
    Ok(Fuse {
        call: number(call)?,
        how: how_of(how)?,
        kept: number(kept)?,
    })
}

fn number(digits: &str) -> Result<usize, Fault> {
    digits.parse::<usize>().or(Err(Fault::Line))
}

fn how_of(word: &str) -> Result<How, Fault> {
    match word {
        "fail" => Ok(How::Fail),
        "stop" => Ok(How::Stop),
        _ => Err(Fault::Line),
    }
}

/// Appends the records or the fault of an opening in which the fuse fires, the bytes that this
/// leaves, and what the next opening gives.
pub fn push_crash(
    alloc: Global,
    text: &mut String,
    cell: MemoryCell,
    owner: &Owner,
    fuse: Fuse,
) -> Result<(), Fault> {
    let mut cell = cell;
    cell.set_fuse(Some(fuse));
    match push_failing(alloc, text, cell, owner) {
        Ok(cell) => push_next(alloc, text, cell, owner),
        Err(fault) => Err(fault),
    }
}

/// Appends what the first opening gives. The cell.
fn push_failing(
    alloc: Global,
    text: &mut String,
    cell: MemoryCell,
    owner: &Owner,
) -> Result<MemoryCell, Fault> {
    match Book::open(alloc, cell, *owner) {
        Ok(book) => {
            let said = push_records(text, book.records());
            keep(book.close(), said.or(Err(Fault::Memory)))
        }
        Err((cell, fault)) => keep(cell, push_fault(text, fault)),
    }
}

fn keep(cell: MemoryCell, said: Result<(), Fault>) -> Result<MemoryCell, Fault> {
    match said {
        Ok(()) => Ok(cell),
        Err(fault) => {
            drop(cell);
            Err(fault)
        }
    }
}

/// Starts the cell again, without a fuse.
fn push_next(
    alloc: Global,
    text: &mut String,
    cell: MemoryCell,
    owner: &Owner,
) -> Result<(), Fault> {
    let mut cell = cell;
    cell.set_fuse(None);
    cell.restart();
    match push_left(alloc, text, cell.bytes()) {
        Ok(()) => push_opening(alloc, text, cell, *owner),
        Err(fault) => {
            drop(cell);
            Err(fault)
        }
    }
}

fn push_left(alloc: Global, text: &mut String, bytes: &[u8]) -> Result<(), Fault> {
    let digits = hex::encode(alloc, bytes)?;
    Ok(write!(text, " | {digits} | ")?)
}
