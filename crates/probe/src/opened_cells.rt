//! A cell is opened, and what that gives is said in a line.

use crate::example::{FEDERATION, WEIGHTS};
use crate::fault::Fault;
use crate::records_text::push_records;
use book::{Book, OpenFault, Owner};
use cell_device::Cell;
use fed_types::{Members, SiteNo};
use std::alloc::Global;

/// The owner of this site's journal, in a federation of three members of weight 1.
pub fn owner(site: SiteNo) -> Result<Owner, Fault> {
    weighted(site, &WEIGHTS)
}

/// That in a federation whose members have these weights.
pub fn weighted(site: SiteNo, weights: &[u8]) -> Result<Owner, Fault> {
    Ok(Owner {
        members: Members::weighted(FEDERATION, weights)?,
        site,
    })
}

/// Appends the records of this owner's cell, or the fault, and its bytes after it was opened.
pub fn push_opening<C: Cell + Drop>(
    alloc: Global,
    text: &mut String,
    cell: C,
    owner: Owner,
) -> Result<(), Fault> {
    match Book::open(alloc, cell, owner) {
        Ok(book) => push_book(alloc, text, book),
        Err((cell, fault)) => push_refused(alloc, text, cell, fault),
    }
}

/// Appends the book's records and its cell's bytes.
pub fn push_book<C: Cell + Drop>(
    alloc: Global,
    text: &mut String,
    book: Book<C>,
) -> Result<(), Fault> {
    let said = push_records(text, book.records());
    let cell = book.close();
    match said {
        Ok(()) => push_cell(alloc, text, cell),
        Err(_) => without_memory(cell),
    }
}

fn push_refused<C: Cell + Drop>(
    alloc: Global,
    text: &mut String,
    cell: C,
    fault: OpenFault,
) -> Result<(), Fault> {
    match push_fault(text, fault) {
        Ok(()) => push_cell(alloc, text, cell),
        Err(_) => without_memory(cell),
    }
}

pub fn push_fault(text: &mut String, fault: OpenFault) -> Result<(), Fault> {
    match fault {
        OpenFault::Memory => Err(Fault::Memory),
        fault => Ok(write!(text, "{fault:?}")?),
    }
}

fn without_memory<C: Cell + Drop>(cell: C) -> Result<(), Fault> {
    drop(cell);
    Err(Fault::Memory)
}

/// Appends the cell's bytes, and ends the line.
fn push_cell<C: Cell + Drop>(alloc: Global, text: &mut String, cell: C) -> Result<(), Fault> {
    let mut cell = cell;
    let loaded = cell.load(alloc);
    drop(cell);
    match loaded {
        Ok(bytes) => push_bytes(alloc, text, bytes.as_slice()),
        Err(fault) => Err(fault.into()),
    }
}

fn push_bytes(alloc: Global, text: &mut String, bytes: &[u8]) -> Result<(), Fault> {
    let digits = hex::encode(alloc, bytes)?;
    Ok(write!(text, " | {digits}\n")?)
}
