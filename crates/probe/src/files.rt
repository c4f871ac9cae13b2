//! A journal in a file.

use crate::example::vote;
use crate::fault::Fault;
use crate::opened_cells::{owner, push_opening};
use crate::records_text::push_records;
use book::{Book, CommitFault};
use cell_file::{Creation, DiskCell, open_cell};
use fed_types::SiteNo;
use std::alloc::Global;

/// The records of the site's journal in this file, or the fault, and the file's bytes afterwards.
pub fn opened_line(rt: &HostRuntime, path: &str, site: SiteNo) -> Result<String, Fault> {
    let mut text = String::new(rt.alloc());
    match push_opened(rt, &mut text, path, site) {
        Ok(()) => Ok(text),
        Err(fault) => Err(fault),
    }
}

fn push_opened(rt: &HostRuntime, text: &mut String, path: &str, site: SiteNo) -> Result<(), Fault> {
    let owner = owner(site)?;
    push_opening(
        rt.alloc(),
        text,
        open_cell(rt, path, Creation::IfMissing)?,
        owner,
    )
}

/// The book of the site's journal in this file.
pub fn open_book(rt: &HostRuntime, path: &str, site: SiteNo) -> Result<Book<DiskCell>, Fault> {
    let owner = owner(site)?;
    match Book::open(rt.alloc(), open_cell(rt, path, Creation::IfMissing)?, owner) {
        Ok(book) => Ok(book),
        Err((cell, fault)) => {
            drop(cell);
            Err(fault.into())
        }
    }
}

/// Commits the Vote. `ok` or the fault.
pub fn commit_word(alloc: Global, book: &mut Book<DiskCell>) -> Result<&'static str, Fault> {
    match book.commit(vote(alloc)?) {
        Ok(()) => Ok("ok"),
        Err(CommitFault::Device) => Ok("Device"),
        Err(CommitFault::NeedsOpen) => Ok("NeedsOpen"),
        Err(CommitFault::Memory) => Err(Fault::Memory),
    }
}

/// Commits the Vote to the site's journal in this file. `ok` or the fault, and the records.
pub fn commit_line(rt: &HostRuntime, path: &str, site: SiteNo) -> Result<String, Fault> {
    let mut book = open_book(rt, path, site)?;
    let mut text = String::new(rt.alloc());
    let committed = push_commit(rt.alloc(), &mut text, &mut book);
    drop(book);
    match committed {
        Ok(()) => Ok(text),
        Err(fault) => Err(fault),
    }
}

fn push_commit(alloc: Global, text: &mut String, book: &mut Book<DiskCell>) -> Result<(), Fault> {
    let said = commit_word(alloc, book)?;
    write!(text, "{said} | ")?;
    push_records(text, book.records())?;
    Ok(text.push_str("\n")?)
}
