//! Several calls on a journal in a file: each line of standard input asks for one, `commit` or
//! `open`, and is answered in a line before the next one is read.

use crate::fault::Fault;
use crate::files::commit_word;
use crate::opened_cells::owner;
use crate::records_text::push_records;
use book::{Book, OpenFault, Owner};
use cell_file::{Creation, DiskCell, open_cell};
use fed_types::SiteNo;
use std::alloc::Global;
use std::io;

/// A site's book, or else the cell in which it was refused.
#[derive(Drop)]
struct Journal {
    book: Option<Book<DiskCell>>,
    cell: Option<DiskCell>,
}

/// Opens the site's journal in this file, and says its records; then it does what the lines ask.
/// `open` opens the journal again over the same cell.
pub fn answer_turns(rt: &HostRuntime, path: &str, site: SiteNo) -> Result<(), Fault> {
    let cell = open_cell(rt, path, Creation::IfMissing)?;
    let mut journal = Journal {
        book: None,
        cell: Some(cell),
    };
    let answered = answer_lines(rt, &mut journal, site);
    drop(journal);
    answered
}

fn answer_lines(rt: &HostRuntime, journal: &mut Journal, site: SiteNo) -> Result<(), Fault> {
    answer(rt, journal, "open", site)?;
    for line in rt.lines(rt.alloc()) {
        answer_line(rt, journal, line, site)?;
    }
    Ok(())
}

fn answer_line(
    rt: &HostRuntime,
    journal: &mut Journal,
    line: io::Result<String>,
    site: SiteNo,
) -> Result<(), Fault> {
    let line = line?;
    answer(rt, journal, line.as_str(), site)
}

/// Does what a line asks for, and prints what that gives.
fn answer(rt: &HostRuntime, journal: &mut Journal, line: &str, site: SiteNo) -> Result<(), Fault> {
    let mut said = String::new(rt.alloc());
    match turn(rt.alloc(), &mut said, journal, line, site) {
        Ok(()) => Ok(rt.println(said)?),
        Err(fault) => Err(fault),
    }
}

/// Appends what is said to the line.
fn turn(
    alloc: Global,
    said: &mut String,
    journal: &mut Journal,
    line: &str,
    site: SiteNo,
) -> Result<(), Fault> {
    match line {
        "open" => push_opened(said, journal, alloc, site),
        "commit" => push_commit(said, journal, alloc),
        _ => Err(Fault::Turn),
    }
}

/// Appends the records of the journal in the cell, or the fault.
fn push_opened(
    said: &mut String,
    journal: &mut Journal,
    alloc: Global,
    site: SiteNo,
) -> Result<(), Fault> {
    match journal.open(alloc, owner(site)?) {
        Some(fault) => Ok(write!(said, "{fault:?}")?),
        None => journal.push_records(said),
    }
}

/// Appends `ok` or the fault of a commit of the Vote.
fn push_commit(said: &mut String, journal: &mut Journal, alloc: Global) -> Result<(), Fault> {
    match &mut journal.book {
        Some(book) => Ok(said.push_str(commit_word(alloc, book)?)?),
        None => Ok(said.push_str("refused")?),
    }
}

impl Journal {
    /// Opens the journal in the cell: the fault, if it is refused.
    fn open(&mut self, alloc: Global, owner: Owner) -> Option<OpenFault> {
        self.close();
        match self.cell.take() {
            Some(cell) => self.open_over(alloc, cell, owner),
            None => None,
        }
    }

    fn open_over(&mut self, alloc: Global, cell: DiskCell, owner: Owner) -> Option<OpenFault> {
        match Book::open(alloc, cell, owner) {
            Ok(book) => self.keep_book(book),
            Err((cell, fault)) => self.refuse(cell, fault),
        }
    }

    fn close(&mut self) {
        match self.book.take() {
            Some(book) => self.keep_cell(book.close()),
            None => {}
        }
    }

    fn keep_book(&mut self, book: Book<DiskCell>) -> Option<OpenFault> {
        drop(self.book.replace(book));
        None
    }

    fn refuse(&mut self, cell: DiskCell, fault: OpenFault) -> Option<OpenFault> {
        self.keep_cell(cell);
        Some(fault)
    }

    fn keep_cell(&mut self, cell: DiskCell) {
        drop(self.cell.replace(cell));
    }

    /// Appends the open book's records.
    fn push_records(&self, said: &mut String) -> Result<(), Fault> {
        match &self.book {
            Some(book) => Ok(push_records(said, book.records())?),
            None => Err(Fault::Wrong),
        }
    }
}
