//! Calls to be timed, on journals in files. They belong to the site of the example.

use crate::datagram_times::{digest_often, total_line};
use crate::example::{site, slot, vote};
use crate::fault::Fault;
use crate::files::open_book;
use crate::opened_cells::owner;
use book::{Book, Entry, Record, Round};
use cell_device::{Cell, CellFault};
use cell_file::{Creation, DiskCell, open_cell};
use fields::CHECKSUM_BYTES;
use records::header;
use std::alloc::Global;
use std::time::Instant;

/// The bytes that a Round record for object `a` has.
const ROUND_BYTES: usize = 21;

/// Commits the Vote so often, in a new file. How many commits a second that were.
pub fn commits_line(rt: &HostRuntime, path: &str, count: u32) -> Result<String, Fault> {
    let mut book = open_book(rt, path, site()?)?;
    let seconds = time_commits(rt, &mut book, count);
    drop(book);
    let rate = f64::from(count) / seconds?;
    Ok(format!(in rt.alloc(); "{rate:.0}\n")?)
}

/// The seconds in which the Vote is committed so often.
fn time_commits(rt: &HostRuntime, book: &mut Book<DiskCell>, count: u32) -> Result<f64, Fault> {
    let start = Instant::now(rt)?;
    for _ in 0..count {
        book.commit(vote(rt.alloc())?)?;
    }
    Ok(start.elapsed(rt)?.as_secs_f64())
}

/// Takes the SHA-256 of the Vote's bytes before their checksum, so often.
pub fn vote_digests_line(alloc: Global, count: u32) -> Result<String, Fault> {
    let mut bytes = vote_bytes(alloc)?;
    bytes.truncate(bytes.len().saturating_sub(CHECKSUM_BYTES));
    let total = digest_often(&mut bytes, count);
    drop(bytes);
    total_line(alloc, total)
}

fn vote_bytes(alloc: Global) -> Result<Vec<u8>, Fault> {
    let record = vote(alloc)?;
    let bytes = record.to_bytes(alloc);
    drop(record);
    Ok(bytes?)
}

/// Writes the header and Rounds 1 to `count` to a new file. How many bytes those records are.
pub fn filled_line(rt: &HostRuntime, path: &str, count: u32) -> Result<String, Fault> {
    let bytes = rounds(rt.alloc(), count)?;
    let written = write_journal(rt, path, bytes.as_slice());
    let total = bytes.len();
    drop(bytes);
    written?;
    Ok(format!(in rt.alloc(); "{total}\n")?)
}

fn write_journal(rt: &HostRuntime, path: &str, records: &[u8]) -> Result<(), Fault> {
    let header = header(rt.alloc(), &owner(site()?)?)?;
    let mut cell = open_cell(rt, path, Creation::IfMissing)?;
    let written = append_all(&mut cell, &header, records);
    drop(cell);
    Ok(written?)
}

fn append_all(cell: &mut DiskCell, header: &[u8], records: &[u8]) -> Result<(), CellFault> {
    cell.append(header)?;
    cell.append(records)?;
    cell.sync()
}

/// The bytes of Rounds 1 to `count`.
fn rounds(alloc: Global, count: u32) -> Result<Vec<u8>, Fault> {
    let mut bytes = Vec::with_capacity(alloc, (count as usize).saturating_mul(ROUND_BYTES))?;
    match push_rounds(alloc, count, &mut bytes) {
        Ok(()) => Ok(bytes),
        Err(fault) => Err(fault),
    }
}

fn push_rounds(alloc: Global, count: u32, bytes: &mut Vec<u8>) -> Result<(), Fault> {
    for number in 1..=count {
        push_round(alloc, number, bytes)?;
    }
    Ok(())
}

fn push_round(alloc: Global, number: u32, bytes: &mut Vec<u8>) -> Result<(), Fault> {
    let round = Round::new(number).ok_or(Fault::Wrong)?;
    let record = Record {
        slot: slot(alloc)?,
        body: Entry::Round(round),
    };
    push_record(alloc, &record, bytes)
}

fn push_record(alloc: Global, record: &Record, bytes: &mut Vec<u8>) -> Result<(), Fault> {
    let record = record.to_bytes(alloc)?;
    Ok(bytes.extend_from_slice(record.as_slice())?)
}

/// Opens the journal. How many records it has, and how many seconds that took.
pub fn opening_time_line(rt: &HostRuntime, path: &str) -> Result<String, Fault> {
    let site = site()?;
    let start = Instant::now(rt)?;
    let book = open_book(rt, path, site)?;
    let elapsed = start.elapsed(rt);
    let count = book.records().len();
    drop(book);
    let seconds = elapsed?.as_secs_f64();
    Ok(format!(in rt.alloc(); "{count} {seconds:.3}\n")?)
}
