//! Calls to be timed of acceptor, proposer and learner, on so many slots, each in turn: versions of
//! object `a`. Beside each rate stands the part that it is of the look-up's in a bare table.

use crate::accepting_times::accept_rates;
use crate::example::site;
use crate::fault::Fault;
use crate::learning_times::vote_rate;
use crate::lookup_times::lookup_rate;
use crate::proposing_times::promise_rate;
use fed_types::{BagId, Ballot, Slot};
use records::{Entry, Record, Round};
use std::alloc::{AllocError, Global};
use std::time::Instant;

pub const BAG: BagId = BagId([0xaa; 64]);

/// How often each call is timed, over fresh tables: the best time counts.
const ROUNDS: u32 = 5;

/// The calls that are timed, that of a bare table first.
static CALLS: [&str; 11] = [
    "look-up",
    "prepare",
    "note of a Promise",
    "accept",
    "note of a Vote",
    "promise, of 3 members",
    "accepted, of 3 members",
    "promise, of 15 members",
    "accepted, of 15 members",
    "promise, of 63 members",
    "accepted, of 63 members",
];

/// Millions of calls a second, a kind of call a line.
pub fn decisions_text(rt: &HostRuntime, count: u32) -> Result<String, Fault> {
    let body = Entry::Round(Round::of(ballot()?));
    let records = records_of(rt.alloc(), count, body)?;
    let best = best_rates(rt, count, records.as_slice());
    drop(records);
    rates_text(rt.alloc(), &best?)
}

fn rates_text(alloc: Global, rates: &[f64; 11]) -> Result<String, Fault> {
    let mut text = String::new(alloc);
    match push_rates(&mut text, rates) {
        Ok(()) => Ok(text),
        Err(_) => Err(Fault::Memory),
    }
}

fn push_rates(text: &mut String, rates: &[f64; 11]) -> Result<(), AllocError> {
    let bare = rates[0];
    write!(text, "look-up: {bare:.1}\n")?;
    for call in 1..CALLS.len() {
        push_rate(text, CALLS[call], rates[call], bare)?;
    }
    Ok(())
}

fn push_rate(text: &mut String, call: &str, rate: f64, bare: f64) -> Result<(), AllocError> {
    let part = rate / bare;
    write!(text, "{call}: {rate:.1}, {part:.2}\n")
}

fn best_rates(rt: &HostRuntime, count: u32, records: &[Record]) -> Result<[f64; 11], Fault> {
    let mut best = [0.0; 11];
    for _ in 0..ROUNDS {
        best = better(best, rates(rt, count, records)?);
    }
    Ok(best)
}

/// The better rate of each call.
fn better(best: [f64; 11], rates: [f64; 11]) -> [f64; 11] {
    let mut best = best;
    for call in 0..CALLS.len() {
        if rates[call] > best[call] {
            best[call] = rates[call];
        }
    }
    best
}

/// The rate of each call.
fn rates(rt: &HostRuntime, count: u32, records: &[Record]) -> Result<[f64; 11], Fault> {
    let bare = lookup_rate(rt, records)?;
    let [prepare, promise_note, accept, vote_note] = accept_rates(rt, count)?;
    Ok([
        bare,
        prepare,
        promise_note,
        accept,
        vote_note,
        promise_rate(rt, records, 3)?,
        vote_rate(rt, records, 3)?,
        promise_rate(rt, records, 15)?,
        vote_rate(rt, records, 15)?,
        promise_rate(rt, records, 63)?,
        vote_rate(rt, records, 63)?,
    ])
}

/// A record of this body for each slot.
pub fn records_of(alloc: Global, count: u32, body: Entry) -> Result<Vec<Record>, Fault> {
    let mut records = Vec::with_capacity(alloc, count as usize)?;
    match push_records(alloc, count, body, &mut records) {
        Ok(()) => Ok(records),
        Err(fault) => Err(fault),
    }
}

fn push_records(
    alloc: Global,
    count: u32,
    body: Entry,
    records: &mut Vec<Record>,
) -> Result<(), Fault> {
    for number in 1..=count {
        let slot = Slot::new(String::from_str(alloc, "a")?, number)?;
        push_record(records, Record { slot, body })?;
    }
    Ok(())
}

fn push_record(records: &mut Vec<Record>, record: Record) -> Result<(), Fault> {
    match records.push(record) {
        Ok(()) => Ok(()),
        Err(_) => Err(Fault::Memory),
    }
}

/// A majority of so many members.
pub fn majority(members: u8) -> u8 {
    members / 2 + 1
}

/// The ballot (1, 1).
pub fn ballot() -> Result<Ballot, Fault> {
    Ok(Ballot::new(1, site()?)?)
}

pub fn now(rt: &HostRuntime) -> Result<Instant, Fault> {
    Ok(Instant::now(rt)?)
}

/// Millions a second, of so many calls since then, where each had the answer that it has to have.
pub fn rate_since(
    rt: &HostRuntime,
    start: Result<Instant, Fault>,
    count: usize,
    is_right: bool,
) -> Result<f64, Fault> {
    let seconds = start?.elapsed(rt)?.as_secs_f64();
    if is_right {
        Ok(rate(count, seconds))
    } else {
        Err(Fault::Wrong)
    }
}

/// Millions a second.
fn rate(count: usize, seconds: f64) -> f64 {
    match u32::try_from(count) {
        Ok(count) => f64::from(count) / 1000000.0 / seconds,
        Err(_) => 0.0,
    }
}
