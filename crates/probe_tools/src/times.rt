//! Calls of a site to be timed, on this many slots. For each slot in turn the site proposes, and
//! takes in what a round of Paxos brings it.

use crate::calls::{FEDERATION, datagrams, deposit_all, propose_all, slots, take_all};
use crate::fault::ToolFault;
use crate::kind::Kind;
use crate::place::empty_cell;
use crate::tree::tree;
use cell_device::MemoryCell;
use fed_types::{Members, SiteNo, Slot};
use records::Owner;
use site::Site;
use std::alloc::Global;
use std::time::Instant;

/// Thousands of calls a second, with 3, 15 and 63 members, a kind of call a line; and the seconds
/// in which a site with these records is opened.
pub fn arrivals_text(rt: &HostRuntime, count: u32) -> Result<String, ToolFault> {
    let mut text = String::new(rt.alloc());
    match push_rounds(rt, count, &mut text) {
        Ok(()) => Ok(text),
        Err(fault) => Err(fault),
    }
}

fn push_rounds(rt: &HostRuntime, count: u32, text: &mut String) -> Result<(), ToolFault> {
    for members in [3u8, 15, 63] {
        push_round(rt, count, members, text)?;
    }
    Ok(())
}

/// Appends the lines for this many members.
fn push_round(
    rt: &HostRuntime,
    count: u32,
    members: u8,
    text: &mut String,
) -> Result<(), ToolFault> {
    write!(text, "of {members} members\n")?;
    let owner = Owner {
        members: Members::new(FEDERATION, members)?,
        site: SiteNo::new(1)?,
    };
    match Site::open(rt.alloc(), empty_cell(rt.alloc()), owner) {
        Ok(site) => time_site(rt, site, count, text),
        Err((cell, _)) => refuse(cell, ToolFault::Wrong),
    }
}

fn refuse(cell: MemoryCell, fault: ToolFault) -> Result<(), ToolFault> {
    drop(cell);
    Err(fault)
}

/// Appends the lines of a new site, and the time in which it is opened again.
fn time_site(
    rt: &HostRuntime,
    site: Site<MemoryCell>,
    count: u32,
    text: &mut String,
) -> Result<(), ToolFault> {
    let mut site = site;
    let timed = time_calls(rt, &mut site, count, text);
    let records = site.records().len();
    let owner = Owner {
        members: site.members(),
        site: site.number(),
    };
    let cell = site.close();
    match timed {
        Ok(()) => push_opening(text, records, opening(rt, cell, owner)),
        Err(fault) => refuse(cell, fault),
    }
}

fn push_opening(
    text: &mut String,
    records: usize,
    seconds: Result<f64, ToolFault>,
) -> Result<(), ToolFault> {
    let seconds = seconds?;
    Ok(write!(text, "open {records} records: {seconds:.2} s\n")?)
}

/// The seconds in which a site is opened.
fn opening(rt: &HostRuntime, cell: MemoryCell, owner: Owner) -> Result<f64, ToolFault> {
    let start = now(rt);
    let is_opened = is_opened(rt.alloc(), cell, owner);
    seconds_since(rt, start, is_opened)
}

fn is_opened(alloc: Global, cell: MemoryCell, owner: Owner) -> bool {
    match Site::open(alloc, cell, owner) {
        Ok(site) => {
            drop(site);
            true
        }
        Err((cell, _)) => {
            drop(cell);
            false
        }
    }
}

/// Appends the lines of the calls.
fn time_calls(
    rt: &HostRuntime,
    site: &mut Site<MemoryCell>,
    count: u32,
    text: &mut String,
) -> Result<(), ToolFault> {
    let slots = slots(rt.alloc(), count)?;
    let deposits = deposit_time(rt, site, slots.as_slice());
    let proposals = proposal_time(rt, site, slots.as_slice());
    drop(slots);
    push_rate(text, "deposit", count, deposits)?;
    push_rate(text, "propose", count, proposals)?;
    for kind in Kind::all() {
        let datagrams = datagrams(rt.alloc(), count, kind)?;
        let arrivals = arrival_time(rt, site, datagrams.as_slice());
        drop(datagrams);
        push_rate(text, kind.name(), count, arrivals)?;
    }
    Ok(())
}

fn deposit_time(
    rt: &HostRuntime,
    site: &mut Site<MemoryCell>,
    slots: &[Slot],
) -> Result<f64, ToolFault> {
    let facts = tree(rt.alloc(), true, "".as_bytes())?;
    let start = now(rt);
    let is_done = deposit_all(site, slots, &facts);
    let seconds = seconds_since(rt, start, is_done);
    drop(facts);
    seconds
}

fn proposal_time(
    rt: &HostRuntime,
    site: &mut Site<MemoryCell>,
    slots: &[Slot],
) -> Result<f64, ToolFault> {
    let start = now(rt);
    let is_done = propose_all(site, slots);
    seconds_since(rt, start, is_done)
}

fn arrival_time(
    rt: &HostRuntime,
    site: &mut Site<MemoryCell>,
    datagrams: &[Vec<u8>],
) -> Result<f64, ToolFault> {
    let start = now(rt);
    let is_done = take_all(site, datagrams);
    seconds_since(rt, start, is_done)
}

/// Appends the line of a kind of call: thousands a second.
fn push_rate(
    text: &mut String,
    call: &str,
    count: u32,
    seconds: Result<f64, ToolFault>,
) -> Result<(), ToolFault> {
    let rate = f64::from(count) / seconds? / 1000.0;
    Ok(write!(text, "{call}: {rate:.0}\n")?)
}

fn now(rt: &HostRuntime) -> Result<Instant, ToolFault> {
    Ok(Instant::now(rt)?)
}

/// The seconds since then, where all calls were answered.
fn seconds_since(
    rt: &HostRuntime,
    start: Result<Instant, ToolFault>,
    is_done: bool,
) -> Result<f64, ToolFault> {
    if is_done {
        Ok(start?.elapsed(rt)?.as_secs_f64())
    } else {
        Err(ToolFault::Wrong)
    }
}
