//! A proposer's promises, to be timed.

use crate::deciding_times::{BAG, ballot, majority, now, rate_since};
use crate::example::{FEDERATION, site};
use crate::fault::Fault;
use fed_types::{Ballot, Members, SiteNo};
use proposer::Proposer;
use records::Record;

/// The rate of promises, by a majority of so many members for each slot.
pub fn promise_rate(rt: &HostRuntime, records: &[Record], members: u8) -> Result<f64, Fault> {
    let (ballot, site) = (ballot()?, site()?);
    let federation = Members::new(FEDERATION, members)?;
    let mut proposer = Proposer::new(rt.alloc(), federation, site);
    let rate = begun_rate(rt, &mut proposer, records, majority(members), ballot);
    drop(proposer);
    rate
}

fn begun_rate(
    rt: &HostRuntime,
    proposer: &mut Proposer<Members>,
    records: &[Record],
    majority: u8,
    ballot: Ballot,
) -> Result<f64, Fault> {
    make_room(proposer, records)?;
    begin_all(proposer, records, ballot)?;
    let start = now(rt);
    let ready = promise_all(proposer, records, majority, ballot)?;
    let rate = rate_since(rt, start, records.len(), ready == records.len())?;
    Ok(rate * f64::from(majority))
}

fn make_room(proposer: &mut Proposer<Members>, records: &[Record]) -> Result<(), Fault> {
    for record in records.iter() {
        proposer.reserve(&record.slot)?;
    }
    Ok(())
}

fn begin_all(
    proposer: &mut Proposer<Members>,
    records: &[Record],
    ballot: Ballot,
) -> Result<(), Fault> {
    for record in records.iter() {
        begin(proposer, record, ballot)?;
    }
    Ok(())
}

fn begin(proposer: &mut Proposer<Members>, record: &Record, ballot: Ballot) -> Result<(), Fault> {
    if proposer.begin(&record.slot) != Ok(ballot) {
        return Err(Fault::Wrong);
    }
    Ok(proposer.note(record)?)
}

/// How many slots are ready after the promises of these members.
fn promise_all(
    proposer: &mut Proposer<Members>,
    records: &[Record],
    majority: u8,
    ballot: Ballot,
) -> Result<usize, Fault> {
    let mut ready = 0usize;
    for number in 1..=majority {
        let promised = promises(proposer, records, SiteNo::new(number)?, ballot);
        ready = ready.wrapping_add(promised);
    }
    Ok(ready)
}

/// How many slots this member's promises make ready.
fn promises(
    proposer: &mut Proposer<Members>,
    records: &[Record],
    from: SiteNo,
    ballot: Ballot,
) -> usize {
    let mut ready = 0usize;
    for record in records.iter() {
        let bag = proposer.promise(from, &record.slot, ballot, None, Some(BAG));
        if bag.is_some() {
            ready = ready.wrapping_add(1);
        }
    }
    ready
}
