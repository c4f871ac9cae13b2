//! An acceptor's calls, to be timed.

use crate::deciding_times::{BAG, ballot, now, rate_since, records_of};
use crate::fault::Fault;
use acceptor::Acceptor;
use fed_types::{Ballot, Vote};
use records::{Entry, Record};

/// The rates of prepare, of the note of its record, of accept, and of the note of its record.
pub fn accept_rates(rt: &HostRuntime, count: u32) -> Result<[f64; 4], Fault> {
    let ballot = ballot()?;
    let promises = records_of(rt.alloc(), count, Entry::Promise(ballot))?;
    let votes = records_of(rt.alloc(), count, Entry::Vote(Vote { ballot, bag: BAG }))?;
    let rates = rates(rt, promises.as_slice(), votes.as_slice(), ballot);
    drop(votes);
    drop(promises);
    rates
}

fn rates(
    rt: &HostRuntime,
    promises: &[Record],
    votes: &[Record],
    ballot: Ballot,
) -> Result<[f64; 4], Fault> {
    let mut acceptor = Acceptor::new(rt.alloc());
    let rates = rates_of(rt, &mut acceptor, promises, votes, ballot);
    drop(acceptor);
    rates
}

fn rates_of(
    rt: &HostRuntime,
    acceptor: &mut Acceptor,
    promises: &[Record],
    votes: &[Record],
    ballot: Ballot,
) -> Result<[f64; 4], Fault> {
    make_room(acceptor, promises)?;
    let start = now(rt);
    let is_prepared = prepare_all(acceptor, promises, ballot);
    let prepares = rate_since(rt, start, promises.len(), is_prepared)?;
    let promise_notes = note_rate(rt, acceptor, promises)?;
    let start = now(rt);
    let is_accepted = accept_all(acceptor, votes, ballot);
    let accepts = rate_since(rt, start, votes.len(), is_accepted)?;
    let vote_notes = note_rate(rt, acceptor, votes)?;
    Ok([prepares, promise_notes, accepts, vote_notes])
}

fn make_room(acceptor: &mut Acceptor, records: &[Record]) -> Result<(), Fault> {
    for record in records.iter() {
        acceptor.reserve(&record.slot)?;
    }
    Ok(())
}

fn prepare_all(acceptor: &Acceptor, records: &[Record], ballot: Ballot) -> bool {
    for record in records.iter() {
        if acceptor.prepare(&record.slot, ballot).entry.is_none() {
            return false;
        }
    }
    true
}

fn accept_all(acceptor: &Acceptor, records: &[Record], ballot: Ballot) -> bool {
    for record in records.iter() {
        if acceptor.accept(&record.slot, ballot, BAG).entry.is_none() {
            return false;
        }
    }
    true
}

fn note_rate(rt: &HostRuntime, acceptor: &mut Acceptor, records: &[Record]) -> Result<f64, Fault> {
    let start = now(rt);
    note_all(acceptor, records)?;
    rate_since(rt, start, records.len(), true)
}

fn note_all(acceptor: &mut Acceptor, records: &[Record]) -> Result<(), Fault> {
    for record in records.iter() {
        acceptor.note(record)?;
    }
    Ok(())
}
