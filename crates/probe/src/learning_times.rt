//! A learner's votes, to be timed.

use crate::deciding_times::{BAG, ballot, majority, now, rate_since};
use crate::example::FEDERATION;
use crate::fault::Fault;
use fed_types::{Ballot, Members, SiteNo};
use learner::Learner;
use records::Record;
use std::alloc::AllocError;

/// The rate of votes, by a majority of so many members for each slot. The first takes memory.
pub fn vote_rate(rt: &HostRuntime, records: &[Record], members: u8) -> Result<f64, Fault> {
    let ballot = ballot()?;
    let federation = Members::new(FEDERATION, members)?;
    let mut learner = Learner::new(rt.alloc(), federation);
    let rate = heard_rate(rt, &mut learner, records, majority(members), ballot);
    drop(learner);
    rate
}

fn heard_rate(
    rt: &HostRuntime,
    learner: &mut Learner<Members>,
    records: &[Record],
    majority: u8,
    ballot: Ballot,
) -> Result<f64, Fault> {
    make_room(learner, records)?;
    let start = now(rt);
    let learned = hear_all(learner, records, majority, ballot)?;
    let rate = rate_since(rt, start, records.len(), learned == records.len())?;
    Ok(rate * f64::from(majority))
}

fn make_room(learner: &mut Learner<Members>, records: &[Record]) -> Result<(), Fault> {
    for record in records.iter() {
        learner.reserve(&record.slot)?;
    }
    Ok(())
}

/// How many slots are known after the votes of these members.
fn hear_all(
    learner: &mut Learner<Members>,
    records: &[Record],
    majority: u8,
    ballot: Ballot,
) -> Result<usize, Fault> {
    let mut learned = 0usize;
    for number in 1..=majority {
        let heard = add_vote(learner, records, SiteNo::new(number)?, ballot)?;
        learned = learned.wrapping_add(heard);
    }
    Ok(learned)
}

/// How many slots become known by this member's votes.
fn add_vote(
    learner: &mut Learner<Members>,
    records: &[Record],
    from: SiteNo,
    ballot: Ballot,
) -> Result<usize, AllocError> {
    let mut learned = 0usize;
    for record in records.iter() {
        if learner.accepted(from, &record.slot, ballot, BAG)?.is_some() {
            learned = learned.wrapping_add(1);
        }
    }
    Ok(learned)
}
