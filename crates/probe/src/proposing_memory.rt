//! A proposer makes room for a slot, hears a refusal of another, and notes a Round of a third; and
//! it begins a ballot of a new slot, and is promised it.

use crate::deciding_memory::{OWN, PRIOR, ballot, check, record, version};
use crate::example::{FEDERATION, site};
use crate::fault::Fault;
use fed_types::{Ballot, Members, SiteNo, Slot, Vote};
use proposer::{ProposeFault, Proposer};
use records::{Entry, Record, Round};
use std::alloc::Global;

/// A vector of so many bytes is made just before and just after calls: the test looks for the
/// allocations between the two, and of the proposer's there are none.
const MARK: usize = 7777;

/// A proposer of site 1, with three members.
fn proposer(alloc: Global) -> Result<Proposer<Members>, Fault> {
    let members = Members::new(FEDERATION, 3)?;
    let site = site()?;
    Ok(Proposer::new(alloc, members, site))
}

/// Makes room in three ways, and then begins a ballot of each slot. Whether an allocation failed.
pub fn makes_room(alloc: Global) -> Result<bool, Fault> {
    let first = version(alloc, 1)?;
    let second = version(alloc, 2)?;
    let third = record(alloc, 3, Entry::Round(Round::of(ballot(6)?)))?;
    let mut proposer = proposer(alloc)?;
    let failed = makes_rooms(&mut proposer, &first, &second, &third);
    drop(proposer);
    drop(third);
    failed
}

fn makes_rooms(
    proposer: &mut Proposer<Members>,
    first: &Slot,
    second: &Slot,
    third: &Record,
) -> Result<bool, Fault> {
    let mut failed = reserves(proposer, first)?;
    failed |= hears_refusals(proposer, first, second)?;
    failed |= notes(proposer, third)?;
    failed |= begins_round(proposer, first, 3)?;
    failed |= begins_round(proposer, second, 5)?;
    failed |= begins_round(proposer, &third.slot, 7)?;
    Ok(failed)
}

/// Whether an allocation failed.
fn reserves(proposer: &mut Proposer<Members>, slot: &Slot) -> Result<bool, Fault> {
    if proposer.reserve(slot).is_ok() {
        return Ok(false);
    }
    check(proposer.reserve(slot).is_ok())?;
    Ok(true)
}

/// The first slot has room; the second may find none. Whether an allocation failed.
fn hears_refusals(
    proposer: &mut Proposer<Members>,
    first: &Slot,
    second: &Slot,
) -> Result<bool, Fault> {
    check(proposer.refused(first, ballot(2)?).is_ok())?;
    let standing = ballot(4)?;
    if proposer.refused(second, standing).is_ok() {
        return Ok(false);
    }
    check(proposer.refused(second, standing).is_ok())?;
    Ok(true)
}

/// Whether an allocation failed.
fn notes(proposer: &mut Proposer<Members>, used: &Record) -> Result<bool, Fault> {
    if proposer.note(used).is_ok() {
        return Ok(false);
    }
    check(proposer.note(used).is_ok())?;
    Ok(true)
}

/// Begins a ballot, which has to be of this round. Whether an allocation failed.
fn begins_round(proposer: &mut Proposer<Members>, slot: &Slot, round: u32) -> Result<bool, Fault> {
    let wanted = ballot(round)?;
    match proposer.begin(slot) {
        Ok(ballot) => {
            check(ballot == wanted)?;
            Ok(false)
        }
        Err(ProposeFault::Memory) => {
            check(proposer.begin(slot) == Ok(wanted))?;
            Ok(true)
        }
        Err(ProposeFault::RoundsSpent) => Err(Fault::Wrong),
    }
}

/// Begins a ballot of a new slot, and is promised it. Whether an allocation failed.
pub fn begins(alloc: Global) -> Result<bool, Fault> {
    let ballot = ballot(1)?;
    let round = record(alloc, 1, Entry::Round(Round::of(ballot)))?;
    let mut proposer = proposer(alloc)?;
    let failed = begins_one(alloc, &mut proposer, &round, ballot);
    drop(proposer);
    drop(round);
    failed
}

fn begins_one(
    alloc: Global,
    proposer: &mut Proposer<Members>,
    round: &Record,
    ballot: Ballot,
) -> Result<bool, Fault> {
    let failed = begins_round(proposer, &round.slot, 1)?;
    check(proposer.note(round).is_ok())?;
    mark(alloc)?;
    is_promised(proposer, &round.slot, ballot)?;
    mark(alloc)?;
    Ok(failed)
}

/// A proposer is promised its current ballot: one promise names a vote, and comes twice.
fn is_promised(proposer: &mut Proposer<Members>, slot: &Slot, ballot: Ballot) -> Result<(), Fault> {
    let (second, third) = (SiteNo::new(2)?, SiteNo::new(3)?);
    let prior = Some(Vote {
        ballot: Ballot::new(1, second)?,
        bag: PRIOR,
    });
    let own = Some(OWN);
    check(proposer.promise(third, slot, ballot, prior, own) == None)?;
    check(proposer.promise(third, slot, ballot, prior, own) == None)?;
    check(proposer.promise(second, slot, ballot, None, own) == Some(PRIOR))?;
    proposer.issued(slot);
    check(proposer.promise(site()?, slot, ballot, None, own) == None)
}

/// Makes a vector of `MARK` bytes.
pub fn mark(alloc: Global) -> Result<(), Fault> {
    let mut mark = Vec::with_capacity(alloc, MARK)?;
    mark.extend_from_slice(&[1u8])?;
    check(mark.len() == 1)
}
