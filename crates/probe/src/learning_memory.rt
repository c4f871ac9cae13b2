//! A learner hears of votes of a new slot, makes room for another, and learns a bag.

use crate::deciding_memory::{OWN, PRIOR, ballot, check, record, version};
use crate::example::{FEDERATION, site};
use crate::fault::Fault;
use fed_types::{BagId, Members, SiteNo, Slot};
use learner::Learner;
use records::{Entry, Record};
use std::alloc::Global;

/// Whether an allocation failed.
pub fn learns(alloc: Global) -> Result<bool, Fault> {
    let slot = version(alloc, 1)?;
    let known = record(alloc, 2, Entry::Known(OWN))?;
    let members = Members::new(FEDERATION, 3)?;
    let mut learner = Learner::new(alloc, members);
    let failed = hears(&mut learner, &slot, &known);
    drop(learner);
    drop(known);
    failed
}

fn hears(learner: &mut Learner<Members>, slot: &Slot, known: &Record) -> Result<bool, Fault> {
    let mut failed = hears_first(learner, slot, 1, PRIOR)?;
    failed |= hears_first(learner, slot, 2, OWN)?;
    failed |= reserves(learner, &known.slot)?;
    hears_second(learner, slot)?;
    check(learner.note(known).is_ok())?;
    check(learner.known(&known.slot) == Some(OWN))?;
    check(learner.known(slot) == None)?;
    Ok(failed)
}

/// The first vote of a ballot. Whether an allocation failed.
fn hears_first(
    learner: &mut Learner<Members>,
    slot: &Slot,
    round: u32,
    bag: BagId,
) -> Result<bool, Fault> {
    let (first, ballot) = (site()?, ballot(round)?);
    if let Ok(learned) = learner.accepted(first, slot, ballot, bag) {
        check(learned == None)?;
        return Ok(false);
    }
    check(learner.known(slot) == None)?;
    check(learner.accepted(first, slot, ballot, bag) == Ok(None))?;
    Ok(true)
}

/// Whether an allocation failed.
fn reserves(learner: &mut Learner<Members>, slot: &Slot) -> Result<bool, Fault> {
    if learner.reserve(slot).is_ok() {
        return Ok(false);
    }
    check(learner.known(slot) == None)?;
    check(learner.reserve(slot).is_ok())?;
    Ok(true)
}

/// The first vote still counts, and what is learned takes no memory.
fn hears_second(learner: &mut Learner<Members>, slot: &Slot) -> Result<(), Fault> {
    let second = SiteNo::new(2)?;
    check(learner.accepted(second, slot, ballot(1)?, PRIOR) == Ok(Some(PRIOR)))?;
    check(learner.accepted(second, slot, ballot(2)?, OWN) == Ok(Some(OWN)))
}
