//! Acceptor, proposer and learner are called, while an allocation fails in a test. A call without
//! memory leaves what they answer as it was, and made again it succeeds: only one allocation fails.
//! A call that takes no memory has to succeed at once.

use crate::accepting_memory::accepts;
use crate::example::site;
use crate::fault::Fault;
use crate::learning_memory::learns;
use crate::proposing_memory::{begins, makes_room};
use fed_types::{BagId, Ballot, Slot};
use records::{Entry, Record};
use std::alloc::Global;

pub const OWN: BagId = BagId([1; 64]);

pub const PRIOR: BagId = BagId([2; 64]);

/// What was begun, proposed and learned.
pub fn decided_line(alloc: Global) -> Result<String, Fault> {
    let mut failed = accepts(alloc)?;
    failed |= makes_room(alloc)?;
    failed |= begins(alloc)?;
    failed |= learns(alloc)?;
    let round = ballot(1)?.round();
    let bag = PRIOR.0[0];
    let text = format!(in alloc; "began {round} proposed {bag} learned {bag}\n")?;
    if failed { Err(Fault::Memory) } else { Ok(text) }
}

/// This version of object `a`.
pub fn version(alloc: Global, number: u32) -> Result<Slot, Fault> {
    Ok(Slot::new(String::from_str(alloc, "a")?, number)?)
}

/// A record of this version of object `a`.
pub fn record(alloc: Global, number: u32, body: Entry) -> Result<Record, Fault> {
    let slot = version(alloc, number)?;
    Ok(Record { slot, body })
}

/// The ballot of this round and site 1.
pub fn ballot(round: u32) -> Result<Ballot, Fault> {
    Ok(Ballot::new(round, site()?)?)
}

pub fn check(holds: bool) -> Result<(), Fault> {
    if holds { Ok(()) } else { Err(Fault::Wrong) }
}
