//! An acceptor makes room for a slot, and then notes a promise without memory.

use crate::deciding_memory::{ballot, check, record};
use crate::fault::Fault;
use acceptor::{Acceptor, Decision, Response};
use fed_types::{Ballot, Slot};
use records::{Entry, Record};
use std::alloc::Global;

/// Whether an allocation failed.
pub fn accepts(alloc: Global) -> Result<bool, Fault> {
    let ballot = ballot(1)?;
    let promise = record(alloc, 1, Entry::Promise(ballot))?;
    let mut acceptor = Acceptor::new(alloc);
    let failed = promises(&mut acceptor, &promise, ballot);
    drop(acceptor);
    drop(promise);
    failed
}

fn promises(acceptor: &mut Acceptor, promise: &Record, ballot: Ballot) -> Result<bool, Fault> {
    let failed = makes_room(acceptor, &promise.slot, ballot)?;
    check(acceptor.prepare(&promise.slot, ballot) == promised(ballot))?;
    check(acceptor.note(promise).is_ok())?;
    check(acceptor.prepare(&promise.slot, ballot) == refused(ballot))?;
    Ok(failed)
}

/// Whether an allocation failed.
fn makes_room(acceptor: &mut Acceptor, slot: &Slot, ballot: Ballot) -> Result<bool, Fault> {
    if acceptor.reserve(slot).is_ok() {
        return Ok(false);
    }
    check(acceptor.prepare(slot, ballot) == promised(ballot))?;
    check(acceptor.reserve(slot).is_ok())?;
    Ok(true)
}

/// The ballot is promised.
fn promised(ballot: Ballot) -> Decision {
    Decision {
        entry: Some(Entry::Promise(ballot)),
        answer: Response::Promised(ballot, None),
    }
}

/// The ballot is refused, since it was promised before.
fn refused(ballot: Ballot) -> Decision {
    Decision {
        entry: None,
        answer: Response::Refused {
            asked: ballot,
            standing: ballot,
        },
    }
}
