//! An acceptor of single-decree Paxos (Lamport, Paxos Made Simple, section 2.2) for every slot at
//! once: which ballots it promises, and what it votes for, by what its records say of each slot.
//!
//! ```
//! check(acceptor.prepare(&promise.slot, ballot) == promised(ballot))?;
//! check(acceptor.note(promise).is_ok())?;
//! check(acceptor.prepare(&promise.slot, ballot) == refused(ballot))?;
//! ```
#![tactic(auto)]

mod acceptor;
mod decision;
mod row;

pub use acceptor::Acceptor;
pub use decision::{Decision, Response};
