//! A proposer of single-decree Paxos (Lamport, Paxos Made Simple, section 2.2) for every slot at
//! once: its next ballot, and the bag that it proposes once a quorum has promised.
//!
//! ```
//! check(proposer.promise(third, slot, ballot, prior, own) == None)?;
//! check(proposer.promise(second, slot, ballot, None, own) == Some(PRIOR))?;
//! proposer.issued(slot);
//! ```
#![tactic(auto)]

mod ballot_state;
mod fault;
mod proposer;
mod row;

pub use fault::ProposeFault;
pub use proposer::Proposer;
