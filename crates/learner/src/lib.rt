//! A learner of single-decree Paxos (Lamport, Paxos Made Simple, section 2.3) for every slot at
//! once: which bag it learns, by the votes that it hears of.
//!
//! ```
//! check(learner.accepted(second, slot, ballot(1)?, PRIOR) == Ok(Some(PRIOR)))?;
//! check(learner.accepted(second, slot, ballot(2)?, OWN) == Ok(Some(OWN)))
//! ```
#![tactic(auto)]

mod learner;
mod others;
mod row;
mod table;
mod votes;

pub use learner::Learner;
