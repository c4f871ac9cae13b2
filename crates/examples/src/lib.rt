//! What a caller can prove of what it does with the public calls of the crates: each function here
//! has a contract that follows from theirs. No program uses it; the gate proves it.
#![tactic(auto)]

pub mod bags;
pub mod ballots;
pub mod books;
pub mod cells;
pub mod quorums;
pub mod runs;
pub mod slots;
pub mod texts;
