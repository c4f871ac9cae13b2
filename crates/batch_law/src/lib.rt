//! What is promised of sites that serve in batches, by the laws of those that take one turn after
//! another: the turns of a batch are such turns. The definitions stand in specs/; a function here
//! does nothing, and its contract is a law.
#![tactic(auto)]

mod law;

pub use law::{
    batches_are_turns, crashes_leave_first_records, synced_are_records, turns_of_batches_are_turns,
    unsynced_batches_are_turns,
};
