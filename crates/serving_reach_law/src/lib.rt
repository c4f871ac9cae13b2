//! What sites that serve can still do, whatever has happened to them: they are never stuck. From
//! every history the members that run, a quorum, come to know a bag by a few turns in which nothing
//! fails, of what a client asks and of what they say to one another then; and what was chosen, or
//! reported, is within reach of every quorum. The definitions stand in specs/; a function here does
//! nothing, and its contract is a law.
#![tactic(auto)]

mod examples;
mod law;

pub use examples::{a_decision_comes_about, tapes_answer, tapes_are_like_cells};
pub use law::{
    a_decision_is_within_reach_in_turns, they_agree_on_what_was_reported,
    what_is_chosen_is_within_reach_in_turns, what_is_reported_is_within_reach_in_turns,
    what_is_within_reach_comes_about,
};
