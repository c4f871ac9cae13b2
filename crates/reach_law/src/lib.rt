//! What a federation can still do, whatever has happened: it is never stuck. From every network of
//! a run the members that run can reach a decision, every quorum can reach what was chosen, and two
//! proposals that nothing disturbs decide. The definitions are in specs/; a function here does
//! nothing, and its contract is a law.
#![tactic(auto)]

mod examples;
mod law;

pub use examples::{
    a_ballot_may_be_undisturbed, a_ballot_of_two_may_be_undisturbed, others_disturb_no_ballot,
};
pub use law::{
    a_decision_is_within_reach, an_undisturbed_ballot_is_decided, an_undisturbed_proposal_outbids,
    each_deposit_has_its_turn, each_of_two_has_its_turn, no_decision_without_a_vote_or_a_deposit,
    rounds_are_left, two_undisturbed_proposals_decide, what_is_chosen_is_within_reach,
};
