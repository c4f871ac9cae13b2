//! What a federation does with every schedule, and the laws of its agreement: the definitions of
//! the reference run in specs/, and functions that do nothing, whose contracts are the laws.
#![tactic(auto)]

mod law;

pub use law::{
    bags_were_deposited, chosen_stays, known_was_chosen, lines_agree, one_bag_a_ballot,
    one_bag_a_slot, priors_stay, proposals_are_backed, reports_agree, reports_were_deposited,
    senders_are_named, sent_messages_are_well_formed, votes_were_asked_for,
};
