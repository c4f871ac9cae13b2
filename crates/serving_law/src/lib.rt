//! What is promised of sites that serve, each a process with a cell of its own: agreement and
//! validity of all that they print and reply, over the rules by which `udp_site::serve` takes its
//! turns. The definitions stand in specs/; a function here does nothing, and its contract is a law.
#![tactic(auto)]

mod examples;
mod law;

pub use examples::{
    a_repeated_vote, deposits_are_valid, disks_are_like_cells, fails_in_a_deposit,
    fooled_by_a_forged_known, killed_in_a_deposit, killed_in_a_vote, noise_is_dropped,
    replies_are_reports, restarted_sites_report, three_sites_agree,
};
pub use law::{
    known_stays, registered_stays, reports_agree, reports_were_deposited, turns_may_happen,
};
