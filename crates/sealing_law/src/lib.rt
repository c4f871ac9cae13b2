//! What is promised of sites that serve with keys. The laws of `serving_law` have a premise on the
//! network: nobody forges a message between sites. With keys it follows from less: only sites make
//! tags by their keys. The definitions stand in specs/; a function here does nothing, and its
//! contract is a law.
#![tactic(auto)]

mod examples;
mod law;

pub use examples::{a_forged_known_is_dropped, a_sealed_vote_counts, three_sites_agree_with_keys};
pub use law::{
    handed_on_may_come, histories_with_keys, reports_agree_with_keys, turns_with_keys_may_happen,
};
