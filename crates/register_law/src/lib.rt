//! What a federation of sites that serve comes to: a register for each version of each object,
//! which is decided once. The definitions stand in specs/. A function here does nothing, and its
//! contract is a law, but for `starts_over_a_file`, which starts a site.
#![tactic(auto)]

mod examples;
mod law;

pub use examples::{
    a_bag_is_deposited, a_register_is_decided, carried_sites_report, file_cells_tell_their_bytes,
    starts_over_a_file, turns_overlap,
};
pub use law::{
    carried_agree_with_the_run, carried_known_stays, carried_registered_stays,
    carried_reports_agree, carried_reports_were_deposited, cells_have_no_conflict,
    chosen_is_all_that_is_reported, chosen_remains, histories_refine, new_cells_are_left_by_none,
    overlaps_are_histories, records_stay, steps_report_what_was_decided,
};
