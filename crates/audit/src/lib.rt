//! What the cells of several sites show together: which bags were chosen. It works on records that
//! were read; `audit_command` reads the cells and prints.
//!
//! ```
//! let finding = evidence.cells.finding(slot);
//! ```
#![tactic(auto)]

mod cells;
mod finding;
mod law;
mod row;
mod rows;
mod votes;

pub use cells::Cells;
pub use finding::Finding;
pub use law::{
    cells_have_no_conflict, cells_may_be_given_in_part, chosen_is_all_that_is_reported,
    findings_are_true, members_are_counted, older_copies_may_be_given, what_cells_show_is_chosen,
};
