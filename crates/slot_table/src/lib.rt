//! A table of what is known of slots, by slot: the rows of acceptors, proposers and learners.
//!
//! ```
//! if let Some(old) = table.get_mut(slot) {
//!     *old = row;
//! }
//! ```
#![tactic(auto)]

mod listed_rows;
mod slot_table;

pub use listed_rows::ListedRows;
pub use slot_table::SlotTable;
