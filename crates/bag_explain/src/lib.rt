//! All that is wrong with a tree of files that is to be a bag: each fault, at each place where it
//! holds.
//!
//! ```
//! match question {
//!     Question::Validity => explain(alloc, facts),
//!     Question::Completeness => explain_gaps(alloc, facts),
//! }
//! ```
#![tactic(auto)]

mod entries;
mod entry_fault;
mod explain_bag;
mod law;
mod numbered_listing;
mod print;
mod read_manifests;
mod tag_files;

pub use explain_bag::{explain, explain_gaps};
pub use law::{all_found_law, findings_law, named_findings_law, numbers_law, places_law};
