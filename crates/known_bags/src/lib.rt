//! Which bags are known for which versions, by what cells and printed ledgers say: read for
//! `catch-up` and `check --registered`.
//!
//! ```
//! let mut versions = Vec::new(rt.alloc());
//! match push_sources(rt.alloc(), &DiskSources { rt }, &mut versions, &task.files) {
//!     Ok(()) => {}
//!     Err(fault) => return write_fault(rt.alloc(), &mut CountedWriter::new(output), fault),
//! }
//! ```
#![tactic(auto)]

mod fault_lines;
mod known_bag;
mod known_lines;
mod law;
mod source_files;
mod sources;

pub use fault_lines::write_fault;
pub use known_bag::KnownBag;
pub use law::lists_of_damaged_cells_know_nothing;
pub use source_files::{DiskSources, SourceFiles};
pub use sources::{SourceFault, push_known, push_source, push_sources};
