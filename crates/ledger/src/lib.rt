//! A reader of cells, which changes none: whose cell it is, its records, how it ends, and what its
//! records say of each version.
//!
//! ```
//! match read_contents(alloc, bytes) {
//!     Ok(Some(contents)) => push_contents(alloc, bags, &contents),
//!     Ok(None) => end_of(headless_ending(bytes)),
//!     Err(AllocError) => Err(SourceFault::Memory),
//! }
//! ```
#![tactic(auto)]

mod cell_reader;
mod cell_text;
mod contents;
mod ending;
mod headless;
mod journal_lines;
mod law;
mod ledger_lines;
mod live_cell;
mod named;
mod open_pipe;
mod part;
mod read;
mod record_line;
mod row;
mod sizes;
mod standing;
mod steps;
mod version_filter;
mod version_line;
mod versions;

pub use cell_reader::CellReader;
pub use contents::Contents;
pub use ending::Ending;
pub use headless::headless_ending;
pub use journal_lines::{JournalLines, LastLines, Lines};
pub use law::contents_are_what_opening_gives;
pub use ledger_lines::LedgerLines;
pub use live_cell::LiveCell;
pub use part::{Head, LastPart, Part, Parts};
pub use read::{intact_end, read_contents};
pub use standing::Standing;
pub use version_filter::VersionFilter;
