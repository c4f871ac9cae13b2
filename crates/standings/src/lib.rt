//! How the sites of a federation stand: they are asked, and what they answer is reported.
//!
//! ```
//! let status = report_standings(
//!     rt.alloc(),
//!     rt,
//!     port,
//!     *number,
//!     known.versions,
//!     sites.as_mut_slice(),
//!     output,
//! )?;
//! ```
#![tactic(auto)]

mod answer;
mod asking;
mod law;
mod listening;
mod polled;
mod report;
mod site_lines;
mod stopwatch;
mod versions;

pub use law::{nothing_else_is_handed_out, what_is_heard_was_answered};
pub use polled::{Heard, Polled};
pub use report::report_standings;
pub use versions::versions_in;
