//! A federation of sites, run by a schedule, and the text of what the sites say. The federation has
//! real sites over cells in memory, the datagrams that they sent, the declared trees, and the lines
//! so far; it runs a line of the schedule at a time.
//!
//! ```
//! let schedule = parse(alloc, schedule).ok()?;
//! let trace = run(alloc, &schedule).ok()?;
//! text(alloc, &trace, options).ok()
//! ```
#![tactic(auto)]

mod arrival;
mod calls;
mod commands;
mod declared_trees;
mod deposits;
mod fault;
mod federation;
mod print_run;
mod run_schedule;
mod said_lines;
mod sends;
mod stops;
mod trace;

pub use fault::RunFault;
pub use federation::Federation;
pub use print_run::text;
pub use run_schedule::run;
pub use trace::Trace;
