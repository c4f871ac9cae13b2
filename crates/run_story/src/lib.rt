//! What happened in a run, event by event, in numbers: what a command asked for, its outcome, what
//! the site put on record and what it sent. The simulator's own federation makes the run, a line of
//! the schedule at a time. Sentences with blanks say it in words: for `run --words`, under each
//! event what it did, and at the end what was never delivered.
//!
//! ```
//! match parse(rt.alloc(), bytes) {
//!     Ok(schedule) => tell(rt.alloc(), &schedule),
//!     Err(ParseFault::Memory | ParseFault::Line(_)) => Err(AllocError),
//! }
//! ```
#![tactic(auto)]

mod arrivals;
mod commands;
mod counts;
mod datagram;
mod event;
mod notes;
mod outcomes;
mod paths;
mod planned;
mod run_text;
mod said_numbers;
mod scene;
mod sends;
mod skips;
mod stops;
mod story;
mod told_run;

pub use datagram::{Datagram, Kind};
pub use event::{Deed, Event, Outcome};
pub use run_text::{is_told, push_event, words_of};
pub use scene::Scene;
pub use story::{Passage, Story};
pub use told_run::tell;
