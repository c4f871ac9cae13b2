//! The option `--deposits` of the command `send`: a site is sent the deposits of a file, one after
//! the other, and a line says of each what came of it.
//!
//! ```
//! Task::Deposits(task) => hinted(rt, task.words, send_deposits(rt, &task)),
//! ```
#![tactic(auto)]

mod aim;
mod arguments;
mod command;
mod deposit;
mod deposit_lines;
mod deposit_speaker;
mod entry;
mod entry_text;
mod line_fault;
mod listed_deposits;
mod listed_path;
mod progress;
mod rounds;
mod send_all;
mod standing;
mod watch;

pub use aim::Aim;
pub use arguments::{DepositsTask, deposits_task};
pub use command::send_deposits;
pub use deposit::Deposit;
pub use deposit_lines::{ListFault, deposits_in};
pub use entry::Entry;
pub use send_all::send_all_on;
pub use standing::Standing;
pub use watch::Watch;
