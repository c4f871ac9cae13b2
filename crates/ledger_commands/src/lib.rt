//! The commands `journal` and `ledger`: what a cell says, read without a lock, and never changed.
//!
//! ```
//! Task::Journal(task) => hinted(rt, task.words, print_journal(rt, &task)),
//! Task::Ledger(task) => hinted(rt, task.words, print_ledger(rt, &task)),
//! ```
#![tactic(auto)]

mod journal;
mod journal_arguments;
mod journal_of_file;
mod ledger_arguments;
mod ledger_of_file;
mod status;
mod version_lines;
mod words_argument;

pub use journal::journal_on;
pub use journal_arguments::{JournalTask, journal_command, journal_task};
pub use journal_of_file::print_journal;
pub use ledger_arguments::{LedgerTask, ledger_command, ledger_task};
pub use ledger_of_file::print_ledger;
pub use version_lines::ledger_on;
