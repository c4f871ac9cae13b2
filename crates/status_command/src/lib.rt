//! The command `status`: how the sites of a federation stand.
//!
//! ```
//! Task::Status(task) => hinted(rt, task.words, show_status(rt, &task)),
//! ```
#![tactic(auto)]

mod arguments;
mod command;
mod files;
mod sites;
mod standing_speaker;

pub use arguments::{StatusTask, status_command, status_task};
pub use command::show_status;
