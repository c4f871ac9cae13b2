//! The log of a site: what it prints, with the time, the sender and, for what is refused, the
//! request; and in the end why it ended. It stands around a port, folders and an output, whose
//! contracts it keeps; so does what watches whether the site hears a majority.
//!
//! ```
//! let log = SiteLog::open(rt, path, task.number);
//! let mut output = LoggedOutput::new(&log, output_of(rt, task, Some(&log)));
//! let answer = equip_and_serve(rt, task, Some(&log), &mut output);
//! ```
#![tactic(auto)]

mod heard_turns;
mod log_file;
mod log_lines;
mod logged_folders;
mod logged_output;
mod logged_port;
mod minute;
mod moment;
mod request_text;
mod shown_address;
mod site_log;
mod tally;
mod watch;
mod watched_port;

pub use logged_folders::LoggedFolders;
pub use logged_output::LoggedOutput;
pub use logged_port::LoggedPort;
pub use site_log::SiteLog;
pub use watch::Watch;
pub use watched_port::WatchedPort;
