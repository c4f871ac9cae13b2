//! The commands `site`, `send` and `members`: a site that serves over a file and a socket, a deposit
//! or a query at one, and the file that says who the sites are.
//!
//! ```
//! Task::Site(task) => hinted(rt, task.words, serve_site(rt, &task)),
//! ```
#![tactic(auto)]

mod apart_files;
mod cell_opening;
mod command_send;
mod command_site;
mod first_start;
mod folders_below;
mod member_words;
mod members_arguments;
mod noted_ending;
mod own_address;
mod printed_keys;
mod printed_members;
mod send_arguments;
mod site_arguments;
mod site_output;
mod site_process;
mod standard_streams;

pub use command_send::send_to_site;
pub use command_site::serve_site;
pub use first_start::{Unprepared, prepare_cell};
pub use members_arguments::{MembersTask, members_command, members_task};
pub use printed_members::print_members;
pub use send_arguments::{SendTask, send_command, send_task};
pub use site_arguments::{SiteTask, Turns, site_command, site_task};
pub use site_process::{Service, open_and_serve};
