//! The command `check`: whether folders are valid bags, what is wrong if they aren't, and how far a
//! check is.
//!
//! ```
//! let mut folders = NotedFolders::new(alloc, folders);
//! let status = check_all_on(alloc, &mut folders, paths, report, output)?;
//! ```
#![tactic(auto)]

mod all_folders;
mod arguments;
mod command;
mod explanation;
mod folder_list;
mod form;
mod found;
mod json_line;
mod json_values;
mod law;
mod measure;
mod named;
mod named_folders;
mod other_list;
mod progress;
mod read_folders;
mod report;
mod several_folders;
mod tallied_folders;
mod tally;
mod verdict;

pub use all_folders::check_all_on;
pub use arguments::{CheckTask, check_command, check_task};
pub use command::{check_folders, spoken_folders, watched_folders};
pub use explanation::explain_on;
pub use folder_list::{FolderList, names_in};
pub use form::Form;
pub use law::name_law;
pub use measure::{Measure, Measured};
pub use named::push_escaped_bytes;
pub use named_folders::check_names_on;
pub use progress::{Progress, Saying};
pub use read_folders::{Digests, ReadFolders};
pub use report::{Detail, Question, Report};
pub use several_folders::check_each_on;
pub use verdict::{Verdict, check_on};
