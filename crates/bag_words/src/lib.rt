//! What a check of a folder found, in words, for `check --words`: each place with the names as they
//! are, what was wanted and what was found, and what is no fault but worth knowing.
//!
//! ```
//! let are_named = task.named || task.paths.len() != 1;
//! SpokenFolders::new(rt, wanted_words(task), are_named, from, folders)
//! ```
#![tactic(auto)]

mod bag;
mod counts;
mod declared;
mod empty_folders;
mod finding;
mod folder_words;
mod found_digest;
mod lenient;
mod list_kind;
mod listed;
mod manifest_line;
mod meant_manifest;
mod near_names;
mod oxum;
mod place_words;
mod rfc;
mod spoken_folders;
mod tag_files;
mod twins;
mod unread;

pub use list_kind::Names;
pub use spoken_folders::{SpokenFolders, Wanted};
