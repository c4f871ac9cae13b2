//! What the lines of commands that read cells and lists say, in words on standard error, for their
//! `--words`: with the names of the files that they are about.
//!
//! ```
//! let speaker = FileSpeaker::if_asked(rt, task.words, task.cell);
//! let output = JsonLines::new(rt.alloc(), task.json, io::writer(rt));
//! let mut output = SpokenLines::new(rt.alloc(), speaker, output);
//! ```
#![tactic(auto)]

mod empty_files;
mod file_reason;
mod file_speaker;
mod other_list;
mod piped;

pub use empty_files::push_empty;
pub use file_reason::push_other_file;
pub use file_speaker::{FileSpeaker, push_file_words, say_if_empty, say_no_line};
pub use piped::{first_piped, is_piped, push_gone, push_source_name};
