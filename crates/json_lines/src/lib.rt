//! The lines that commands print, as lines of JSON, for their `--json`: each word of a line is a
//! member of an object.
//!
//! ```
//! let output = JsonLines::new(rt.alloc(), task.json, io::writer(rt));
//! let mut output = SpokenLines::new(rt.alloc(), speaker, output);
//! ```
#![tactic(auto)]

mod form;
mod json_lines;
mod json_values;
mod law;
mod option;
mod printed_bytes;
mod printed_line;

pub use json_lines::JsonLines;
pub use law::{names_law, pieces_law};
pub use option::json_argument;
pub use printed_bytes::take_printed;
pub use printed_line::json_line;
