//! What is said of sites: notices, the lines that a run prints of them, and the text of each.
//!
//! ```
//! let mut text = String::new(alloc);
//! for line in trace.lines() {
//!     push_printed(alloc, &mut text, options, line)?;
//! }
//! Ok(text)
//! ```
#![tactic(auto)]

mod line;
mod notice;
mod print_line;
mod print_words;
mod sent_bytes;

pub use line::{Line, NamedBag, Reason};
pub use notice::{Notice, line_by_identity, line_of, notice_of, reply_notice};
pub use print_line::{Options, push_line, push_printed};
pub use sent_bytes::SentBytes;
