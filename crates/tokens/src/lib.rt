//! The tokens of a text's lines, which are called words: where a line ends, what its words are, which
//! numbers and texts they stand for, and how a name is written as one word. Schedules, members files
//! and printed lines are made of them.
//!
//! ```
//! let words = split_words(alloc, line)?;
//! match known_in(alloc, words.as_slice())? {
//!     Some(known) => {
//!         bags.push(known)?;
//!         Ok(true)
//!     }
//!     None => Ok(is_passed_over(words.as_slice())),
//! }
//! ```
#![tactic(auto)]

mod escape;
mod law;
mod line;
mod number;
mod slot;
mod text;
mod written;

pub use escape::push_escaped;
pub use law::{numbers_law, words_law};
pub use line::{first_line, split_words};
pub use number::parse_number;
pub use slot::parse_slot;
pub use text::parse_text;
pub use written::{push_bag, push_ballot, push_slot, push_vote};
