//! What the system says of files before they are used: which file a path leads to, how far one may
//! grow, and whether a write would wait.
//!
//! ```
//! let seen = regular_file_at(rt, path)?;
//! let file = OpenOptions::new().append(true).create(true).open(rt, path)?;
//! expect_same(seen, &file)?;
//! Ok(file)
//! ```
#![tactic(auto)]

mod file_id;
mod readiness;
mod room;
mod same_file;

pub use file_id::{FileId, expect_same, regular_file_at};
pub use readiness::takes_now;
pub use room::{expect_length, expect_room, expect_room_in_output, has_room, size_limit};
pub use same_file::is_same_file;
