//! A run as a picture in SVG, for `run --draw`: one column per site, time downwards, one arrow per
//! datagram.
//!
//! ```
//! if path.ends_with(".html") {
//!     return page_of(rt.alloc(), story, task.options);
//! }
//! picture_of(rt.alloc(), story)
//! ```
#![tactic(auto)]

mod arrows;
mod canvas;
mod columns;
mod labels;
mod layout;
mod legend;
mod marks;
mod page;
mod paint;
mod seen_words;
mod shape;
mod sides;

pub use page::{picture_of, rows_of};
