//! A run as one page of HTML, for `run --draw FILE.html`: a reader steps through its events, and
//! sees what each site has on record and which datagrams are under way. The page asks for nothing
//! else, and needs no network.
//!
//! ```
//! if path.ends_with(".html") {
//!     return page_of(rt.alloc(), story, task.options);
//! }
//! picture_of(rt.alloc(), story)
//! ```
#![tactic(auto)]

mod json;
mod page;
mod steps;
mod style;
mod table;
mod table_events;
mod view;
mod view_cards;

pub use page::page_of;
