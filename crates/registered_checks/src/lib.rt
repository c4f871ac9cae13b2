//! Checks of folders against the bags that sites know: are the bags that an archive holds those
//! that were agreed on?
//!
//! ```
//! match task.registered {
//!     Some(list) => check_registered(rt, task, list),
//!     None => check_folders(rt, task),
//! }
//! ```
#![tactic(auto)]

mod command;
mod comparison_lines;
mod deposit_line;
mod deposit_lines;
mod equality;
mod file_checks;
mod held_bag;
mod known_checks;
mod list_checks;
mod list_speaker;
mod noted_folders;
mod notes;
mod said_checks;
mod source_checks;

pub use command::check_registered;
pub use comparison_lines::comparison_text;
pub use deposit_line::deposit_of_line;
pub use equality::are_equal;
pub use file_checks::check_registered_on;
pub use held_bag::HeldBag;
pub use known_checks::{Checked, check_known_on};
pub use list_checks::check_list_on;
pub use said_checks::{Says, say_on};
pub use source_checks::check_source_on;
