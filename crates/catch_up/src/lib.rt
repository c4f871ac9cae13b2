//! The command `catch-up`: a site that was down learns what others know.
//!
//! ```
//! Task::CatchUp(task) => hinted(rt, task.words, catch_up_site(rt, &task)),
//! ```
#![tactic(auto)]

mod arguments;
mod clock_timer;
mod command;
mod next_round;
mod progress;
mod rounds;
mod said_answers;
mod sites;
mod timer;
mod version_speaker;

pub use arguments::{CatchUpTask, catch_up_command, catch_up_task};
pub use clock_timer::ClockTimer;
pub use command::catch_up_site;
pub use next_round::waits_for_round;
pub use progress::{count_line, known_line, open_line};
pub use rounds::{Target, catch_up_on};
pub use said_answers::{AskFault, say, write_count};
pub use sites::{SiteToAsk, Sites, sites_for};
pub use timer::Timer;
