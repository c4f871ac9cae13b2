//! Schedules: texts of commands, one a line, that a federation of sites runs.
//!
//! ```
//! if let Err(ParseFault::Line(line)) = parse(rt.alloc(), bytes) {
//!     let _ = say_line(rt, bytes, line);
//! }
//! ```
#![tactic(auto)]

mod call;
mod command;
mod fate;
mod fault;
mod file_path;
mod hex_bytes;
mod law;
mod line_end;
mod parse_call;
mod parse_command;
mod parse_fate;
mod parse_federation;
mod parse_schedule;
mod plan;
mod print_call;
mod print_command;
mod print_federation;
mod print_schedule;
mod tree_no;
mod value;

pub use call::Call;
pub use command::Command;
pub use fate::{DeviceCall, Fate};
pub use fault::ParseFault;
pub use file_path::FilePath;
pub use hex_bytes::HexBytes;
pub use law::{commands_law, round_trip_law, schedules_law, texts_law};
pub use parse_schedule::parse;
pub use plan::Schedule;
pub use print_schedule::print;
pub use tree_no::TreeNo;
