//! The option that asks for JSON.

use clap::{Arg, ArgAction};
use std::alloc::Global;

/// The option `--json`, of a command whose lines become lines of JSON.
pub fn json_argument<'a>(alloc: Global) -> Arg<'a> {
    Arg::new(alloc, "json")
        .long("json")
        .action(ArgAction::SetTrue)
        .help("Print each line as a line of JSON")
}
