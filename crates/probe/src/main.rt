//! A tool of the tests, beside the crates `dgram`, `book`, `acceptor`, `proposer`, `learner`,
//! `site`, `udp_site` and `schedule`.
//! Without arguments it reads datagrams and cells from standard input, one a line, and prints what
//! each says. Its tasks (`task` lists them) call those crates, some on files, time them, and let
//! allocations fail.
#![tactic(auto)]

mod accepting_memory;
mod accepting_times;
mod cases;
mod crash;
mod datagram_case;
mod datagram_times;
mod deciding_memory;
mod deciding_times;
mod example;
mod fault;
mod files;
mod journal_times;
mod learning_memory;
mod learning_times;
mod lookup_times;
mod message_text;
mod opened_cells;
mod out_of_memory;
mod proposing_memory;
mod proposing_times;
mod records_text;
mod schedule_text;
mod served_turns;
mod task;
mod tasks;
mod turns;

use fault::Fault;
use std::env;
use std::env::Args;
use std::process::ExitCode;
use task::task_of;
use tasks::{cases, perform};

fn main(rt: HostRuntime) -> ExitCode {
    match text(&rt) {
        Ok(text) => match rt.print(text.as_str()) {
            Ok(()) => ExitCode::SUCCESS,
            Err(_) => ExitCode::FAILURE,
        },
        Err(fault) => {
            let _ = rt.println(fault);
            ExitCode::FAILURE
        }
    }
}

/// What the program prints.
fn text(rt: &HostRuntime) -> Result<String, Fault> {
    let mut words = env::args(rt)?;
    drop(words.next());
    match words.next() {
        None => cases(rt),
        Some(name) => text_of(rt, name.as_str(), &mut words),
    }
}

/// What the task of this name prints.
fn text_of(rt: &HostRuntime, name: &str, words: &mut Args) -> Result<String, Fault> {
    match task_of(name) {
        Some(task) => perform(rt, task, words),
        None => Err(Fault::Arguments),
    }
}
