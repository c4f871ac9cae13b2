//! Each task, with what is left of the arguments: what it prints.

use crate::cases::answers;
use crate::datagram_times::{decoding_line, digesting_line, encoding_line};
use crate::deciding_memory::decided_line;
use crate::deciding_times::decisions_text;
use crate::fault::Fault;
use crate::files::{commit_line, opened_line};
use crate::journal_times::{commits_line, filled_line, opening_time_line, vote_digests_line};
use crate::out_of_memory::voted_line;
use crate::schedule_text::printed_again;
use crate::served_turns::served_text;
use crate::task::{
    CountedFile, SiteFile, Task, last_count, last_counted_file, last_site_file, last_word, no_more,
};
use crate::turns::answer_turns;
use probe_tools::Tries;
use std::env::Args;
use std::io;

pub fn perform(rt: &HostRuntime, task: Task, words: &mut Args) -> Result<String, Fault> {
    match task {
        Task::Encode => encode(rt, words),
        Task::Decode => decode(rt, words),
        Task::Digest => digest(rt, words),
        Task::DigestVote => digest_vote(rt, words),
        Task::File => file(rt, words),
        Task::Commit => commit(rt, words),
        Task::Turns => turns(rt, words),
        Task::Bench => bench(rt, words),
        Task::Fill => fill(rt, words),
        Task::Open => open(rt, words),
        Task::Memory => memory(rt, words),
        Task::Deciding => deciding(rt, words),
        Task::Decide => decide(rt, words),
        Task::Arrive => arrive(rt, words),
        Task::Serving => serving(rt, words),
        Task::Sites => sites(rt, words, Tries::Twice),
        Task::SitesOnce => sites(rt, words, Tries::Once),
        Task::Schedule => schedule(rt, words),
    }
}

/// The answers to the cases on standard input.
pub fn cases(rt: &HostRuntime) -> Result<String, Fault> {
    let input = input(rt)?;
    answers(rt.alloc(), input.as_str())
}

fn input(rt: &HostRuntime) -> Result<String, Fault> {
    Ok(io::read_to_string(rt.alloc(), rt.reader())?)
}

fn encode(rt: &HostRuntime, words: &mut Args) -> Result<String, Fault> {
    encoding_line(rt.alloc(), last_count(words)?)
}

fn decode(rt: &HostRuntime, words: &mut Args) -> Result<String, Fault> {
    decoding_line(rt.alloc(), last_count(words)?)
}

fn digest(rt: &HostRuntime, words: &mut Args) -> Result<String, Fault> {
    digesting_line(rt.alloc(), last_count(words)?)
}

fn digest_vote(rt: &HostRuntime, words: &mut Args) -> Result<String, Fault> {
    vote_digests_line(rt.alloc(), last_count(words)?)
}

fn file(rt: &HostRuntime, words: &mut Args) -> Result<String, Fault> {
    let SiteFile { path, site } = last_site_file(words)?;
    opened_line(rt, path.as_str(), site)
}

fn commit(rt: &HostRuntime, words: &mut Args) -> Result<String, Fault> {
    let SiteFile { path, site } = last_site_file(words)?;
    commit_line(rt, path.as_str(), site)
}

/// It prints its answers itself.
fn turns(rt: &HostRuntime, words: &mut Args) -> Result<String, Fault> {
    let SiteFile { path, site } = last_site_file(words)?;
    match answer_turns(rt, path.as_str(), site) {
        Ok(()) => Ok(String::new(rt.alloc())),
        Err(fault) => Err(fault),
    }
}

fn bench(rt: &HostRuntime, words: &mut Args) -> Result<String, Fault> {
    let CountedFile { path, count } = last_counted_file(words)?;
    commits_line(rt, path.as_str(), count)
}

fn fill(rt: &HostRuntime, words: &mut Args) -> Result<String, Fault> {
    let CountedFile { path, count } = last_counted_file(words)?;
    filled_line(rt, path.as_str(), count)
}

fn open(rt: &HostRuntime, words: &mut Args) -> Result<String, Fault> {
    let path = last_word(words)?;
    opening_time_line(rt, path.as_str())
}

fn memory(rt: &HostRuntime, words: &mut Args) -> Result<String, Fault> {
    no_more(words)?;
    voted_line(rt.alloc())
}

fn deciding(rt: &HostRuntime, words: &mut Args) -> Result<String, Fault> {
    no_more(words)?;
    decided_line(rt.alloc())
}

fn decide(rt: &HostRuntime, words: &mut Args) -> Result<String, Fault> {
    decisions_text(rt, last_count(words)?)
}

fn arrive(rt: &HostRuntime, words: &mut Args) -> Result<String, Fault> {
    Ok(probe_tools::arrivals_text(rt, last_count(words)?)?)
}

fn serving(rt: &HostRuntime, words: &mut Args) -> Result<String, Fault> {
    no_more(words)?;
    let turns = input(rt)?;
    served_text(rt.alloc(), turns.as_str())
}

fn sites(rt: &HostRuntime, words: &mut Args, tries: Tries) -> Result<String, Fault> {
    no_more(words)?;
    let script = input(rt)?;
    Ok(probe_tools::answers(rt.alloc(), script.as_str(), tries)?)
}

fn schedule(rt: &HostRuntime, words: &mut Args) -> Result<String, Fault> {
    no_more(words)?;
    let text = input(rt)?;
    printed_again(rt.alloc(), text.as_str())
}
