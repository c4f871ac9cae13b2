//! The command `members`.

use crate::member_words::sites_in;
use crate::members_arguments::MembersTask;
use crate::printed_keys::{make_keys, print_keys};
use code_words::{Asked, AskedSpeaker, SpokenLines};
use json_lines::JsonLines;
use members_file::{MemberSites, digest_of, new_list};
use outcomes::{ProgramFault, write_output};
use site_client::{Stop, expect_listed, members_at, write_stop};
use std::alloc::{AllocError, Global};
use std::io;
use std::random::RandomSource;

/// Prints what a members file or a key file says, or makes one.
pub fn print_members(rt: &HostRuntime, task: &MembersTask<'_>) -> Result<u8, ProgramFault> {
    if let Some(path) = task.key {
        return print_keys(rt, task, path);
    }
    if let Some(path) = task.new_key {
        return make_keys(rt, task, path);
    }
    match task.file {
        Some(path) => print_text(rt, task, summary(rt, path, task.listed)),
        None => print_new(rt, task),
    }
}

// Prints the file of a new federation. Without random numbers it would be no new one: so nothing is
// printed then that may be taken for a members file.
fn print_new(rt: &HostRuntime, task: &MembersTask<'_>) -> Result<u8, ProgramFault> {
    let mut random = [0; 4];
    match rt.fill_bytes(&mut random) {
        Ok(()) => {
            let text = new_text(rt.alloc(), random, task.sites.as_slice());
            print_text(rt, task, text)
        }
        Err(_) => no_random_numbers(rt),
    }
}

/// Says that the system has no random numbers, and gives the status 1.
pub(crate) fn no_random_numbers(rt: &HostRuntime) -> Result<u8, ProgramFault> {
    let _ = rt.eprintln("error: the system gives no random numbers");
    Ok(1)
}

fn new_text(alloc: Global, random: [u8; 4], words: &[&str]) -> Result<String, Stop> {
    match try_new_text(alloc, random, words) {
        Ok(text) => Ok(text),
        Err(AllocError) => Err(Stop::Memory),
    }
}

fn try_new_text(alloc: Global, random: [u8; 4], words: &[&str]) -> Result<String, AllocError> {
    let sites = sites_in(alloc, words)?;
    new_list(alloc, random, sites.as_slice())
}

// What the file of this path says, in short.
fn summary(rt: &HostRuntime, path: &str, listed: bool) -> Result<String, Stop> {
    let members = members_at(rt, path)?;
    if listed {
        expect_listed(rt.alloc(), &members)?;
    }
    match summary_of(rt.alloc(), &members) {
        Ok(text) => Ok(text),
        Err(AllocError) => Err(Stop::Memory),
    }
}

fn summary_of(alloc: Global, file: &MemberSites) -> Result<String, AllocError> {
    let members = file.members();
    let federation = members.federation();
    let count = members.count();
    let quorum = members.total_weight() / 2 + 1;
    let digest = digest_of(alloc, file)?;
    format!(in alloc; "ok {federation} {count} {quorum} {digest:016x}\n")
}

/// Prints this text, or why there is none; in lines of JSON, and why in words on standard error, if
/// they are asked for.
pub(crate) fn print_text(
    rt: &HostRuntime,
    task: &MembersTask<'_>,
    text: Result<String, Stop>,
) -> Result<u8, ProgramFault> {
    let speaker = AskedSpeaker::if_asked(rt, task.words, asked(task));
    let lines = JsonLines::new(rt.alloc(), task.json, io::writer(rt));
    let mut output = SpokenLines::new(rt.alloc(), speaker, lines);
    match text {
        Ok(text) => write_output(&mut output, 0, text.as_str()),
        Err(stop) => write_stop(rt.alloc(), &mut output, stop),
    }
}

// What words may speak of: these files alone.
fn asked<'a>(task: &MembersTask<'a>) -> Asked<'a> {
    Asked {
        key: task.key.or(task.new_key),
        ..Asked::of_members(task.file.unwrap_or_default())
    }
}
