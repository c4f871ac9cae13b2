//! What the arguments ask for.

use crate::fault::Fault;
use fed_types::SiteNo;
use std::env::Args;

/// What the program is to do, where its arguments name a task.
#[derive(Clone, Copy, Debug)]
pub enum Task {
    /// Encode a datagram so often, to be timed.
    Encode,
    /// Decode a datagram so often, to be timed.
    Decode,
    /// Take a SHA-256 so often, to be timed beside these.
    Digest,
    /// Take that of a record so often.
    DigestVote,
    /// Open the cell in a file.
    File,
    /// Open the cell in a file, and commit a record.
    Commit,
    /// Open the cell in a file, and do what the lines of standard input ask for.
    Turns,
    /// Commit so many records, and take the time.
    Bench,
    /// Write a journal of so many records.
    Fill,
    /// Open the cell in a file, and take the time.
    Open,
    /// Open a cell in memory and commit a record, to have allocations fail.
    Memory,
    /// Call acceptor, proposer and learner, to have allocations fail.
    Deciding,
    /// Call them on so many slots, and take the time.
    Decide,
    /// Call a site on so many slots, and take the time.
    Arrive,
    /// Serve the turns on standard input, to have allocations fail.
    Serving,
    /// Call sites as the script on standard input says.
    Sites,
    /// The same, up to a call without memory.
    SitesOnce,
    /// Read the schedule on standard input, and print it.
    Schedule,
}

/// The task of this name.
pub fn task_of(name: &str) -> Option<Task> {
    match name {
        "encode" => Some(Task::Encode),
        "decode" => Some(Task::Decode),
        "digest" => Some(Task::Digest),
        "digest-vote" => Some(Task::DigestVote),
        "file" => Some(Task::File),
        "commit" => Some(Task::Commit),
        "turns" => Some(Task::Turns),
        "bench" => Some(Task::Bench),
        "fill" => Some(Task::Fill),
        "open" => Some(Task::Open),
        "memory" => Some(Task::Memory),
        "deciding" => Some(Task::Deciding),
        "decide" => Some(Task::Decide),
        "serving" => Some(Task::Serving),
        "sites" => Some(Task::Sites),
        "sites-once" => Some(Task::SitesOnce),
        "schedule" => Some(Task::Schedule),
        "arrive" => Some(Task::Arrive),
        _ => None,
    }
}

/// A journal of a site, in a file.
#[derive(Drop)]
pub struct SiteFile {
    pub path: String,
    pub site: SiteNo,
}

/// A file, and how many records are asked for.
#[derive(Drop)]
pub struct CountedFile {
    pub path: String,
    pub count: u32,
}

/// The journal that the last two arguments name.
pub fn last_site_file(words: &mut Args) -> Result<SiteFile, Fault> {
    let path = word(words)?;
    match last_site(words) {
        Ok(site) => Ok(SiteFile { path, site }),
        Err(fault) => Err(fault),
    }
}

/// The file and the number that are the last two arguments.
pub fn last_counted_file(words: &mut Args) -> Result<CountedFile, Fault> {
    let path = word(words)?;
    match last_count(words) {
        Ok(count) => Ok(CountedFile { path, count }),
        Err(fault) => Err(fault),
    }
}

/// The last argument.
pub fn last_word(words: &mut Args) -> Result<String, Fault> {
    let word = word(words)?;
    match no_more(words) {
        Ok(()) => Ok(word),
        Err(fault) => Err(fault),
    }
}

/// The number that is the last argument.
pub fn last_count(words: &mut Args) -> Result<u32, Fault> {
    let word = last_word(words)?;
    word.parse::<u32>().or(Err(Fault::Arguments))
}

fn last_site(words: &mut Args) -> Result<SiteNo, Fault> {
    let word = last_word(words)?;
    site_of(word.as_str()).ok_or(Fault::Arguments)
}

/// There are no further arguments.
pub fn no_more(words: &mut Args) -> Result<(), Fault> {
    match words.next() {
        None => Ok(()),
        Some(_) => Err(Fault::Arguments),
    }
}

/// The site of this number in digits.
pub fn site_of(digits: &str) -> Option<SiteNo> {
    SiteNo::new(digits.parse::<u8>().ok()?).ok()
}

fn word(words: &mut Args) -> Result<String, Fault> {
    match words.next() {
        Some(word) => Ok(word),
        None => Err(Fault::Arguments),
    }
}
