//! The command `check`: folders of the file system.

use crate::all_folders::check_all_on;
use crate::arguments::CheckTask;
use crate::folder_list::{FolderList, list_bytes, names_in};
use crate::named::push_escaped_bytes;
use crate::named_folders::check_names_on;
use crate::other_list::other_list;
use crate::progress::{Progress, Saying};
use crate::read_folders::{Digests, ReadFolders};
use crate::report::{Detail, Question};
use crate::tallied_folders::TalliedFolders;
use crate::tally::Tally;
use bag_folders::Folders;
use bag_words::{Names, SpokenFolders, Wanted};
use code_words::{meaning_of_line, say_text};
use counted_writes::{CountedWrite, CountedWriter, write_output};
use file_words::{push_file_words, push_source_name, say_no_line};
use outcomes::{ProgramFault, ReadFault};
use std::alloc::{AllocError, Global};
use std::io::{IsTerminal, Stderr};
use std::time::Instant;
use std::{io, str};

// What is said of a name in a list that isn't UTF-8.
const NO_NAME: &str =
    "the name isn't UTF-8, so no such folder is read: if the folder's own name is, \
    save the list as UTF-8, or else rename the folder";

/// Checks as the arguments say. It writes the lines to standard output, and its progress to
/// standard error.
pub fn check_folders(rt: &HostRuntime, task: &CheckTask<'_>) -> Result<u8, ProgramFault> {
    match task.list {
        Some(list) => check_listed(rt, task, list),
        None if task.named => check_named(rt, task),
        None => check_given(rt, task),
    }
}

// Checks the folders of a list. If that can't be read, a line says so.
fn check_listed(
    rt: &HostRuntime,
    task: &CheckTask<'_>,
    list: FolderList<'_>,
) -> Result<u8, ProgramFault> {
    let mut output = CountedWriter::new(io::writer(rt));
    let bytes = match list_bytes(rt, list) {
        Ok(bytes) => bytes,
        Err(ReadFault::Input) => {
            let status = write_output(&mut output, 1, unread_list(task))?;
            if task.words {
                say_unread(rt, list.path);
            }
            return Ok(status);
        }
        Err(ReadFault::Memory) => return end_without_memory(rt, task, &mut output),
    };
    match names_in(rt.alloc(), bytes.as_slice(), list.end) {
        Ok(names) => {
            let other = if task.words {
                other_list(bytes.as_slice(), list.end)
            } else {
                None
            };
            let from = if other.is_some() {
                Names::Mistaken
            } else {
                Names::Listed
            };
            let answer = check_names(rt, task, names.as_slice(), from, &mut output);
            match other {
                Some(said) => say_text(rt, other_words(rt, list.path, said)),
                None if task.words => say_names(rt, list.path, names.as_slice()),
                None => {}
            }
            answer
        }
        Err(AllocError) => end_without_memory(rt, task, &mut output),
    }
}

// What the list of this path is in place of one of folders.
fn other_words(rt: &HostRuntime, path: &str, said: &str) -> Result<String, AllocError> {
    let mut text = String::new(rt.alloc());
    push_source_name(&mut text, path)?;
    text.push_str(": ")?;
    text.push_str(said.strip_prefix("; ").unwrap_or(said))?;
    Ok(text)
}

// Says which names of a list aren't UTF-8, and so are those of no folder; or that there are none.
fn say_names(rt: &HostRuntime, list: &str, names: &[&[u8]]) {
    if names.is_empty() {
        say_no_line(rt, list);
    }
    for name in names {
        if str::from_utf8(name).is_err() {
            let mut text = String::new(rt.alloc());
            if push_escaped_bytes(&mut text, name).is_ok() {
                let _ = eprintln!(rt; "{text}: {NO_NAME}");
            }
        }
    }
}

// Checks the folders that the arguments name, each with its name.
fn check_named(rt: &HostRuntime, task: &CheckTask<'_>) -> Result<u8, ProgramFault> {
    let mut output = CountedWriter::new(io::writer(rt));
    match names_of(rt.alloc(), task.paths.as_slice()) {
        Ok(names) => check_names(rt, task, names.as_slice(), Names::Given, &mut output),
        Err(AllocError) => end_without_memory(rt, task, &mut output),
    }
}

// Says why a list can't be read.
fn say_unread(rt: &HostRuntime, path: &str) {
    let mut text = String::new(rt.alloc());
    if push_file_words(rt, &mut text, path, "open 4").is_ok() {
        let _ = rt.eprintln(text.as_str());
    }
}

// The line where a list can't be read.
fn unread_list(task: &CheckTask<'_>) -> &'static str {
    if task.json {
        "{\"code\":4,\"verdict\":\"open\"}\n"
    } else {
        "open 4\n"
    }
}

// Writes that memory ran out before any folder was read, and says it if words are asked for.
fn end_without_memory<W: CountedWrite>(
    rt: &HostRuntime,
    task: &CheckTask<'_>,
    output: &mut W,
) -> Result<u8, ProgramFault> {
    let status = write_output(output, 1, no_memory(task))?;
    if task.words {
        say_text(rt, memory_words(rt));
    }
    Ok(status)
}

fn memory_words(rt: &HostRuntime) -> Result<String, AllocError> {
    let mut text = String::new(rt.alloc());
    if let Some(meaning) = meaning_of_line(rt.alloc(), "memory")? {
        meaning.push(&mut text)?;
    }
    Ok(text)
}

// The line where memory ran out before any folder was read.
fn no_memory(task: &CheckTask<'_>) -> &'static str {
    if task.json {
        "{\"verdict\":\"memory\"}\n"
    } else {
        "memory\n"
    }
}

fn names_of<'a>(alloc: Global, paths: &[&'a str]) -> Result<Vec<&'a [u8]>, AllocError> {
    let mut names = Vec::new(alloc);
    for path in paths {
        names.push(path.as_bytes())?;
    }
    Ok(names)
}

fn check_names<W: CountedWrite>(
    rt: &HostRuntime,
    task: &CheckTask<'_>,
    names: &[&[u8]],
    from: Names,
    output: &mut W,
) -> Result<u8, ProgramFault> {
    let folders = TalliedFolders::new(rt, digests(task), tally(rt, task, names));
    let mut folders = spoken_from(rt, task, from, folders);
    let answer = check_names_on(rt.alloc(), &mut folders, names, task.form(), output);
    folders.folders().end();
    folders.say();
    answer
}

// What is said of these folders while they are read. One whose name isn't UTF-8 isn't read.
fn tally(rt: &HostRuntime, task: &CheckTask<'_>, names: &[&[u8]]) -> Tally {
    let mut folders: u64 = 0;
    for name in names {
        if str::from_utf8(name).is_ok() {
            folders = folders.saturating_add(1);
        }
    }
    Tally {
        folder: 0,
        folders,
        saying: saying(rt, task),
        stays: !task.words && !rt.stdout().is_terminal(),
        start: Instant::now(rt).ok(),
        said: None,
        is_shown: false,
    }
}

fn check_given(rt: &HostRuntime, task: &CheckTask<'_>) -> Result<u8, ProgramFault> {
    let mut output = CountedWriter::new(io::writer(rt));
    match watched_folders(rt, task) {
        Ok(folders) => {
            let mut folders = spoken_folders(rt, task, folders);
            let paths = task.paths.as_slice();
            let answer = check_all_on(rt.alloc(), &mut folders, paths, task.report(), &mut output);
            folders.say();
            answer
        }
        Err(AllocError) => end_without_memory(rt, task, &mut output),
    }
}

/// These folders, which the arguments name. If that is asked for, they explain each check in words
/// on standard error, after the folder's line; they explain the last folder once `say` is called.
pub fn spoken_folders<'a, F: Folders>(
    rt: &'a HostRuntime,
    task: &CheckTask<'_>,
    folders: F,
) -> SpokenFolders<'a, F> {
    spoken_from(rt, task, Names::Given, folders)
}

// The same, with names from there.
fn spoken_from<'a, F: Folders>(
    rt: &'a HostRuntime,
    task: &CheckTask<'_>,
    from: Names,
    folders: F,
) -> SpokenFolders<'a, F> {
    let are_named = task.named || task.paths.len() != 1;
    SpokenFolders::new(rt, wanted_words(task), are_named, from, folders)
}

// Which words are wanted.
fn wanted_words(task: &CheckTask<'_>) -> Wanted {
    match task.question {
        _ if !task.words => Wanted::Nothing,
        Question::Completeness => Wanted::Gaps,
        Question::Validity => Wanted::All,
    }
}

/// The folders of the file system. They report the progress of each check on standard error, if
/// that is asked for or a person may read it.
pub fn watched_folders(
    rt: &HostRuntime,
    task: &CheckTask<'_>,
) -> Result<ReadFolders<Progress<HostRuntime, Stderr>>, AllocError> {
    let watcher = Progress::new(rt.alloc(), rt.clone()?, rt.stderr(), saying(rt, task));
    Ok(ReadFolders::new(rt.clone()?, watcher, digests(task)))
}

// When progress is reported.
fn saying(rt: &HostRuntime, task: &CheckTask<'_>) -> Saying {
    if task.quiet {
        Saying::Never
    } else if rt.stderr().is_terminal() {
        Saying::Line
    } else if task.progress {
        Saying::All
    } else {
        Saying::Never
    }
}

// Which digests are computed: everything that is wrong is reported if that is asked for, including
// wrong digests.
fn digests(task: &CheckTask<'_>) -> Digests {
    Digests::for_question(
        task.question,
        task.words || task.detail == Detail::Explained,
    )
}
