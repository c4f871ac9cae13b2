//! Outputs that are files which the command reads, or keeps.

use crate::arguments::Task;
use code_words::{SYNCED, push_name};
use json_lines::JsonLines;
use site_client::{Stop, write_stop};
use std::alloc::{AllocError, Global};
use std::io;
use system_files::{FileId, regular_file_at};

/// What the standard streams are.
const INPUT: &str = "/proc/self/fd/0";

const OUTPUT: &str = "/proc/self/fd/1";

const ERRORS: &str = "/proc/self/fd/2";

/// Whether standard output or standard error is a file that the command reads or keeps, into which
/// each line would go. The other of the two says so; where both are, nobody is told. A site looks
/// after its cell by itself.
pub(crate) fn refuses_outputs(rt: &HostRuntime, task: &Task<'_>) -> Result<bool, AllocError> {
    let output = file_at(rt, OUTPUT);
    let errors = file_at(rt, ERRORS);
    if output.is_none() && errors.is_none() {
        return Ok(false);
    }
    let (mut is_output, mut is_errors) = (None, false);
    let paths = paths_of(rt.alloc(), task)?;
    for path in &paths {
        if let Some(file) = file_at(rt, path.as_str()) {
            if Some(file) == output {
                is_output = Some(path.as_str());
            }
            is_errors = is_errors || Some(file) == errors;
        }
    }
    match is_output {
        Some(path) if !is_errors => say_output(rt, path)?,
        None if is_errors => {
            let output = &mut JsonLines::new(rt.alloc(), wants_json(task), io::writer(rt));
            let _ = write_stop(rt.alloc(), output, Stop::SameFile);
        }
        _ => {}
    }
    Ok(is_output.is_some() || is_errors)
}

// Whether lines of JSON are asked for.
fn wants_json(task: &Task<'_>) -> bool {
    match task {
        Task::Check(check) => check.json,
        Task::Audit(audit) => audit.json,
        Task::CatchUp(catch_up) => catch_up.json,
        Task::Members(members) => members.json,
        Task::Status(status) => status.json,
        Task::Journal(journal) => journal.json,
        Task::Ledger(ledger) => ledger.json,
        Task::Run(_) | Task::Site(_) | Task::Send(_) | Task::Deposits(_) => false,
    }
}

// The regular file to which a path leads, if one does.
fn file_at(rt: &HostRuntime, path: &str) -> Option<FileId> {
    match regular_file_at(rt, path) {
        Ok(file) => file,
        Err(_) => None,
    }
}

fn say_output(rt: &HostRuntime, path: &str) -> Result<(), AllocError> {
    let mut text = String::from_str(rt.alloc(), "bagpaxos: standard output is ")?;
    if path == INPUT {
        text.push_str("the file that is standard input, too")?;
    } else {
        text.push_str("the file ")?;
        push_name(&mut text, path)?;
        text.push_str(", which this command needs")?;
    }
    text.push_str(": send it elsewhere")?;
    let _ = rt.eprintln(text.as_str());
    Ok(())
}

// The files that a command reads or keeps, besides folders.
fn paths_of(alloc: Global, task: &Task<'_>) -> Result<Vec<String>, AllocError> {
    let mut paths = Paths {
        alloc,
        list: Vec::new(alloc),
    };
    match task {
        Task::Run(run) => {
            paths.push(run.file.unwrap_or(INPUT))?;
            paths.push_some(run.drawing)?;
        }
        Task::Check(check) => {
            if let Some(list) = &check.list {
                paths.push(list.path)?;
            }
            paths.push_some(check.registered)?;
        }
        Task::Site(site) => {
            paths.push_federation(site.members, site.key)?;
            paths.push_some(site.log)?;
            paths.push_beside(site.cell)?;
        }
        Task::Send(send) => paths.push_federation(send.members, send.key)?,
        Task::Deposits(deposits) => {
            paths.push_federation(deposits.members, deposits.key)?;
            paths.push(deposits.file)?;
        }
        Task::Audit(audit) => {
            paths.push(audit.members)?;
            paths.push_all(&audit.cells)?;
        }
        Task::CatchUp(catch_up) => {
            paths.push_federation(catch_up.members, catch_up.key)?;
            paths.push_all(&catch_up.files)?;
        }
        Task::Members(members) => {
            paths.push_some(members.file)?;
            paths.push_some(members.key)?;
        }
        Task::Status(status) => {
            paths.push_federation(status.members, status.key)?;
            paths.push_all(&status.files)?;
        }
        Task::Journal(journal) => paths.push(journal.cell)?,
        Task::Ledger(ledger) => paths.push(ledger.cell)?,
    }
    Ok(paths.list)
}

/// Paths of files.
#[derive(Drop)]
struct Paths {
    alloc: Global,
    list: Vec<String>,
}

impl Paths {
    // `-` is standard input.
    fn push(&mut self, path: &str) -> Result<(), AllocError> {
        let path = if path == "-" { INPUT } else { path };
        self.list.push(String::from_str(self.alloc, path)?)?;
        Ok(())
    }

    fn push_some(&mut self, path: Option<&str>) -> Result<(), AllocError> {
        match path {
            Some(path) => self.push(path),
            None => Ok(()),
        }
    }

    fn push_all(&mut self, paths: &[&str]) -> Result<(), AllocError> {
        for path in paths {
            self.push(path)?;
        }
        Ok(())
    }

    fn push_federation(&mut self, members: &str, key: Option<&str>) -> Result<(), AllocError> {
        self.push(members)?;
        self.push_some(key)
    }

    // The file in which a site says how much of its cell is synced.
    fn push_beside(&mut self, cell: &str) -> Result<(), AllocError> {
        self.list.push(format!(in self.alloc; "{cell}{SYNCED}")?)?;
        Ok(())
    }
}
