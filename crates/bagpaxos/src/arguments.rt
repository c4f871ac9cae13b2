//! What the program's arguments ask for.

use crate::run_arguments::{RunTask, run_command, run_task};
use audit_command::{AuditTask, audit_command, audit_task};
use catch_up::{CatchUpTask, catch_up_command, catch_up_task};
use clap::error::ErrorKind;
use clap::{ArgMatches, Command, Error};
use deposit_list::{DepositsTask, deposits_task};
use folder_checks::{CheckTask, check_command, check_task};
use ledger_commands::{
    JournalTask, LedgerTask, journal_command, journal_task, ledger_command, ledger_task,
};
use site_commands::{
    MembersTask, SendTask, SiteTask, members_command, members_task, send_command, send_task,
    site_command, site_task,
};
use status_command::{StatusTask, status_command, status_task};
use std::alloc::{AllocError, Global};

const ABOUT: &str = "Several repositories, each with copies of one collection, agree which bag is a
version of an object, with no master site.";

const EXAMPLE: &str =
    "`bagpaxos help codes` lists the numbers and words that it prints, and what each
means.

Example:
  bagpaxos run < examples/first.schedule";

/// The program's version, and the layouts of bytes that it reads.
const VERSION: &str = "0.1.0
cells: layouts 1 and 2
datagrams: layout 2";

/// What the program is asked to do.
#[derive(Debug, Drop)]
pub enum Task<'a> {
    /// Run a schedule.
    Run(RunTask<'a>),
    /// Check folders.
    Check(CheckTask<'a>),
    /// Serve as a site.
    Site(SiteTask<'a>),
    /// Ask a site that serves.
    Send(SendTask<'a>),
    /// Send the deposits of a file to a site that serves.
    Deposits(DepositsTask<'a>),
    /// Print what a cell says.
    Journal(JournalTask<'a>),
    /// Say what cells prove together.
    Audit(AuditTask<'a>),
    /// Bring a site up to date.
    CatchUp(CatchUpTask<'a>),
    /// Read a members file, or write one.
    Members(MembersTask<'a>),
    /// Say how all sites stand.
    Status(StatusTask<'a>),
    /// Print what a cell says of each version.
    Ledger(LedgerTask<'a>),
}

/// What these words ask for; the first is the program's own name. Help is an error of clap's that
/// goes to standard output, with status 0.
pub fn task_of(alloc: Global, words: &[String]) -> Result<Option<Task<'_>>, Error> {
    let matches = matches_of(alloc, words)?;
    let task = task_in(alloc, &matches)?;
    match mistake_in(alloc, &task)? {
        Some(mistake) => Err(refusal(alloc, mistake.as_str())?),
        None => Ok(task),
    }
}

fn matches_of<'a>(alloc: Global, words: &'a [String]) -> Result<ArgMatches<'a>, Error> {
    command(alloc)?.try_get_matches_from(words)
}

// What clap doesn't see of a mistake.
fn mistake_in(alloc: Global, task: &Option<Task>) -> Result<Option<String>, AllocError> {
    match task {
        Some(Task::Check(check)) => text_of(alloc, check.mistake()),
        Some(Task::Send(send)) => text_of(alloc, send.mistake()),
        Some(Task::Site(site)) => site.mistake(alloc),
        Some(Task::Members(members)) => members.mistake(alloc),
        _ => Ok(None),
    }
}

fn text_of(alloc: Global, mistake: Option<&str>) -> Result<Option<String>, AllocError> {
    match mistake {
        Some(mistake) => Ok(Some(String::from_str(alloc, mistake)?)),
        None => Ok(None),
    }
}

fn refusal(alloc: Global, mistake: &str) -> Result<Error, AllocError> {
    command(alloc)?.error(ErrorKind::ValueValidation, mistake)
}

fn task_in<'a>(alloc: Global, matches: &ArgMatches<'a>) -> Result<Option<Task<'a>>, AllocError> {
    if let Some(check) = matches.subcommand_matches("check") {
        return Ok(Some(Task::Check(check_task(alloc, check)?)));
    }
    if let Some(audit) = matches.subcommand_matches("audit") {
        return match audit_task(alloc, audit)? {
            Some(task) => Ok(Some(Task::Audit(task))),
            None => Ok(None),
        };
    }
    if let Some(catch_up) = matches.subcommand_matches("catch-up") {
        return match catch_up_task(alloc, catch_up)? {
            Some(task) => Ok(Some(Task::CatchUp(task))),
            None => Ok(None),
        };
    }
    if let Some(status) = matches.subcommand_matches("status") {
        return match status_task(alloc, status)? {
            Some(task) => Ok(Some(Task::Status(task))),
            None => Ok(None),
        };
    }
    if let Some(members) = matches.subcommand_matches("members") {
        return Ok(Some(Task::Members(members_task(alloc, members)?)));
    }
    Ok(other_task_in(matches))
}

fn other_task_in<'a>(matches: &ArgMatches<'a>) -> Option<Task<'a>> {
    if let Some(run) = matches.subcommand_matches("run") {
        return Some(Task::Run(run_task(run)));
    }
    if let Some(site) = matches.subcommand_matches("site") {
        return match site_task(site) {
            Some(task) => Some(Task::Site(task)),
            None => None,
        };
    }
    if let Some(send) = matches.subcommand_matches("send") {
        return send_task_in(send);
    }
    cell_task_in(matches)
}

fn send_task_in<'a>(send: &ArgMatches<'a>) -> Option<Task<'a>> {
    if let Some(task) = deposits_task(send) {
        return Some(Task::Deposits(task));
    }
    match send_task(send) {
        Some(task) => Some(Task::Send(task)),
        None => None,
    }
}

fn cell_task_in<'a>(matches: &ArgMatches<'a>) -> Option<Task<'a>> {
    if let Some(ledger) = matches.subcommand_matches("ledger") {
        return match ledger_task(ledger) {
            Some(task) => Some(Task::Ledger(task)),
            None => None,
        };
    }
    match journal_task(matches.subcommand_matches("journal")?) {
        Some(task) => Some(Task::Journal(task)),
        None => None,
    }
}

// Each part is added in a call of its own, since it is costly to prove that a command is carried
// past a `?`.
fn command<'a>(alloc: Global) -> Result<Command<'a>, AllocError> {
    let command = with_subcommand(Ok(program(alloc)), audit_command(alloc));
    let command = with_subcommand(command, catch_up_command(alloc));
    let command = with_subcommand(command, check_command(alloc));
    let command = with_subcommand(command, journal_command(alloc));
    let command = with_subcommand(command, ledger_command(alloc));
    let command = with_subcommand(command, members_command(alloc));
    let command = with_subcommand(command, run_command(alloc));
    let command = with_subcommand(command, send_command(alloc));
    let command = with_subcommand(command, site_command(alloc));
    with_subcommand(command, status_command(alloc))
}

fn program<'a>(alloc: Global) -> Command<'a> {
    Command::new(alloc, "bagpaxos")
        .about(ABOUT)
        .after_help(EXAMPLE)
        .version(VERSION)
        .subcommand_required(true)
}

fn with_subcommand<'a>(
    command: Result<Command<'a>, AllocError>,
    subcommand: Result<Command<'a>, AllocError>,
) -> Result<Command<'a>, AllocError> {
    command?.subcommand(subcommand?)
}
