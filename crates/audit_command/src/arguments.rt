//! The arguments of the command `audit`.

ghost use Rattle.std.specs.Prelude.{◌≡◌, map, codes, IfOk};
ghost use Rattle.clap.specs.Matches.{found_of};
ghost use Rattle.audit_command.specs.Arguments.{values_of, IsTaskIn};

use clap::{Arg, ArgAction, ArgMatches, Command};
use json_lines::json_argument;
use site_client::members_argument;
use std::alloc::{AllocError, Global};

const ABOUT: &str = "Says which bags the cells of several sites prove to be chosen";

const EXAMPLE: &str = "Cells may be in use. Of such a cell all whole records but the last 64 count,
since a crash may take back what its site has appended and not synced. Of those
64 the ones count that the file CELL.synced, which the site writes, says are
synced. A cell that no site holds is synced before it is read, and a site that
starts meanwhile waits for that. No cell is changed. Cells may be copies, but a
copy of a cell in use can't be recognised as one: copy a cell while its site is
stopped, or audit the cell itself. Two cells of one site count as one. `-` is
standard input. What comes through a pipe, as that of `<(..)` in a shell, can't
be synced: it counts as a cell in use.

First it prints
  in-use CELL            for each cell that is in use; it changes no status
and then for each cell that can't be used as it is:
  unread CELL            it can't be opened, synced or read, or begins with no
                         header; what was read before a fault is used
  foreign CELL           it is of another federation, of no member, or of other
                         weights; if no header names any, each is 1. Nothing of
                         it is used
  damaged CELL OFFSET    it is damaged from this byte on; what comes before is
                         used
For each version, in the order in which the cells name them:
  chosen OBJ V HEX R S   members with more than half of all weight have a vote
                         for this bag on record, in the ballot of round R of
                         site S: no other bag is ever known
  known OBJ V HEX        a cell says that this bag is known; these cells don't
                         show why
  open OBJ V             these cells show no bag
  conflict OBJ V HEX HEX
                         they show two bags: docs/AUDIT.md has what may be the
                         cause
and finally how many of each there are: C chosen, K known, O open, X conflicts.

With --json each line is a line of JSON: an object whose member `line` says what
kind of line it is, and which has a member for each word after that. FORMATS.md
names them.

With --words standard error says of each cell whether it is in use, or why it
can't be opened or used; and of each conflict which cells know either bag, or
have a vote for it.

The exit status is 0 if there is no conflict, and each cell can be used as it
is; 1 if that isn't so, or a last line says `members unread`, `members line N`
or `memory`, or standard output can't be written; and 2 for a mistake in the
arguments.

Example:
  bagpaxos audit --members members cell.1 cell.2 cell.3";

/// Cells to audit.
#[derive(Debug, Drop)]
pub struct AuditTask<'a> {
    pub members: &'a str,
    /// The paths of the cells.
    pub cells: Vec<&'a str>,
    /// Whether to print lines of JSON.
    pub json: bool,
    /// Whether to say in words how each cell was opened, and which name the bags of a conflict.
    pub words: bool,
}

/// What these arguments of the command ask for; `None` if they name no members.
pub fn audit_task<'a>(
    alloc: Global,
    matches: &ArgMatches<'a>,
) -> Result<Option<AuditTask<'a>>, AllocError>
    ensures { IfOk result (IsTaskIn (found_of matches.now)) }
{
    let cells = cells_of(alloc, matches)?;
    let json = matches.get_flag("json");
    let words = matches.get_flag("words");
    match matches.get_str("members") {
        Some(members) => Ok(Some(AuditTask {
            members,
            cells,
            json,
            words,
        })),
        None => Ok(None),
    }
}

// The paths of the cells.
fn cells_of<'a>(alloc: Global, matches: &ArgMatches<'a>) -> Result<Vec<&'a str>, AllocError>
    ensures { IfOk result (λ cells. map (λ path. path.now) cells.items
        ≡ values_of (found_of matches.now) (codes "CELL")) }
{
    let mut cells = Vec::new(alloc);
    if let Some(paths) = matches.get_strs("CELL") {
        cells.extend_from_slice(paths)?;
    }
    Ok(cells)
}

/// The command, with its help.
pub fn audit_command<'a>(alloc: Global) -> Result<Command<'a>, AllocError> {
    let cells = Arg::new(alloc, "CELL")
        .required(true)
        .num_args(1..)
        .help("The files of the cells");
    let words = Arg::new(alloc, "words")
        .long("words")
        .action(ArgAction::SetTrue)
        .help("Say in words, on standard error, what is amiss and where");
    Command::new(alloc, "audit")
        .about(ABOUT)
        .after_help(EXAMPLE)
        .arg(members_argument(alloc))?
        .arg(json_argument(alloc))?
        .arg(words)?
        .arg(cells)
}
