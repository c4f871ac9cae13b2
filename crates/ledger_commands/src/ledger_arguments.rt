//! The arguments of the command `ledger`.

use crate::words_argument::words_argument;
use clap::{Arg, ArgAction, ArgMatches, Command};
use json_lines::json_argument;
use ledger::VersionFilter;
use std::alloc::{AllocError, Global};

const ABOUT: &str = "Prints what a site's cell says of each version: which bag is known";

const EXAMPLE: &str =
    "The cell may be in use, or a copy: it is read without a lock, and never changed.
The newest record of a cell in use may not be synced yet, and a crash may take
it back: the lines say what the bytes are as they are read. A `known` line is
true even so: the votes that chose its bag are synced. `-` is standard input,
and a cell may come through a pipe, as that of `<(..)` in a shell.
It prints a line for each version, in the order in which the versions come first
in the cell:
  known OBJ V HEX         the site knows that this bag was chosen
  pending OBJ V HEX       it knows of none, and has registered this bag as its
                          own deposit
  voted OBJ V HEX         no known bag and no deposit; it voted for this, in its
                          greatest ballot
  asked OBJ V             neither, and no vote: it has promised or issued a
                          ballot, no more
and finally, unless the cell ends with a whole record:
  torn BYTES              so many bytes of a record that was cut short; opening
                          cuts them off
  damaged OFFSET          from this byte on there is neither a record nor a part
                          of one
The versions are then those of the records before that. With `--known`,
`--pending` or both, only the lines of these kinds are printed, and the last
one. `comm` of two sorted lists shows what a site lacks.

With --json each line is a line of JSON: an object whose member `line` says what
kind of line it is, and which has a member for each word after that. FORMATS.md
names them.

With --words standard error says in words why a cell can't be read, and what a
line `torn` or `damaged` says.

The exit status is 0; 1 if the cell is damaged, can't be read (`open 4`), memory
runs out (`memory`) or standard output can't be written; and 2 for a mistake in
the arguments.

Example:
  bagpaxos ledger --known cell.1 | sort > known.1";

/// A cell whose versions to print.
#[derive(Clone, Copy, Debug)]
pub struct LedgerTask<'a> {
    /// The path of its file.
    pub cell: &'a str,
    /// Which of them.
    pub wanted: VersionFilter,
    /// Whether to print lines of JSON.
    pub json: bool,
    /// Whether to say in words what is amiss with it.
    pub words: bool,
}

/// What these arguments of the command ask for.
pub fn ledger_task<'a>(matches: &ArgMatches<'a>) -> Option<LedgerTask<'a>> {
    Some(LedgerTask {
        cell: matches.get_str("CELL")?,
        wanted: VersionFilter {
            known: matches.get_flag("known"),
            pending: matches.get_flag("pending"),
        },
        json: matches.get_flag("json"),
        words: matches.get_flag("words"),
    })
}

/// The command, with its help.
pub fn ledger_command<'a>(alloc: Global) -> Result<Command<'a>, AllocError> {
    Command::new(alloc, "ledger")
        .about(ABOUT)
        .after_help(EXAMPLE)
        .arg(cell_argument(alloc))?
        .arg(known_argument(alloc))?
        .arg(pending_argument(alloc))?
        .arg(json_argument(alloc))?
        .arg(words_argument(alloc))
}

fn cell_argument<'a>(alloc: Global) -> Arg<'a> {
    Arg::new(alloc, "CELL")
        .required(true)
        .help("The file of the cell")
}

fn known_argument<'a>(alloc: Global) -> Arg<'a> {
    Arg::new(alloc, "known")
        .long("known")
        .action(ArgAction::SetTrue)
        .help("Print the versions whose bag is known")
}

fn pending_argument<'a>(alloc: Global) -> Arg<'a> {
    Arg::new(alloc, "pending")
        .long("pending")
        .action(ArgAction::SetTrue)
        .help("Print those with a deposit of the site's and no known bag")
}
