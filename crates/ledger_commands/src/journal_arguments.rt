//! The arguments of the command `journal`.

use crate::words_argument::words_argument;
use clap::{Arg, ArgMatches, Command};
use json_lines::json_argument;
use std::alloc::{AllocError, Global};

const ABOUT: &str = "Prints what a site's cell says, record by record";

const EXAMPLE: &str =
    "The cell may be in use, or a copy: it is read without a lock, and never changed.
The newest record of a cell in use may not be synced yet, and a crash may take
it back: the lines say what the bytes are as they are read. `-` is standard
input, and a cell may come through a pipe, as that of `<(..)` in a shell. It
prints
  cell F S [W1 .. WN]     whose it is: the federation, the site, and the
                          members' weights, if the cell names them
and then a line for each record, in order:
  deposit OBJ V HEX       the site registered this bag as its deposit
  round OBJ V R           it issued a ballot of round R
  promise OBJ V R S       it promised the ballot of round R of site S
  vote OBJ V R S HEX      it voted for this bag in that ballot
  known OBJ V HEX         it knows that this bag was chosen
and finally, unless the cell ends with a whole record:
  torn BYTES              so many bytes of a record that was cut short; opening
                          cuts them off
  damaged OFFSET          from this byte on there is neither a record nor a part
                          of one

With --json each line is a line of JSON: an object whose member `line` says what
kind of line it is, and which has a member for each word after that. FORMATS.md
names them.

With --words standard error says in words why a cell can't be read, and what the
last line says.

The exit status is 0; 1 if the cell is damaged, can't be read (`open 4`), memory
runs out (`memory`) or standard output can't be written; and 2 for a mistake in
the arguments.

Example:
  bagpaxos journal cell.1";

/// A cell to print.
#[derive(Clone, Copy, Debug)]
pub struct JournalTask<'a> {
    /// The path of its file.
    pub cell: &'a str,
    /// Whether to print lines of JSON.
    pub json: bool,
    /// Whether to say in words what is amiss with it.
    pub words: bool,
}

/// What these arguments of the command ask for.
pub fn journal_task<'a>(matches: &ArgMatches<'a>) -> Option<JournalTask<'a>> {
    Some(JournalTask {
        cell: matches.get_str("CELL")?,
        json: matches.get_flag("json"),
        words: matches.get_flag("words"),
    })
}

/// The command, with its help.
pub fn journal_command<'a>(alloc: Global) -> Result<Command<'a>, AllocError> {
    let cell = Arg::new(alloc, "CELL")
        .required(true)
        .help("The file of the cell");
    Command::new(alloc, "journal")
        .about(ABOUT)
        .after_help(EXAMPLE)
        .arg(cell)?
        .arg(json_argument(alloc))?
        .arg(words_argument(alloc))
}
