//! The arguments of the command `status`.

use clap::{Arg, ArgAction, ArgMatches, Command, value_parser};
use json_lines::json_argument;
use site_client::{answer_argument, key_argument, members_argument};
use std::alloc::{AllocError, Global};

const ABOUT: &str = "Asks all sites how they stand";

const EXAMPLE: &str =
    "It asks each site of the members file up to three times, and prints a line for
each:
  site S up MS records R known K pending P alone A lacks L
                    its answer came after MS milliseconds; it has R records, and
                    knows K bags; P of its deposits are for versions whose bag
                    it doesn't know; it has heard no majority for A
                    milliseconds; another site, or the files together, know L
                    bags more
  site S silent     no answer came
and finally `federation F K of N`: K of its N sites are well. A site is well if
it answers, L is 0, and A or P is 0. A stays 0 for up to 20 seconds after a
majority was heard last. It compares how many bags are known, not which ones: so
sites that were down one after the other may each lack another one. Run catch-up
after each stop, whatever this says. Where nothing happens the sites are silent:
then A grows, though all is well. While deposits are under way a site may lack
some for a moment; --watch shows whether that lasts.

Each FILE is a cell, which may be in use and is never changed, or a list that
`ledger` printed; a version that one of them knows counts as known elsewhere.
With --watch each is read again each time, so none may come through a pipe.

With --key what is sent has a tag, as with bagpaxos send. With --json each line
is a line of JSON: an object whose member `line` says what kind of line it is,
and which has a member for each word after that. FORMATS.md names them. With
--words standard error says in words why a site isn't well, or why nobody was
asked.

The exit status is 0 if all sites are well; 1 if one isn't, or the last line
says why nobody was asked:
  members unread    the members file can't be read
  members line N    line N of the members file is at fault
  key unread        the key file can't be read
  key open to others
                    others than its owner have rights to the key file
  key line N        line N of the key file is at fault
  open 1            a cell is of another federation
  open 4            a file can't be read
  damaged OFFSET    a cell is damaged from this byte on
  ledger line N     line N of a list is none of a ledger's
  socket            a socket can't be had
  memory            out of memory
or if standard output can't be written; and 2 for a mistake in the arguments.
With --watch it goes on until it is stopped, or a line says why nobody was
asked.

Example:
  bagpaxos status --members members";

/// A federation whose sites are asked.
#[derive(Debug, Drop)]
pub struct StatusTask<'a> {
    pub members: &'a str,
    /// The path of the key file, if there is one.
    pub key: Option<&'a str>,
    /// How many milliseconds an answer may take.
    pub wait: u32,
    /// After how many seconds they are asked again, if they are.
    pub watch: Option<u32>,
    /// Whether to print lines of JSON.
    pub json: bool,
    /// Whether to say in words what lines say.
    pub words: bool,
    /// The paths of cells and lists.
    pub files: Vec<&'a str>,
}

/// What these arguments of the command ask for.
pub fn status_task<'a>(
    alloc: Global,
    matches: &ArgMatches<'a>,
) -> Result<Option<StatusTask<'a>>, AllocError> {
    let mut files = Vec::new(alloc);
    if let Some(paths) = matches.get_strs("FILE") {
        files.extend_from_slice(paths)?;
    }
    Ok(task_of(matches, files))
}

fn task_of<'a>(matches: &ArgMatches<'a>, files: Vec<&'a str>) -> Option<StatusTask<'a>> {
    Some(StatusTask {
        members: matches.get_str("members")?,
        key: matches.get_str("key"),
        wait: matches.get_one::<u32>("wait")?,
        watch: matches.get_one::<u32>("watch"),
        json: matches.get_flag("json"),
        words: matches.get_flag("words"),
        files,
    })
}

/// The command, with its help.
pub fn status_command<'a>(alloc: Global) -> Result<Command<'a>, AllocError> {
    let command = Command::new(alloc, "status")
        .about(ABOUT)
        .after_help(EXAMPLE);
    let command = with_federation(alloc, command)?;
    command
        .arg(json_argument(alloc))?
        .arg(words_argument(alloc))?
        .arg(files_argument(alloc))
}

fn with_federation<'a>(alloc: Global, command: Command<'a>) -> Result<Command<'a>, AllocError> {
    command
        .arg(members_argument(alloc))?
        .arg(key_argument(alloc))?
        .arg(answer_argument(alloc))?
        .arg(watch_argument(alloc))
}

fn watch_argument<'a>(alloc: Global) -> Arg<'a> {
    Arg::new(alloc, "watch")
        .long("watch")
        .value_name("SECONDS")
        .value_parser(value_parser!(u32).range(1..))
        .help("Ask again after so many seconds, and go on")
}

fn words_argument<'a>(alloc: Global) -> Arg<'a> {
    Arg::new(alloc, "words")
        .long("words")
        .action(ArgAction::SetTrue)
        .help("Say in words, on standard error, what lines say")
}

fn files_argument<'a>(alloc: Global) -> Arg<'a> {
    Arg::new(alloc, "FILE")
        .num_args(0..)
        .help("Cells, or lists of what they know")
}
