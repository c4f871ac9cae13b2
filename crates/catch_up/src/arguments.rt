//! The arguments of the command `catch-up`.

use clap::{Arg, ArgMatches, Command, value_parser};
use fed_types::SiteNo;
use json_lines::json_argument;
use site_client::{answer_argument, key_argument, members_argument, to_argument, words_argument};
use std::alloc::{AllocError, Global};

const ABOUT: &str = "Asks a site for all that others know, until it knows that too";

const EXAMPLE: &str = "Each file is a cell, which may be in use and is never changed, or a list that
`ledger` printed; `-` is standard input, and a file may be a pipe, as that of
`<(..)` in a shell. A cell may be of any federation: it is taken as a list of
the bags that it knows. The site is asked for each version for which one of the
files knows a bag. It asks the other sites for what it doesn't know. So it is
asked again, after pauses of 2 ms to a second, until it knows all, or until
--for seconds have passed and each version was asked for: if it is down, each
takes twice --wait. Once it is asked each second, the sites recover what is
left, one after the other: so it learns even what no running site knows, if one
has voted for it. For each known bag of each file it prints
  known OBJ V HEX       the site knows the bag that the file knows
  other OBJ V HEX HEX   it knows the first, and the file knows the second
  open OBJ V            it didn't know the version when time was over
and finally `K of N`: the files have N versions, one of several files once for
each, and of K of them the site knows the bag that the file knows.

With --key what is sent has a tag, as with bagpaxos send.

With --json each line is a line of JSON: an object whose member `line` says what
kind of line it is, and which has a member for each word after that. FORMATS.md
names them.

With --words standard error says in words what lines `other` and `open` say, and
why nobody was asked.

The exit status is 0 if K is N; 1 if it isn't, or a last line says why nobody
was asked:
  members unread    the members file can't be read
  members line N    line N of the members file is at fault
  not a member      the members file has no such site
  key unread        the key file can't be read
  key open to others
                    others than its owner have rights to the key file
  key line N        line N of the key file is at fault
  open 4            a file can't be read
  damaged OFFSET    a cell is damaged from this byte on
  ledger line N     line N of a list is none of a ledger's
  socket            a socket can't be had
  memory            out of memory
or if standard output can't be written; and 2 for a mistake in the arguments.

Example:
  bagpaxos catch-up --members members --to 2 cell.1 cell.3";

/// A site to bring up to date.
#[derive(Debug, Drop)]
pub struct CatchUpTask<'a> {
    pub members: &'a str,
    /// The path of the key file, if there is one.
    pub key: Option<&'a str>,
    pub to: SiteNo,
    /// How many milliseconds an answer may take.
    pub wait: u32,
    pub seconds: u32,
    /// Whether to print lines of JSON.
    pub json: bool,
    /// Whether to say in words what lines say.
    pub words: bool,
    /// The paths of cells and lists.
    pub files: Vec<&'a str>,
}

/// What these arguments of the command ask for.
pub fn catch_up_task<'a>(
    alloc: Global,
    matches: &ArgMatches<'a>,
) -> Result<Option<CatchUpTask<'a>>, AllocError> {
    let mut files = Vec::new(alloc);
    if let Some(paths) = matches.get_strs("FILE") {
        files.extend_from_slice(paths)?;
    }
    Ok(task_of(matches, files))
}

fn task_of<'a>(matches: &ArgMatches<'a>, files: Vec<&'a str>) -> Option<CatchUpTask<'a>> {
    Some(CatchUpTask {
        members: matches.get_str("members")?,
        key: matches.get_str("key"),
        to: SiteNo::new(matches.get_one::<u8>("to")?).ok()?,
        wait: matches.get_one::<u32>("wait")?,
        seconds: matches.get_one::<u32>("for")?,
        json: matches.get_flag("json"),
        words: matches.get_flag("words"),
        files,
    })
}

/// The command, with its help.
pub fn catch_up_command<'a>(alloc: Global) -> Result<Command<'a>, AllocError> {
    let command = Command::new(alloc, "catch-up")
        .about(ABOUT)
        .after_help(EXAMPLE);
    let command = with_site(alloc, command)?;
    command
        .arg(for_argument(alloc))?
        .arg(json_argument(alloc))?
        .arg(words_argument(alloc))?
        .arg(files_argument(alloc))
}

fn with_site<'a>(alloc: Global, command: Command<'a>) -> Result<Command<'a>, AllocError> {
    command
        .arg(members_argument(alloc))?
        .arg(key_argument(alloc))?
        .arg(to_argument(alloc))?
        .arg(answer_argument(alloc))
}

fn for_argument<'a>(alloc: Global) -> Arg<'a> {
    Arg::new(alloc, "for")
        .long("for")
        .value_name("SECONDS")
        .default_value("60")
        .value_parser(value_parser!(u32).range(1..))
        .help("How long it asks, 1 to 4294967295")
}

fn files_argument<'a>(alloc: Global) -> Arg<'a> {
    Arg::new(alloc, "FILE")
        .required(true)
        .num_args(1..)
        .help("Cells, or lists of what they know")
}
