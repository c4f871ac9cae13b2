//! The arguments of the command `members`.

use crate::member_words::list_fault;
use clap::{Arg, ArgAction, ArgMatches, Command};
use json_lines::json_argument;
use site_client::{key_argument, words_argument};
use std::alloc::{AllocError, Global};

const ABOUT: &str = "Reads a members file or a key file, or writes one";

const EXAMPLE: &str = "Of a members file it prints
  ok F N Q HEX      the federation's number, the number of its sites, the
                    weight that decides, and a digest of what the file says.
                    Sites with different digests mustn't be run together:
                    compare it before the first start, and after every copy of
                    the file.
With --new it prints the members file of a new federation, with sites at these
places, that of site 1 first, each with its weight if one is given. A place is a
port of this machine, or an address and a port of any machine: all of a file are
ports, or all are addresses of IPv4, 192.0.2.1:4001, or all of IPv6 in brackets,
[2001:db8::1]:4001. A name of a machine isn't taken, since it may lead elsewhere
tomorrow. Half of the federation's number is random: so no two federations are
the same, even at the same places, and their sites don't hear each other, nor
open each other's cells. The other half comes from the list: from the number of
sites and their weights. With --listed a file whose number doesn't come from its
list is refused, as one in which a site is missing. Places aren't in it: they
may be changed, in all copies of the file, while no site runs.

With --key it prints a line for each key of a key file, `key sites NAME` or
`key clients NAME`. A name says which key it is, and doesn't give it away:
compare names, and never keys. With --new-key it writes a key file, for its
owner alone, with random keys, and prints their names.

With --json each line is a line of JSON: an object whose member `line` says what
kind of line it is, and which has a member for each word after that. FORMATS.md
names them. With --words standard error says in words what the last line says,
if something is amiss.

The exit status is 0; 1 if the last line says what is amiss:
  members unread        the members file can't be read
  members line N        line N of the members file is at fault
  members other list    with --listed: the federation's number doesn't come from
                        this list
  key unread            the key file can't be read
  key open to others    others than its owner have rights to the key file
  key line N            line N of the key file is at fault
  key exists            --new-key names a file that is there; it stays as it is
  key unwritten         the new key file can't be written
  memory                out of memory
or if standard output can't be written, or the system has no random numbers, and
standard error says so; and 2 for a mistake in the arguments.

Examples:
  bagpaxos members --new 5011 5012 5013 > members
  bagpaxos members --new 5011:2 5012 5013 > members
  bagpaxos members --new 192.0.2.1:4001 192.0.2.2:4001:2 > members
  bagpaxos members members
  bagpaxos members --new-key key";

/// A members file or a key file to read, or to write.
#[derive(Debug, Drop)]
pub struct MembersTask<'a> {
    /// The path of the file that is to be read, if one is.
    pub file: Option<&'a str>,
    /// Whether its number has to come from its list.
    pub listed: bool,
    /// The sites of the file that is to be written, each as `PORT` or `ADDRESS:PORT`, and
    /// `:WEIGHT` after it if it has one.
    pub sites: Vec<&'a str>,
    /// The path of the key file that is to be read, if one is.
    pub key: Option<&'a str>,
    /// The path of the key file that is to be made, if one is.
    pub new_key: Option<&'a str>,
    /// Whether to print lines of JSON.
    pub json: bool,
    /// Whether to say in words what a last line says is amiss.
    pub words: bool,
}

impl MembersTask<'_> {
    /// What is amiss in the arguments together, if anything is.
    pub fn mistake(&self, alloc: Global) -> Result<Option<String>, AllocError> {
        list_fault(alloc, self.sites.as_slice())
    }
}

/// What these arguments of the command ask for.
pub fn members_task<'a>(
    alloc: Global,
    matches: &ArgMatches<'a>,
) -> Result<MembersTask<'a>, AllocError> {
    let mut sites = Vec::new(alloc);
    if let Some(words) = matches.get_strs("new") {
        sites.extend_from_slice(words)?;
    }
    Ok(MembersTask {
        file: matches.get_str("FILE"),
        listed: matches.get_flag("listed"),
        sites,
        key: matches.get_str("key"),
        new_key: matches.get_str("new-key"),
        json: matches.get_flag("json"),
        words: matches.get_flag("words"),
    })
}

/// The command, with its help.
pub fn members_command<'a>(alloc: Global) -> Result<Command<'a>, AllocError> {
    Command::new(alloc, "members")
        .about(ABOUT)
        .after_help(EXAMPLE)
        .arg(new_argument(alloc)?)?
        .arg(listed_argument(alloc)?)?
        .arg(names_argument(alloc)?)?
        .arg(new_key_argument(alloc)?)?
        .arg(lines_argument(alloc)?)?
        .arg(words_argument(alloc))?
        .arg(file_argument(alloc)?)
}

fn new_argument<'a>(alloc: Global) -> Result<Arg<'a>, AllocError> {
    Arg::new(alloc, "new")
        .long("new")
        .value_name("PLACE")
        .num_args(1..)
        .help("Print a members file; each site as PLACE or PLACE:WEIGHT")
        .conflicts_with("FILE")
}

fn listed_argument<'a>(alloc: Global) -> Result<Arg<'a>, AllocError> {
    Arg::new(alloc, "listed")
        .long("listed")
        .action(ArgAction::SetTrue)
        .help("Refuse a file whose number doesn't come from its list")
        .conflicts_with("new")?
        .conflicts_with("key")?
        .conflicts_with("new-key")
}

fn names_argument<'a>(alloc: Global) -> Result<Arg<'a>, AllocError> {
    key_argument(alloc)
        .help("Print the names of the keys of this file")
        .conflicts_with("FILE")?
        .conflicts_with("new")?
        .conflicts_with("new-key")
}

fn new_key_argument<'a>(alloc: Global) -> Result<Arg<'a>, AllocError> {
    Arg::new(alloc, "new-key")
        .long("new-key")
        .value_name("FILE")
        .help("Write a key file here, where no file is")
        .conflicts_with("FILE")?
        .conflicts_with("new")
}

// A new members file is no lines of JSON.
fn lines_argument<'a>(alloc: Global) -> Result<Arg<'a>, AllocError> {
    json_argument(alloc).conflicts_with("new")
}

fn file_argument<'a>(alloc: Global) -> Result<Arg<'a>, AllocError> {
    Arg::new(alloc, "FILE")
        .help("The members file")
        .required_unless_present("new")?
        .required_unless_present("key")?
        .required_unless_present("new-key")
}
