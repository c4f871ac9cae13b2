//! The arguments of the command `site`.

use addresses::Address;
use clap::{Arg, ArgAction, ArgMatches, Command, value_parser};
use code_words::{push_place_words, push_quoted};
use fed_types::{GREATEST_SITE, SiteNo};
use site_client::{key_argument, members_argument, wait_argument, words_argument};
use std::alloc::{AllocError, Global};
use udp_site::Waits;

const ABOUT: &str = "Serves as a site of a federation, over UDP";

const EXAMPLE: &str = "The members file is a text:
  federation F            the number of the federation
  site N PORT [WEIGHT]    for each of the sites 1, 2 .., at most 63: its port,
                          and its weight, 1 to 255, or else 1
All sites are on this machine then, at 127.0.0.1. Sites on several machines have
their addresses in place of ports, all of IPv4, as 192.0.2.1:5011, or all of
IPv6, as [2001:db8::1]:5011. A message between sites then counts only if it
comes from the address of the site that sends it; else it is dropped. If others
reach a site at another address than its machine's own, --listen gives its own.
Use --key where there are addresses.
Sites that have more than half of all weight decide. Sites and weights stay as
they are as long as there are cells. With --listed a file is refused whose
number doesn't come from its list, as one in which a site is missing.
The cell is the file in which the site keeps its word. It is made if it is
missing, unless --existing is given: a site that has a cell must never be
started without it.

In each turn the site waits for one datagram, and prints a line for what it
does:
  registered N OBJ V HEX       a bag was deposited, of this identity
  known N OBJ V HEX            it learned which bag is version V of OBJ
  reply N OBJ V known HEX      it was asked, and this bag is version V of OBJ
  reply N OBJ V pending HEX    .. nothing is known yet; this is its own deposit
  reply N OBJ V nothing        .. nothing is known yet, and it has no deposit
  refused N CODE               it refused a call
  dropped N                    what came was no message for it

In a turn in which nothing comes it may propose one of its deposits to all.
After each proposal such turns wait twice as long as before, up to --wait-most,
but 500 ms, or --wait if that is longer, at most while it hears sites that have
more than half of all weight with it, unless their answers are late. A deposit
that it registers, an Accept, a vote or a known bag bring the first wait back.
However much comes, such a turn is taken once the longest of these has passed
since the last one: ten times --wait, 250 ms, and its present wait. After a
deposit such turns are taken at once, until the site may propose it, but not
while a proposal of its own is under way. They are also taken at once if a
client asks for a pending bag, and a second has passed since the last proposal,
or more if answers are late.

With --key each datagram has a tag, HMAC-SHA-256, and what has no right one is
dropped. All sites and clients then need a key file: a text with a line
`sites HEX` and a line `clients HEX`, or two of either, of which the first is
sent with and both are taken. A site needs both kinds, a client the second.
Nobody but its owner may have a right to the file. bagpaxos members --new-key
makes one.

With --bags a path that is absolute or has `..` in it is refused as a missing
folder (21). With --most-bytes a larger bag is refused as one of too many files
(24). A folder that was refused as no valid bag, for a long text or for a file
that can't be read isn't read again within a minute, while its files are the
same: it is listed, and has the same answer.

With --log each line is also written to a file, which grows: after the time in
UTC and the port, or address and port, from which came what it is about (`-` if
nothing came). After `refused` comes what was asked for, and a folder that can't
be read has a line of its own. The log is opened before all else, so it has the
last line of a site that doesn't begin to serve, too; after each last line it
says why in words:
  TIME - serves site 1 of 3, federation 7, port 5011, 12 records, 3 known, ..
  TIME 51234 refused 1 10 14 deposit OBJ V PATH
  TIME 51234 unread 1 21 deposit OBJ V PATH PLACE
  TIME - open 3
  TIME - why: the cell is damaged; keep the file; the site is lost, and ..
With --key the first line ends with `, keys NAME NAME`, the names of the two
keys that it sends with.
If the log can't be written, or isn't a file, or is a file that doesn't begin as
a log does, standard error says so once, and the site goes on; nothing is
written into that file.

The log has at most 60 lines a minute of one address and one first word; all
lines `known` are in it. Those after them are counted, and once the minute is
over, or the site ends, it says how many there were. At most 64 such pairs are
counted in a minute; later ones share one count for each word, under *:
  TIME 51234 log: 12345 dropped in this minute (refused)
With a log the site doesn't wait for the reader of standard output: what can't
be written at once is left out, and the log says how many lines there were. With
--quiet nothing is written there at all.
  TIME - output: 12345 dropped in this minute

A site that has proposed its deposit and has heard no majority for ten seconds
says so, once, in the log and with --words; and in the end that it hears one
again:
  TIME - no majority since TIME: heard from 2
  TIME - a majority again: heard from 2, 3

With --words standard error has a line after each line `refused` or `dropped`,
and after the one that says why it stopped: in words, with names. `bagpaxos help
codes` lists what each says.

The exit status is 0 after the last turn; 1 if a last line says why it stopped:
  members unread    the members file can't be read
  members line N    line N of the members file is at fault
  members other list
                    with --listed: the federation's number doesn't come from the
                    file's list
  not a member      the members file has no such site
  same file         two of --cell, --members and --log name one file, as
                    standard error says; or standard error is the cell
  key unread        the key file can't be read
  key open to others
                    others than its owner have rights to the key file
  key line N        line N of the key file is at fault
  key lacks sites   the key file has no line `sites HEX`
  key same file     --key names the file of --cell, --members or --log
  bags unread       with --bags: it isn't a folder
  open 4            the cell's file can't be opened, read or written, or another
                    process has it open for five seconds; with --existing, it
                    isn't there, or its header isn't
  socket            the site's port can't be had at its address
  open N            the cell is of another federation (1) or site (2), damaged
                    (3), or of members with other weights (6); 5: no memory
  stopped N         a receive failed (1), the cell failed (2), or out of memory
                    (3)
  memory            out of memory
or if standard output can't be written, or is the cell; and 2 for a mistake in
the arguments.

Example:
  bagpaxos site --members members --number 1 --cell cell.1 --forever --wait 100";

/// What is amiss with the waits.
const TOO_SHORT: &str = "--wait-most is less than --wait";

/// What `--listen` takes.
const NO_ADDRESS: &str =
    "--listen is an address and a port, as 192.0.2.1:5011 or [2001:db8::1]:5011";

/// The most milliseconds that it may wait while nothing does: a day.
const MOST_WAIT: i64 = 86_400_000;

/// A site to serve as.
#[derive(Clone, Copy, Debug)]
pub struct SiteTask<'a> {
    pub members: &'a str,
    /// Whether the federation's number has to come from that file's list.
    pub listed: bool,
    /// The path of the key file, if there is one.
    pub key: Option<&'a str>,
    pub number: SiteNo,
    /// The address of its socket, if it isn't the one in the members file.
    pub listen: Option<&'a str>,
    pub cell: &'a str,
    /// Whether the cell has to be there.
    pub existing: bool,
    /// The folder below which clients' bags are read, if it isn't the file system's.
    pub bags: Option<&'a str>,
    /// The most bytes that the files of a client's bag may have together, if there is a limit.
    pub most_bytes: Option<u64>,
    /// The path of the log, if there is one.
    pub log: Option<&'a str>,
    /// Whether to write nothing to standard output.
    pub quiet: bool,
    /// Whether to say in words what lines say.
    pub words: bool,
    pub turns: Turns,
    pub waits: Waits,
}

/// How many turns a site serves.
#[derive(Clone, Copy, Debug)]
pub enum Turns {
    /// So many.
    Count(u32),
    /// One after another, until it is stopped.
    Forever,
}

impl SiteTask<'_> {
    /// What is amiss in the arguments beyond what each by itself may be, if anything is.
    pub fn mistake(&self, alloc: Global) -> Result<Option<String>, AllocError> {
        if self.waits.most < self.waits.first {
            return Ok(Some(String::from_str(alloc, TOO_SHORT)?));
        }
        match self.listen {
            Some(listen) => listen_fault(alloc, listen),
            None => Ok(None),
        }
    }
}

// Why a site can't listen at this, if it is no address and a port.
fn listen_fault(alloc: Global, listen: &str) -> Result<Option<String>, AllocError> {
    if Address::parse(alloc, listen.as_bytes())?.is_some() {
        return Ok(None);
    }
    let mut text = String::from_str(alloc, "--listen ")?;
    if listen.contains(':') || listen.contains('.') {
        push_place_words(&mut text, listen.as_bytes())?;
    } else {
        push_quoted(&mut text, listen)?;
        text.push_str(" is no address and a port")?;
    }
    text.push_str("; ")?;
    text.push_str(NO_ADDRESS)?;
    Ok(Some(text))
}

/// What these arguments of the command ask for.
pub fn site_task<'a>(matches: &ArgMatches<'a>) -> Option<SiteTask<'a>> {
    let number = SiteNo::new(matches.get_one::<u8>("number")?).ok()?;
    Some(SiteTask {
        members: matches.get_str("members")?,
        listed: matches.get_flag("listed"),
        key: matches.get_str("key"),
        number,
        listen: matches.get_str("listen"),
        cell: matches.get_str("cell")?,
        existing: matches.get_flag("existing"),
        bags: matches.get_str("bags"),
        most_bytes: matches.get_one::<u64>("most-bytes"),
        log: matches.get_str("log"),
        quiet: matches.get_flag("quiet"),
        words: matches.get_flag("words"),
        turns: turns_in(matches)?,
        waits: Waits {
            first: matches.get_one::<u32>("wait")?,
            most: matches.get_one::<u32>("wait-most")?,
            prompt: u32::from(number.number()),
        },
    })
}

fn turns_in(matches: &ArgMatches<'_>) -> Option<Turns> {
    if matches.get_flag("forever") {
        return Some(Turns::Forever);
    }
    match matches.get_one::<u32>("turns") {
        Some(turns) => Some(Turns::Count(turns)),
        None => None,
    }
}

/// The command, with its help.
pub fn site_command<'a>(alloc: Global) -> Result<Command<'a>, AllocError> {
    let command = Command::new(alloc, "site").about(ABOUT).after_help(EXAMPLE);
    let command = with_place(alloc, command)?;
    let command = with_paths(alloc, command)?;
    let command = with_turns(alloc, command)?;
    with_waits(alloc, command)
}

// With the options that say which site it is.
fn with_place<'a>(alloc: Global, command: Command<'a>) -> Result<Command<'a>, AllocError> {
    command
        .arg(members_argument(alloc))?
        .arg(listed_argument(alloc))?
        .arg(key_argument(alloc))?
        .arg(number_argument(alloc))?
        .arg(listen_argument(alloc))?
        .arg(cell_argument(alloc))?
        .arg(existing_argument(alloc))
}

// With those that say where bags are read, and where a log is written.
fn with_paths<'a>(alloc: Global, command: Command<'a>) -> Result<Command<'a>, AllocError> {
    let command = command.arg(bags_argument(alloc))?;
    let command = command.arg(most_bytes_argument(alloc))?;
    let command = command.arg(log_argument(alloc))?;
    command
        .arg(quiet_argument(alloc))?
        .arg(words_argument(alloc))
}

// With those that say how many turns it serves.
fn with_turns<'a>(alloc: Global, command: Command<'a>) -> Result<Command<'a>, AllocError> {
    let turns = turns_argument(alloc)?;
    command.arg(turns)?.arg(forever_argument(alloc))
}

// With those that say how long it waits.
fn with_waits<'a>(alloc: Global, command: Command<'a>) -> Result<Command<'a>, AllocError> {
    command.arg(wait_argument(alloc))?.arg(most_argument(alloc))
}

fn listed_argument<'a>(alloc: Global) -> Arg<'a> {
    Arg::new(alloc, "listed")
        .long("listed")
        .action(ArgAction::SetTrue)
        .help("Refuse a file whose number doesn't come from its list")
}

fn number_argument<'a>(alloc: Global) -> Arg<'a> {
    Arg::new(alloc, "number")
        .long("number")
        .value_name("N")
        .required(true)
        .value_parser(value_parser!(u8).range(1..=i64::from(GREATEST_SITE)))
        .help("The number of the site, 1 to 63")
}

fn listen_argument<'a>(alloc: Global) -> Arg<'a> {
    Arg::new(alloc, "listen")
        .long("listen")
        .value_name("AT")
        .help("The ADDRESS:PORT of its socket, if the file has another")
}

fn cell_argument<'a>(alloc: Global) -> Arg<'a> {
    Arg::new(alloc, "cell")
        .long("cell")
        .value_name("FILE")
        .required(true)
        .help("The file in which the site keeps its records")
}

fn existing_argument<'a>(alloc: Global) -> Arg<'a> {
    Arg::new(alloc, "existing")
        .long("existing")
        .action(ArgAction::SetTrue)
        .help("Never make the cell: if it isn't there, end: `open 4`")
}

fn bags_argument<'a>(alloc: Global) -> Arg<'a> {
    Arg::new(alloc, "bags")
        .long("bags")
        .value_name("FOLDER")
        .help("Read clients' bags below this folder alone")
}

fn most_bytes_argument<'a>(alloc: Global) -> Arg<'a> {
    Arg::new(alloc, "most-bytes")
        .long("most-bytes")
        .value_name("N")
        .value_parser(value_parser!(u64))
        .help("Refuse a bag with more bytes in all, before it is read")
}

fn log_argument<'a>(alloc: Global) -> Arg<'a> {
    Arg::new(alloc, "log")
        .long("log")
        .value_name("FILE")
        .help("Append to this file what it prints, and when and why")
}

fn quiet_argument<'a>(alloc: Global) -> Arg<'a> {
    Arg::new(alloc, "quiet")
        .long("quiet")
        .action(ArgAction::SetTrue)
        .help("Write nothing to standard output")
}

fn turns_argument<'a>(alloc: Global) -> Result<Arg<'a>, AllocError> {
    Arg::new(alloc, "turns")
        .long("turns")
        .value_name("T")
        .value_parser(value_parser!(u32).range(1..))
        .help("How many turns it serves, 1 to 4294967295")
        .required_unless_present("forever")?
        .conflicts_with("forever")
}

fn forever_argument<'a>(alloc: Global) -> Arg<'a> {
    Arg::new(alloc, "forever")
        .long("forever")
        .action(ArgAction::SetTrue)
        .help("Serve until it is stopped, in place of --turns")
}

fn most_argument<'a>(alloc: Global) -> Arg<'a> {
    Arg::new(alloc, "wait-most")
        .long("wait-most")
        .value_name("MS")
        .default_value("60000")
        .value_parser(value_parser!(u32).range(1..=MOST_WAIT))
        .help("The most it waits, --wait to 86400000")
}
