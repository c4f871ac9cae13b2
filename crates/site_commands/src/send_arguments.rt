//! The arguments of the command `send`.

use clap::{Arg, ArgMatches, Command, value_parser};
use dgram::LONGEST_PATH;
use fed_types::{GREATEST_SITE, LONGEST_OBJECT, SiteNo};
use site_client::{key_argument, members_argument, to_argument, wait_argument, words_argument};
use std::alloc::{AllocError, Global};

const ABOUT: &str = "Deposits a bag at a site that serves, or asks it for one";

const EXAMPLE: &str =
    "With PATH it deposits the folder of this path, which the site reads, as version
V of the object OBJ. Without PATH it asks which bag is version V of OBJ. It
prints one line, of site N:
  registered N OBJ V HEX       the bag of this identity is deposited
  reply N OBJ V known HEX      the bag of this identity is version V of OBJ
  reply N OBJ V pending HEX    the site deposited this bag, and nothing is known
  reply N OBJ V nothing        nothing is known, and the site has no deposit
  refused N CODE               11 another bag is deposited
                               12 another bag is known
                               13 the site's cell failed
                               14 out of memory
                               15 the site has to be restarted
                               20 + n: the folder can't be read, as `unread n`
                                       of bagpaxos check; 24 also: more bytes
                                       than --most-bytes of the site
                               40 + n: it is no valid bag, as `invalid n` of
                                       bagpaxos check
  no answer                    the site doesn't answer
or `members unread`, `members line N`, `not a member`, `key unread`,
`key open to others`, `key line N`, `socket` or `memory`, as bagpaxos site.

The arguments OBJ and PATH are taken as they are. In a line %20 stands for a
blank of OBJ, %25 for a percent sign, and so on: `bagpaxos send .. 'a b' 1` asks
for what a line calls a%20b.

With --until-known it asks until the bag is known, and with PATH deposits it
first: again after 2 ms, then twice as long each time, and a second at most.
Once it asks each second, it also has the sites recover the version, one after
the other: so it learns what was decided, even if the site that knew it is lost.
After SECONDS, or if the deposit is refused, it prints the last line that there
was.

With --deposits FILE it deposits a bag for each line of FILE, or of standard
input if FILE is `-`. A line is `OBJ V PATH`; in OBJ and PATH %20 stands for a
blank, %25 for the percent sign, and so on for each unusual byte. The whole file
is read first, and in these cases nothing is sent:
  deposits unread              the file can't be read
  deposits line N              this line isn't `OBJ V PATH`, or an earlier one
                               has the same OBJ and V
For each line it prints one, in their order:
  registered N OBJ V HEX       the bag is deposited
  refused N CODE OBJ V         the deposit is refused, for a CODE as above
  open OBJ V                   the site hasn't said that it is deposited
and with --until-known, by which up to 32 deposits are under way at a time:
  known OBJ V HEX              the bag that was deposited is known
  other OBJ V HEX HEX          the first is known, and the second was deposited
  registered N OBJ V HEX       it is deposited, and nothing more was heard
                               within SECONDS, counted anew for every 32
The last line is `K of N`: K of the N deposits are `registered`, or with
--until-known `known`. The status is 0 if K is N.

With --key what is sent has a tag by the first `clients` key of the file, and an
answer counts only with a tag by one of them. A file with no more than one line
`clients HEX` is enough.

There is no --json: a line's words are separated by one blank each.

With --words standard error says in words what a line says that isn't what was
asked for. `bagpaxos help codes` lists what each says.

The exit status is 0 for `registered` and `reply`, with --until-known for
`reply .. known` alone, and with --deposits if K is N; 1 for all else; and 2 for
a mistake in the arguments.

Examples:
  bagpaxos send --members members --to 1 --wait 1000 --until-known 30 \\
      report 1 path/to/bag
  bagpaxos send --members members --to 1 --wait 60000 --until-known 30 \\
      --deposits list";

/// What to ask of a site.
#[derive(Clone, Copy, Debug)]
pub struct SendTask<'a> {
    pub members: &'a str,
    /// The path of the key file, if there is one.
    pub key: Option<&'a str>,
    pub to: SiteNo,
    pub wait: u32,
    /// For how many seconds it asks until the bag is known.
    pub until_known: Option<u32>,
    /// Whether to say in words what the line says.
    pub words: bool,
    /// 1 to 200 bytes.
    pub object: &'a str,
    /// 1 or more.
    pub version: u32,
    /// 1 to `LONGEST_PATH` bytes.
    pub path: Option<&'a str>,
}

impl SendTask<'_> {
    /// The argument that is beyond its limits, if there is one.
    pub fn mistake(&self) -> Option<&'static str> {
        if self.object.is_empty() || LONGEST_OBJECT < self.object.len() {
            return Some("an object has 1 to 200 bytes");
        }
        match self.path {
            Some(path) if path.is_empty() || LONGEST_PATH < path.len() => {
                Some("a path has 1 to 400 bytes")
            }
            _ => None,
        }
    }
}

/// What these arguments of the command ask for.
pub fn send_task<'a>(matches: &ArgMatches<'a>) -> Option<SendTask<'a>> {
    Some(SendTask {
        members: matches.get_str("members")?,
        key: matches.get_str("key"),
        to: SiteNo::new(matches.get_one::<u8>("to")?).ok()?,
        wait: matches.get_one::<u32>("wait")?,
        until_known: matches.get_one::<u32>("until-known"),
        words: matches.get_flag("words"),
        object: matches.get_str("OBJ")?,
        version: matches.get_one::<u32>("V")?,
        path: matches.get_str("PATH"),
    })
}

/// The command, with its help.
pub fn send_command<'a>(alloc: Global) -> Result<Command<'a>, AllocError> {
    let command = Command::new(alloc, "send").about(ABOUT).after_help(EXAMPLE);
    let command = with_options(alloc, command)?;
    with_slot(alloc, command)
}

fn with_options<'a>(alloc: Global, command: Command<'a>) -> Result<Command<'a>, AllocError> {
    command
        .arg(members_argument(alloc))?
        .arg(key_argument(alloc))?
        .arg(to_argument(alloc))?
        .arg(wait_argument(alloc))?
        .arg(until_argument(alloc))?
        .arg(words_argument(alloc))?
        .arg(deposits_argument(alloc))
}

// With what it is asked for.
fn with_slot<'a>(alloc: Global, command: Command<'a>) -> Result<Command<'a>, AllocError> {
    let object = object_argument(alloc)?;
    let version = version_argument(alloc)?;
    let path = path_argument(alloc)?;
    command.arg(object)?.arg(version)?.arg(path)
}

fn until_argument<'a>(alloc: Global) -> Arg<'a> {
    Arg::new(alloc, "until-known")
        .long("until-known")
        .value_name("SECONDS")
        .value_parser(value_parser!(u32).range(1..))
        .help("Ask until it is known, 1 to 4294967295 seconds")
}

fn deposits_argument<'a>(alloc: Global) -> Arg<'a> {
    Arg::new(alloc, "deposits")
        .long("deposits")
        .value_name("FILE")
        .help("Deposit each line `OBJ V PATH` of this file")
}

fn object_argument<'a>(alloc: Global) -> Result<Arg<'a>, AllocError> {
    Arg::new(alloc, "OBJ")
        .help("The name of the object as it is, 1 to 200 bytes")
        .required_unless_present("deposits")?
        .conflicts_with("deposits")
}

fn version_argument<'a>(alloc: Global) -> Result<Arg<'a>, AllocError> {
    Arg::new(alloc, "V")
        .value_parser(value_parser!(u32).range(1..))
        .help("The version, 1 to 4294967295")
        .required_unless_present("deposits")?
        .conflicts_with("deposits")
}

fn path_argument<'a>(alloc: Global) -> Result<Arg<'a>, AllocError> {
    Arg::new(alloc, "PATH")
        .help("The folder to deposit, 1 to 400 bytes, as the site names it")
        .conflicts_with("deposits")
}
