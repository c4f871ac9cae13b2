//! The arguments of the command `check`.

use crate::folder_list::FolderList;
use crate::form::Form;
use crate::report::{Detail, Question, Report};
use clap::{Arg, ArgAction, ArgMatches, Command};
use std::alloc::{AllocError, Global};

const ABOUT: &str = "Checks whether folders are valid BagIt bags, and prints identities";

const EXAMPLE: &str = "It prints one line:
  valid HEX     a valid bag; its identity HEX is the SHA-512 of its
                manifest-sha512.txt
  invalid N     no valid bag; N is the first fault that holds:
                  1 no bagit.txt
                  2 bagit.txt is malformed
                  3 neither BagIt 1.0 nor 0.97
                  4 an encoding not UTF-8
                  5 there is a fetch.txt
                  6 no payload folder data
                  7 no manifest-sha512.txt
                  8 a manifest of an unknown algorithm
                  9 a malformed line in a manifest
                 10 an unsafe path in a manifest
                 11 a path twice in a payload manifest
                 12 a listed file is missing
                 13 a payload file is not listed
                 14 a file has another digest than the listed one
                 15 out of memory
  unread N      a folder that can't be read:
                  1 a folder can't be listed
                  2 neither file nor folder
                  3 a path of over 32 parts
                  4 over 100,000 files and folders
                  5 a text over 64 MiB
                  6 a file can't be read
                  7 out of memory
  memory        out of memory, before or after the folder was read

With --explain, a line for each thing that is wrong comes after it, as the
number of the fault and where it is, a space as %20:
  6 data                                a file or folder
  9 manifest-md5.txt:2                  a line of a text
  12 data/b.txt manifest-md5.txt:3      a path that the line of a manifest lists
  13 data/c.txt manifest-md5.txt        a file that a manifest doesn't list
  14 data/a.txt md5 manifest-md5.txt:1  a file, the algorithm, and the line
  6 data/a.txt                          after `unread 6`: what can't be read,
                                        `.` for the folder itself

With --complete no file is read but the bag's texts, so it is quick, and digests
are left out: `complete HEX` says that the bag has none of the faults 1 to 13,
but not that it is valid.

Of several folders, each of these lines but `memory` has the folder before it:
  path/to/bag invalid 14
With --named, --from or --from0 this is so even if there is only one.

--from FILE checks the folders that FILE lists, one a line, and --from0 FILE
those that zero bytes end, as `find -print0` writes them; `-` is standard input.
All bytes up to the end are the name, a CR too. A name of no bytes, and one that
isn't UTF-8, is `unread 1`. If FILE can't be read, the only line is `open 4`. An
empty list prints nothing, and its status is 0.

With --words standard error says in words what is wrong, of all that can be
read, with names as they are: digests beside those that are listed, names that
are nearly alike, warnings that change no answer, and counts. `bagpaxos help
codes` lists what each number says.

With --progress lines on standard error say how far it is:
  1000 of 2500 files, 4096000 of 10240000 bytes, 300 MB/s
On a terminal it is one line, also without --progress, which is renewed once a
second at most; with --quiet there is none. With --named, --from or --from0
there is a line a second at most, which begins with the bag, and how much of all
bags is done; on a terminal it comes again at once if a bag's line cleared it:
  bag 12 of 500, 2 %, 40 min left: 7 of 9 files, 4096 of 9216 bytes, 300 MB/s

With --json each folder has a line of JSON, by its name as with --named:
  {\"bytes\":42,\"code\":12,\"escaped\":\"a%20b\",\"files\":3,\"folder\":\"a b\", ..}
Its members are the name as it is (folder; null if it isn't UTF-8) and escaped,
the verdict (valid, complete, invalid, unread), its code and what that says
(words), the bag's identity, how many files and bytes there are, how many
seconds it took, and with --explain the places of what is wrong. FORMATS.md has
each of these.

With --registered FILE, a site's cell or a list that `ledger` printed (`-` is
standard input), lines on standard error say which of the known bags the folders
are, once all are checked:
  FOLDER is OBJ V               it is the bag that is known as version V of OBJ
  FOLDER is no registered bag   it is a valid bag, but that of no version
  not among these: OBJ V        no folder is the bag of this version
and if FILE can't be used, the only line on standard output says why: `open 4`,
`damaged OFFSET`, `ledger line N`. With --versions standard output has all of
these lines, after those of the folders. With --deposits standard output has
`OBJ V FOLDER` in place of the first of them, for `send --deposits`, and
standard error all others, those of the folders too. --registered doesn't go
with --complete, --named, --json, --from or --from0.

The exit status is 0 if each folder is a valid bag (with --complete, a complete
one), and with --registered each is registered and none is missing; 1 for all
else; and 2 for a mistake in the arguments.

Examples:
  bagpaxos check path/to/bag
  bagpaxos check --explain path/to/bag
  bagpaxos check --complete path/to/bag
  bagpaxos check --progress path/to/bag
  bagpaxos check path/to/bag path/to/another
  bagpaxos check --registered cell.1 bags/*
  find bags -mindepth 1 -maxdepth 1 -print0 | bagpaxos check --from0 -
  find bags -mindepth 1 -maxdepth 1 -print0 | xargs -0 -n 500 -P 4 \\
      sh -c 'printf \"%s\\0\" \"$@\" | bagpaxos check --from0 -' sh";

/// Folders to check.
#[derive(Debug, Drop)]
pub struct CheckTask<'a> {
    /// Their paths: one or more, or none if there is a list.
    pub paths: Vec<&'a str>,
    pub question: Question,
    pub detail: Detail,
    /// Whether each line has the folder before it, of one folder too.
    pub named: bool,
    /// Whether each folder has a line of JSON in place of other lines.
    pub json: bool,
    /// The list that names the folders, if none of them are arguments.
    pub list: Option<FolderList<'a>>,
    /// Whether to say in words what is wrong.
    pub words: bool,
    /// Whether to say how far it is.
    pub progress: bool,
    /// Whether not to say it, on a terminal too.
    pub quiet: bool,
    /// The path of the cell or list that knows the registered bags, if the folders are compared
    /// with it.
    pub registered: Option<&'a str>,
    /// Whether what that gives is printed, and not said on standard error.
    pub versions: bool,
    /// Whether nothing is printed but a list of deposits of the registered bags.
    pub deposits: bool,
}

impl CheckTask<'_> {
    /// What is wrong with the arguments and clap doesn't see: an option of `--registered` without
    /// it. What conflicts with `--registered` lifts its being required.
    pub fn mistake(&self) -> Option<&'static str> {
        if self.registered.is_some() {
            None
        } else if self.deposits {
            Some("--deposits needs --registered <FILE>")
        } else if self.versions {
            Some("--versions needs --registered <FILE>")
        } else {
            None
        }
    }

    /// What is reported of each folder.
    pub fn report(&self) -> Report {
        Report {
            question: self.question,
            detail: self.detail,
        }
    }

    /// In which form folders that are named are reported.
    pub fn form(&self) -> Form {
        if self.json {
            Form::Json(self.report())
        } else {
            Form::Lines(self.report())
        }
    }
}

/// What these arguments of the command ask for.
pub fn check_task<'a>(
    alloc: Global,
    matches: &ArgMatches<'a>,
) -> Result<CheckTask<'a>, AllocError> {
    let mut paths = Vec::new(alloc);
    if let Some(folders) = matches.get_strs("FOLDER") {
        paths.extend_from_slice(folders)?;
    }
    let question = if matches.get_flag("complete") {
        Question::Completeness
    } else {
        Question::Validity
    };
    let detail = if matches.get_flag("explain") {
        Detail::Explained
    } else {
        Detail::Brief
    };
    Ok(CheckTask {
        paths,
        question,
        detail,
        named: matches.get_flag("named") || matches.get_flag("json"),
        json: matches.get_flag("json"),
        list: list_in(matches),
        words: matches.get_flag("words"),
        progress: matches.get_flag("progress"),
        quiet: matches.get_flag("quiet"),
        registered: matches.get_str("registered"),
        versions: matches.get_flag("versions") || matches.get_flag("deposits"),
        deposits: matches.get_flag("deposits"),
    })
}

fn list_in<'a>(matches: &ArgMatches<'a>) -> Option<FolderList<'a>> {
    if let Some(path) = matches.get_str("from") {
        return Some(FolderList { path, end: b'\n' });
    }
    match matches.get_str("from0") {
        Some(path) => Some(FolderList { path, end: 0 }),
        None => None,
    }
}

/// The command, with its help.
pub fn check_command<'a>(alloc: Global) -> Result<Command<'a>, AllocError> {
    let explain = Arg::new(alloc, "explain")
        .long("explain")
        .action(ArgAction::SetTrue)
        .help("Also print a line for each thing that is wrong");
    let progress = Arg::new(alloc, "progress")
        .long("progress")
        .action(ArgAction::SetTrue)
        .help("Say on standard error how far it is");
    let registered = Arg::new(alloc, "registered")
        .long("registered")
        .value_name("FILE")
        .help("Say which of the registered bags of FILE they are");
    let command = Command::new(alloc, "check")
        .about(ABOUT)
        .after_help(EXAMPLE);
    let command = command.arg(complete_argument(alloc)?)?;
    let command = with_flags(command, explain, words_argument(alloc))?;
    let command = with_flags(command, progress, quiet_argument(alloc)?)?;
    let command = with_flags(command, named_argument(alloc)?, list_argument(alloc)?)?;
    let command = with_flags(command, list0_argument(alloc)?, json_argument(alloc)?)?;
    let command = with_flags(command, registered, versions_argument(alloc)?)?;
    with_flags(command, deposits_argument(alloc)?, folders_argument(alloc)?)
}

fn complete_argument<'a>(alloc: Global) -> Result<Arg<'a>, AllocError> {
    Arg::new(alloc, "complete")
        .long("complete")
        .action(ArgAction::SetTrue)
        .help("Check all but digests, by the bag's texts alone")
        .conflicts_with("registered")
}

fn versions_argument<'a>(alloc: Global) -> Result<Arg<'a>, AllocError> {
    Arg::new(alloc, "versions")
        .long("versions")
        .action(ArgAction::SetTrue)
        .help("With --registered: print this on standard output")
        .requires_arg("registered")
}

fn deposits_argument<'a>(alloc: Global) -> Result<Arg<'a>, AllocError> {
    Arg::new(alloc, "deposits")
        .long("deposits")
        .action(ArgAction::SetTrue)
        .help("Print registered bags alone, for send --deposits")
        .requires_arg("registered")?
        .conflicts_with("explain")?
        .conflicts_with("versions")
}

fn named_argument<'a>(alloc: Global) -> Result<Arg<'a>, AllocError> {
    Arg::new(alloc, "named")
        .long("named")
        .action(ArgAction::SetTrue)
        .help("Begin each line with its folder, even if there is one")
        .conflicts_with("registered")
}

fn json_argument<'a>(alloc: Global) -> Result<Arg<'a>, AllocError> {
    Arg::new(alloc, "json")
        .long("json")
        .action(ArgAction::SetTrue)
        .help("Print a line of JSON for each folder")
        .conflicts_with("registered")
}

fn list_argument<'a>(alloc: Global) -> Result<Arg<'a>, AllocError> {
    let list = Arg::new(alloc, "from")
        .long("from")
        .value_name("FILE")
        .help("Check the folders that FILE lists, one a line");
    alone(list)?.conflicts_with("from0")
}

fn list0_argument<'a>(alloc: Global) -> Result<Arg<'a>, AllocError> {
    let list = Arg::new(alloc, "from0")
        .long("from0")
        .value_name("FILE")
        .help("The same, each ended by a zero byte");
    alone(list)
}

// A list, which names all folders.
fn alone<'a>(list: Arg<'a>) -> Result<Arg<'a>, AllocError> {
    list.conflicts_with("FOLDER")?.conflicts_with("registered")
}

fn folders_argument<'a>(alloc: Global) -> Result<Arg<'a>, AllocError> {
    Arg::new(alloc, "FOLDER")
        .num_args(1..)
        .help("The bags' folders")
        .required_unless_present("from")?
        .required_unless_present("from0")
}

fn words_argument<'a>(alloc: Global) -> Arg<'a> {
    Arg::new(alloc, "words")
        .long("words")
        .action(ArgAction::SetTrue)
        .help("Say on standard error in words what is wrong")
}

fn quiet_argument<'a>(alloc: Global) -> Result<Arg<'a>, AllocError> {
    Arg::new(alloc, "quiet")
        .long("quiet")
        .action(ArgAction::SetTrue)
        .help("Report no progress, not even on a terminal")
        .conflicts_with("progress")
}

fn with_flags<'a>(
    command: Command<'a>,
    first: Arg<'a>,
    second: Arg<'a>,
) -> Result<Command<'a>, AllocError> {
    command.arg(first)?.arg(second)
}
