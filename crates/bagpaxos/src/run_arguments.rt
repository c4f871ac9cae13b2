//! The arguments of the command `run`.

use clap::{Arg, ArgAction, ArgMatches, Command};
use lines::Options;
use std::alloc::{AllocError, Global};

const ABOUT: &str = "Runs a schedule, and prints what the sites say";

const EXAMPLE: &str = "A schedule is a text of commands, one a line:
  federation F N        the sites 1 to N of federation F; this comes first, once
  federation F N W1 .. WN
                        the same, with the weights of the sites; else each is 1
  tree T                declares an empty tree of files
  folder T              adds the tree's payload folder `data`
  file T PATH HEX       adds a file, its bytes in hex (`-` for none)
  deposit S T OBJ V     deposits the tree at site S, as version V of object OBJ
  propose S OBJ V       site S proposes its deposit to all
  recover S OBJ V       site S, which has voted or has a deposit, begins a
                        ballot for the bag that may be chosen
  deliver K             the K-th datagram that was sent arrives
  pump N                N times: the oldest datagram arrives that no deliver or
                        pump has named
  ask S TO OBJ V        site S asks site TO which bag it knows
  query S OBJ V         asks site S which bag is version V of OBJ
  raw S HEX             bytes that no site sent arrive at site S
  stop S                stops site S between calls
  start S               opens its cell again
A deposit, propose, recover, deliver or ask may end in a fate:
  stop 1 K, stop 2 K    the site stops as it writes its record, or syncs it; of
                        it K bytes are kept
  stop 3 J              the site stops when the first J of its datagrams were
                        sent
  fail 1 K, fail 2 K    the write, or the sync, fails; the site has to be
                        started again
Lines that are blank, or begin with `#`, are skipped.

With `--words` standard error says, once the lines are printed, what each
command did, with its own line below it, and which datagrams were never
delivered; or, if the text is no schedule, what is wrong with its first line at
fault. With `--draw` a picture of the run is written to a file: one column per
site, time downwards, one arrow per datagram. It replaces a picture that is
there, but no other file. If the file's name ends in `.html`, it is a page for a
browser, in which you step through the run: after each event it shows what each
site has on record, and which datagrams are under way.

The exit status is 0; 1 if the text is no schedule (`schedule line N`), memory
runs out (`memory`), the schedule can't be read (`input unread`), or standard
output or the picture can't be written; and 2 for a mistake in the arguments.

Examples:
  printf 'federation 7 3\\nquery 1 a 1\\n' | bagpaxos run
  bagpaxos run --words --draw duel.svg examples/duel.schedule";

/// A schedule to run.
#[derive(Clone, Copy, Debug)]
pub(crate) struct RunTask<'a> {
    pub(crate) options: Options,
    /// What happens is said in words.
    pub(crate) words: bool,
    /// The path of the picture, or of the page.
    pub(crate) drawing: Option<&'a str>,
    /// The path of the schedule; none for standard input.
    pub(crate) file: Option<&'a str>,
}

/// What these arguments of the command ask for.
pub(crate) fn run_task<'a>(matches: &ArgMatches<'a>) -> RunTask<'a> {
    RunTask {
        options: Options {
            sent: matches.get_flag("sent"),
            identities: matches.get_flag("identities"),
        },
        words: matches.get_flag("words"),
        drawing: matches.get_str("draw"),
        file: matches.get_str("FILE"),
    }
}

/// The command, with its help.
pub(crate) fn run_command<'a>(alloc: Global) -> Result<Command<'a>, AllocError> {
    let run = Command::new(alloc, "run").about(ABOUT).after_help(EXAMPLE);
    let run = with_argument(run.arg(sent_argument(alloc)), identities_argument(alloc));
    let run = with_argument(run, words_argument(alloc));
    let run = with_argument(run, draw_argument(alloc));
    with_argument(run, file_argument(alloc))
}

fn with_argument<'a>(
    command: Result<Command<'a>, AllocError>,
    argument: Arg<'a>,
) -> Result<Command<'a>, AllocError> {
    command?.arg(argument)
}

fn sent_argument<'a>(alloc: Global) -> Arg<'a> {
    Arg::new(alloc, "sent")
        .long("sent")
        .action(ArgAction::SetTrue)
        .help("Print a line for each datagram that is sent")
}

fn identities_argument<'a>(alloc: Global) -> Arg<'a> {
    Arg::new(alloc, "identities")
        .long("identities")
        .action(ArgAction::SetTrue)
        .help("Name bags by the 128 hex digits of their identities")
}

fn words_argument<'a>(alloc: Global) -> Arg<'a> {
    Arg::new(alloc, "words")
        .long("words")
        .action(ArgAction::SetTrue)
        .help("Say in words what happens, on standard error")
}

fn draw_argument<'a>(alloc: Global) -> Arg<'a> {
    Arg::new(alloc, "draw")
        .long("draw")
        .value_name("PICTURE")
        .help("Write a picture of the run to this file, as SVG or HTML")
}

fn file_argument<'a>(alloc: Global) -> Arg<'a> {
    Arg::new(alloc, "FILE").help("The schedule; without it, standard input")
}
