//! A script has a command a line, and lines that begin with `#` are skipped:
//!
//!     sites F N                new sites 1 to N of federation F, each over a cell without bytes
//!     bag HEX                  the next tree: a bag whose SHA-512 manifest has these bytes
//!     tree HEX                 the next tree, without the folder that a bag has
//!     deposit S TREE OBJ V     a call of site S, as are the next five
//!     propose S OBJ V
//!     recover S OBJ V
//!     ask S TO OBJ V
//!     query S OBJ V
//!     arrive S HEX
//!     deliver K                the K-th datagram that was sent arrives where it was sent
//!     fuse S fail|stop CALL K  that device call to come fails, or stops it, and K bytes stay
//!     close S                  closes the site; what a read of its cell gives is printed
//!     crash S                  the site stops, and its device starts again
//!     open S                   opens the site over its cell
//!
//! A call prints what the site says or why it refuses, then a line `K to S HEX` for each datagram,
//! or `nothing`.

use crate::call::Tries;
use crate::fault::ToolFault;
use crate::federation::Federation;
use crate::output::Output;
use std::alloc::{AllocError, Global};

/// What a script prints, if its calls are made again this often when they find no memory.
pub fn answers(alloc: Global, script: &str, tries: Tries) -> Result<String, ToolFault> {
    let mut federation = Federation::new(alloc, tries);
    let mut output = Output::new(alloc);
    let ran = run_lines(alloc, script, &mut federation, &mut output);
    drop(federation);
    let text = output.into_text();
    match ran {
        Ok(()) => Ok(text),
        Err(fault) => Err(fault),
    }
}

fn run_lines(
    alloc: Global,
    script: &str,
    federation: &mut Federation,
    output: &mut Output,
) -> Result<(), ToolFault> {
    for line in script.lines() {
        run_line(alloc, line, federation, output)?;
    }
    Ok(())
}

/// Runs a line, and appends what it prints.
fn run_line(
    alloc: Global,
    line: &str,
    federation: &mut Federation,
    output: &mut Output,
) -> Result<(), ToolFault> {
    if line.is_empty() || line.starts_with("#") {
        return Ok(());
    }
    run_words(words_of(alloc, line)?.as_slice(), federation, output)
}

fn words_of<'a>(alloc: Global, line: &'a str) -> Result<Vec<&'a str>, AllocError> {
    line.split_whitespace().collect(alloc)
}

fn run_words(
    words: &[&str],
    federation: &mut Federation,
    output: &mut Output,
) -> Result<(), ToolFault> {
    match words {
        [name, arguments @ ..] => match command_of(name) {
            Some(command) => run(command, arguments, federation, output),
            None => Err(ToolFault::Line),
        },
        _ => Err(ToolFault::Line),
    }
}

/// What a line asks for.
#[derive(Clone, Copy)]
enum Command {
    Sites,
    Bag,
    Tree,
    Deposit,
    Propose,
    Recover,
    Ask,
    Query,
    Arrive,
    Deliver,
    Fuse,
    Close,
    Crash,
    Open,
}

fn command_of(word: &str) -> Option<Command> {
    match word {
        "sites" => Some(Command::Sites),
        "bag" => Some(Command::Bag),
        "tree" => Some(Command::Tree),
        "deposit" => Some(Command::Deposit),
        "propose" => Some(Command::Propose),
        "recover" => Some(Command::Recover),
        "ask" => Some(Command::Ask),
        "query" => Some(Command::Query),
        "arrive" => Some(Command::Arrive),
        "deliver" => Some(Command::Deliver),
        "fuse" => Some(Command::Fuse),
        "close" => Some(Command::Close),
        "crash" => Some(Command::Crash),
        "open" => Some(Command::Open),
        _ => None,
    }
}

/// Runs a command: the first has to begin a federation.
fn run(
    command: Command,
    words: &[&str],
    federation: &mut Federation,
    output: &mut Output,
) -> Result<(), ToolFault> {
    match command {
        Command::Sites => begin(words, federation, output),
        _ if !federation.has_begun() => Err(ToolFault::Line),
        Command::Bag => federation.add_tree(true, words),
        Command::Tree => federation.add_tree(false, words),
        Command::Deposit => output.answer(federation.deposit(words)),
        Command::Propose => output.answer(federation.propose(words)),
        Command::Recover => output.answer(federation.recover(words)),
        Command::Ask => output.answer(federation.ask(words)),
        Command::Query => output.reply(federation.query(words)),
        Command::Arrive => output.answer(federation.arrive(words)),
        Command::Deliver => deliver(words, federation, output),
        Command::Fuse => federation.set_fuse(words),
        Command::Close => federation.close(words, output),
        Command::Crash => federation.crash(words),
        Command::Open => federation.open(words, output),
    }
}

fn begin(
    words: &[&str],
    federation: &mut Federation,
    output: &mut Output,
) -> Result<(), ToolFault> {
    output.begin();
    federation.begin(words)
}

fn deliver(
    words: &[&str],
    federation: &mut Federation,
    output: &mut Output,
) -> Result<(), ToolFault> {
    let answer = federation.deliver(words, output.sent());
    output.answer(answer)
}
