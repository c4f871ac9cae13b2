//! What is said of a mistake in the arguments, and the usage in a command's help.

use crate::number_words::NUMBERS;
use crate::usage::{ANY, Usage};
use std::alloc::{AllocError, Global};

/// What clap writes before a command's usage.
const BEFORE_USAGE: &str = "\n\nUsage: ";

/// What it writes at the end of a mistake that has no usage.
const BEFORE_END: &str = "\n\nFor more information";

/// What is said of a mistake of which clap says this, with the usage of the command, if one is
/// named: first what is wrong, then what one types.
pub(crate) fn mistake_text(
    alloc: Global,
    said: &str,
    usage: Option<&Usage>,
) -> Result<String, AllocError> {
    let mut text = String::new(alloc);
    push_wrong(
        &mut text,
        before(before(said, BEFORE_USAGE), BEFORE_END),
        usage,
    )?;
    text.push_str(BEFORE_USAGE)?;
    match usage {
        Some(usage) => {
            let forms = usage.forms;
            let command = usage.command;
            write!(
                text,
                "{forms}\n\nFor more information, try 'bagpaxos {command} --help'.\n"
            )?;
        }
        None => {
            text.push_str(ANY)?;
            text.push_str("\n\nFor more information, try 'bagpaxos help'.\n")?;
        }
    }
    Ok(text)
}

/// The help of a command, of which clap says this, with the usage as one types it.
pub(crate) fn help_text(alloc: Global, said: &str, usage: &Usage) -> Result<String, AllocError> {
    let mut text = String::new(alloc);
    match parts(said, BEFORE_USAGE) {
        Some((about, rest)) => {
            text.push_str(about)?;
            text.push_str(BEFORE_USAGE)?;
            text.push_str(usage.forms)?;
            text.push_str(after_usage(rest))?;
        }
        None => text.push_str(said)?,
    }
    Ok(text)
}

// What follows the usage, from the end of its line on.
fn after_usage(rest: &str) -> &str {
    match parts(rest, "\n\n") {
        Some((usage, _)) => rest.get(usage.len()..).unwrap_or(""),
        None => "\n",
    }
}

fn parts<'a>(text: &'a str, between: &str) -> Option<(&'a str, &'a str)> {
    text.split_once(between)
}

fn before<'a>(text: &'a str, end: &str) -> &'a str {
    match parts(text, end) {
        Some((front, _)) => front,
        None => text,
    }
}

// Appends what is wrong: of a number that isn't one, which numbers there are.
fn push_wrong(text: &mut String, wrong: &str, usage: Option<&Usage>) -> Result<(), AllocError> {
    for number in NUMBERS.iter() {
        if let Some((value, _)) = parts(wrong, number.after) {
            text.push_str(value)?;
            text.push_str(number.after)?;
            return text.push_str(number.words);
        }
    }
    push_lines(text, wrong, usage)
}

// Appends the lines of a message. Where one of several arguments is enough, all are named; commands
// are named in the usage.
fn push_lines(text: &mut String, wrong: &str, usage: Option<&Usage>) -> Result<(), AllocError> {
    let mut is_first = true;
    for line in wrong.split('\n') {
        if line.starts_with("  [subcommands: ") {
            continue;
        }
        if !is_first {
            text.push('\n')?;
        }
        is_first = false;
        match usage {
            Some(usage) if !line.is_empty() && line == usage.missing => {
                text.push_str(usage.choices)?;
            }
            _ => text.push_str(line)?,
        }
    }
    Ok(())
}
