//! What is wrong with the arguments, in words.

use crate::arguments::task_of;
use crate::mistake_text::{help_text, mistake_text};
use crate::slips::slip_text;
use crate::usage::{Usage, usage_of};
use clap::Error;
use clap::error::ErrorKind;
use code_words::push_name;
use folder_checks::push_escaped_bytes;
use std::alloc::{AllocError, Global};
use std::env::Env;
use std::{io, str};

/// As many bytes as Linux lets an argument have.
const LONGEST_ARGUMENT: usize = 131_072;

/// Says on standard error what is wrong with these words; the first is the program's own name.
/// Invisible characters in them are written by numbers, as in all other words: otherwise a word
/// could move the cursor of a terminal, or end a line.
pub fn say_mistake(rt: &HostRuntime, words: &[String]) -> Result<(), AllocError> {
    let words = visible(rt.alloc(), words)?;
    let task = task_of(rt.alloc(), words.as_slice());
    match task {
        Err(error) => say(rt, words.as_slice(), &error),
        // Only what can't be seen was wrong.
        Ok(_) => {
            let _ = rt.eprintln("error: an argument has a character that can't be seen");
            Ok(())
        }
    }
}

/// Says which argument it is that isn't UTF-8: its number, and its bytes, escaped as a path in a
/// line is.
pub fn say_unreadable(rt: &HostRuntime) -> Result<(), AllocError> {
    let mut room = Vec::new(rt.alloc());
    room.resize(LONGEST_ARGUMENT, 0)?;
    for number in 1..usize::MAX {
        let Ok(length) = rt.arg(number, room.as_mut_slice()) else {
            return Ok(());
        };
        let word = room.get(..length).unwrap_or(&[]);
        if str::from_utf8(word).is_err() {
            let mut text = String::new(rt.alloc());
            push_escaped_bytes(&mut text, word)?;
            let _ = eprintln!(rt;
                "it is argument {number}: {text}\nrename it; of folders, check --from0 - reads such a name"
            );
            return Ok(());
        }
    }
    Ok(())
}

/// Prints the help that clap gives as an error, with the usage of the command that these words
/// name. Where memory runs out before, nothing is printed.
pub fn print_help(
    rt: &HostRuntime,
    words: &[String],
    error: &Error,
) -> Result<io::Result<()>, AllocError> {
    let usage = match words {
        [_, help, command, ..] if help.as_str() == "help" => usage_of(command.as_str()),
        _ => usage_in(words),
    };
    let Some(usage) = usage else {
        return Ok(error.print(rt));
    };
    let said = format!(in rt.alloc(); "{error}")?;
    let text = help_text(rt.alloc(), said.as_str(), usage)?;
    Ok(rt.print(text.as_str()))
}

// How the command is typed that these words begin with.
fn usage_in(words: &[String]) -> Option<&'static Usage> {
    match words {
        [_, command, ..] => usage_of(command.as_str()),
        _ => None,
    }
}

fn say(rt: &HostRuntime, words: &[String], error: &Error) -> Result<(), AllocError> {
    if error.kind() == ErrorKind::OutOfMemory {
        return Err(AllocError);
    }
    let said = format!(in rt.alloc(); "{error}")?;
    let usage = usage_in(words);
    let said = match slip_text(rt.alloc(), said.as_str(), words, usage)? {
        Some(slip) => slip,
        None => said,
    };
    let text = mistake_text(rt.alloc(), said.as_str(), usage)?;
    let _ = rt.eprint(text.as_str());
    Ok(())
}

fn visible(alloc: Global, words: &[String]) -> Result<Vec<String>, AllocError> {
    let mut all = Vec::new(alloc);
    for word in words {
        let mut text = String::new(alloc);
        push_name(&mut text, word.as_str())?;
        all.push(text)?;
    }
    Ok(all)
}
