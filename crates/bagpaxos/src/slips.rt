//! Arguments of which clap takes a part for an option that no command has.

use crate::dashes::dashed_option;
use crate::number_words::{NUMBERS, NumberWords};
use crate::other_options::instead_of;
use crate::usage::{Usage, is_any_option};
use code_words::push_place_words;
use std::alloc::{AllocError, Global};

/// What clap says of an argument that it doesn't know, before that argument.
const UNKNOWN: &str = "error: unexpected argument '";

/// What it says where the list of codes is asked for as if that were a command.
const CODES: &str = "error: unrecognized subcommand 'codes'";

/// What it writes before it says how such an argument can be a value.
const BEFORE_TIP: &str = "\n\n  tip: to pass '";

/// How it says of an object's version that it is no number.
const VERSION: &str = "[V]";

/// What is said in place of what clap says, if these words have a negative number after an option
/// that takes a number, or an option with one hyphen or another dash, or one that another command
/// has, or a name that begins with a hyphen.
pub(crate) fn slip_text(
    alloc: Global,
    said: &str,
    words: &[String],
    usage: Option<&Usage>,
) -> Result<Option<String>, AllocError> {
    if said.starts_with(CODES) {
        return Ok(Some(format!(in alloc; "{CODES}\n\n  tip: write bagpaxos help codes")?));
    }
    let Some(rest) = said.strip_prefix(UNKNOWN) else {
        return Ok(None);
    };
    if let Some((number, value)) = negative_in(words) {
        return Ok(Some(negative_text(alloc, value, number)?));
    }
    let Some((argument, _)) = rest.split_once('\'') else {
        return Ok(None);
    };
    match usage {
        Some(usage) => unknown_text(alloc, said, argument, words, usage),
        None => Ok(None),
    }
}

// What is said of an argument that this command doesn't know.
fn unknown_text(
    alloc: Global,
    said: &str,
    argument: &str,
    words: &[String],
    usage: &Usage,
) -> Result<Option<String>, AllocError> {
    if let Some(option) = argument.strip_prefix("--") {
        return long_text(alloc, said, option, usage);
    }
    if argument.starts_with('-') {
        let word = word_of(words, argument);
        return Ok(Some(short_text(alloc, said, word, words, usage)?));
    }
    match meant_before(words, argument, usage) {
        Some(option) => Ok(Some(with_tip(alloc, argument, option)?)),
        None => Ok(None),
    }
}

// Of an option with two hyphens: what this command has in its place; and no tip that it may be
// a value, where another command has it.
fn long_text(
    alloc: Global,
    said: &str,
    option: &str,
    usage: &Usage,
) -> Result<Option<String>, AllocError> {
    let written = format!(in alloc; "--{option}")?;
    if let Some(words) = instead_of(usage.command, written.as_str()) {
        return Ok(Some(format!(in alloc; "{UNKNOWN}--{option}' found\n\n  tip: {words}")?));
    }
    if !is_any_option(option) {
        return Ok(None);
    }
    match said.split_once(BEFORE_TIP) {
        Some((before, _)) => Ok(Some(String::from_str(alloc, before)?)),
        None => Ok(None),
    }
}

// Of a word with one hyphen: the option that was meant, or the name, or the number.
fn short_text(
    alloc: Global,
    said: &str,
    word: &str,
    words: &[String],
    usage: &Usage,
) -> Result<String, AllocError> {
    if let Some(option) = short_option(word, usage) {
        return with_tip(alloc, word, option);
    }
    if usage.command == "members" && words.iter().any(|it| it.as_str() == "--new") {
        let mut text = String::from_str(alloc, "error: ")?;
        push_place_words(&mut text, word.as_bytes())?;
        return Ok(text);
    }
    if usage.command == "send" && is_negative(word) && is_version(words, word, usage) {
        return version_text(alloc, word);
    }
    if said.split_once(BEFORE_TIP).is_none() {
        return format!(in alloc; "{UNKNOWN}{word}' found");
    }
    if usage.command == "send" {
        return format!(in alloc;
            "{UNKNOWN}{word}' found{BEFORE_TIP}{word}' as a value, use '-- {word}'"
        );
    }
    format!(in alloc; "{UNKNOWN}{word}' found\n\n  tip: for this name write ./{word}")
}

fn with_tip(alloc: Global, word: &str, option: &str) -> Result<String, AllocError> {
    format!(in alloc; "{UNKNOWN}{word}' found\n\n  tip: write --{option}")
}

fn negative_text(alloc: Global, value: &str, number: &NumberWords) -> Result<String, AllocError> {
    let after = number.after;
    let range = number.words;
    format!(in alloc; "error: invalid value '{value}{after}{range}")
}

// What is said of a version that is a negative number.
fn version_text(alloc: Global, value: &str) -> Result<String, AllocError> {
    for number in NUMBERS.iter() {
        if number.after.contains(VERSION) {
            return negative_text(alloc, value, number);
        }
    }
    format!(in alloc; "{UNKNOWN}{value}' found")
}

// The first negative number that stands after an option of a number.
fn negative_in(words: &[String]) -> Option<(&'static NumberWords, &str)> {
    let mut before = "";
    for word in words {
        let word = word.as_str();
        if is_negative(word) {
            if let Some(number) = number_of(before) {
                return Some((number, word));
            }
        }
        before = word;
    }
    None
}

fn is_negative(word: &str) -> bool {
    match word.strip_prefix('-') {
        Some(digits) => !digits.is_empty() && digits.bytes().all(|byte| byte.is_ascii_digit()),
        None => false,
    }
}

// The numbers that this option takes, if it takes some.
fn number_of(option: &str) -> Option<&'static NumberWords> {
    for number in NUMBERS.iter() {
        let form = number.after.strip_prefix("' for '").unwrap_or("");
        if form.split_once(' ').map_or("", |(name, _)| name) == option {
            return Some(number);
        }
    }
    None
}

// The word of which clap names the beginning.
fn word_of<'a>(words: &'a [String], beginning: &'a str) -> &'a str {
    for word in words {
        let word = word.as_str();
        if word.starts_with(beginning) {
            return word;
        }
    }
    beginning
}

// The name of the command's option that this word is, but for a hyphen; its value may follow. Of a
// letter alone it is the one option that begins with it.
fn short_option<'a>(word: &'a str, usage: &Usage) -> Option<&'a str> {
    let option = word.strip_prefix('-')?;
    let name = option.split_once('=').map_or(option, |(name, _)| name);
    if usage.has_option(name) {
        Some(name)
    } else {
        usage.option_of_letter(name)
    }
}

// The option that was meant by the word before this argument, which has no hyphens; or by one with
// another dash.
fn meant_before<'a>(words: &'a [String], argument: &str, usage: &Usage) -> Option<&'a str> {
    let mut before = "";
    for word in words {
        let word = word.as_str();
        if let Some(option) = dashed_option(usage, word) {
            return Some(option);
        }
        if word == argument {
            return if usage.has_option(before) {
                Some(before)
            } else {
                None
            };
        }
        before = word;
    }
    None
}

// Whether this word is the second that is neither an option nor its value: the version, which
// comes after the object. The first of all is the program's name, and then comes the command.
fn is_version(words: &[String], version: &str, usage: &Usage) -> bool {
    let mut values = 0usize;
    let mut is_value = false;
    for word in words {
        let word = word.as_str();
        if is_value {
            is_value = false;
        } else if word == version {
            return values == 3;
        } else if let Some(option) = word.strip_prefix("--") {
            is_value = usage.takes_value(option);
        } else {
            values = values.saturating_add(1);
        }
    }
    false
}
