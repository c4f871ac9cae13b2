//! Options that were typed with another dash than two hyphens, as a word processor makes one of
//! them.

use crate::usage::{Usage, usage_of};
use code_words::push_name;
use std::alloc::AllocError;

/// The dashes that a word processor writes in place of hyphens: U+2013 and U+2014.
const DASHES: [char; 2] = ['\u{2013}', '\u{2014}'];

/// Says on standard error which words of a command were taken for names, and are its options but
/// for such a dash. The first word is the program's own name.
pub(crate) fn say_dashes(rt: &HostRuntime, words: &[String]) {
    let [_, command, rest @ ..] = words else {
        return;
    };
    let Some(usage) = usage_of(command.as_str()) else {
        return;
    };
    for word in rest {
        let word = word.as_str();
        if word == "--" {
            return;
        }
        if let Some(option) = dashed_option(usage, word) {
            let _ = say_dash(rt, word, option);
        }
    }
}

fn say_dash(rt: &HostRuntime, word: &str, option: &str) -> Result<(), AllocError> {
    let mut name = String::new(rt.alloc());
    push_name(&mut name, word)?;
    let _ = eprintln!(rt; "note: {name} is taken for a name; write --{option}");
    Ok(())
}

/// The option of the command that this word is but for such a dash.
pub(crate) fn dashed_option<'a>(usage: &Usage, word: &'a str) -> Option<&'a str> {
    let name = word.strip_prefix(DASHES)?.trim_start_matches(DASHES);
    if usage.has_option(name) {
        Some(name)
    } else {
        None
    }
}
