//! What is said of a file that is read.

ghost use Rattle.std.specs.Prelude.{◌≡◌, is_some};

use crate::file_reason::{no_list, other_file, push_reason, push_unread};
use crate::other_list::other_list;
use crate::piped::{path_to_read, push_source_name};
use code_words::{LineSpeaker, meaning_of_line, push_name, say_text};
use std::alloc::AllocError;
use std::fs;

/// What says the lines of a command that reads one file.
#[derive(Clone, Copy)]
pub struct FileSpeaker<'a> {
    rt: &'a HostRuntime,
    path: &'a str,
}

impl<'a> FileSpeaker<'a> {
    /// What speaks of the file of this path, if words are asked for.
    pub fn if_asked(rt: &'a HostRuntime, words: bool, path: &'a str) -> Option<FileSpeaker<'a>>
        ensures { is_some result ≡ words }
    {
        if words {
            Some(FileSpeaker { rt, path })
        } else {
            None
        }
    }
}

impl LineSpeaker for FileSpeaker<'_> {
    fn say(&mut self, line: &str) {
        say_text(self.rt, words_of(self.rt, self.path, line));
    }
}

fn words_of(rt: &HostRuntime, path: &str, line: &str) -> Result<String, AllocError> {
    let mut text = String::new(rt.alloc());
    push_file_words(rt, &mut text, path, line)?;
    Ok(text)
}

/// Appends what a line says of the file of this path, if it has a code: the path, and what is so.
pub fn push_file_words(
    rt: &HostRuntime,
    text: &mut String,
    path: &str,
    line: &str,
) -> Result<(), AllocError> {
    if line == "open 4" {
        return push_unread(rt, text, path);
    }
    let Some(meaning) = meaning_of_line(rt.alloc(), line)? else {
        return Ok(());
    };
    push_name(text, path)?;
    text.push_str(": ")?;
    match reason_for(rt, path, line) {
        Some(reason) => {
            text.push_str(meaning.words)?;
            push_reason(rt, text, path, reason)
        }
        None => meaning.push(text),
    }
}

// What is said in place of the advice, where more is known of the file.
fn reason_for(rt: &HostRuntime, path: &str, line: &str) -> Option<&'static str> {
    if line == "damaged 0" {
        return other_file(rt, path);
    }
    let number = line.strip_prefix("ledger line ")?;
    match no_list(rt, path) {
        Some(reason) => Some(reason),
        None => other_list(rt, path, number.parse::<usize>().ok()?),
    }
}

/// Says that the list of this path has no line.
pub fn say_no_line(rt: &HostRuntime, path: &str) {
    say_text(rt, no_line_words(rt, path));
}

fn no_line_words(rt: &HostRuntime, path: &str) -> Result<String, AllocError> {
    let mut text = String::new(rt.alloc());
    push_source_name(&mut text, path)?;
    text.push_str(" is empty: no line in it")?;
    Ok(text)
}

/// Says that a file of which nothing was printed is empty, if it is, and words are asked for.
pub fn say_if_empty(rt: &HostRuntime, words: bool, path: &str) {
    if !words {
        return;
    }
    match fs::metadata(rt, path_to_read(path)) {
        Ok(found) if found.is_file() && found.len() == 0 => say_text(rt, empty_words(rt, path)),
        _ => {}
    }
}

fn empty_words(rt: &HostRuntime, path: &str) -> Result<String, AllocError> {
    let mut text = String::new(rt.alloc());
    push_source_name(&mut text, path)?;
    text.push_str(" is empty, and a cell has a header at least")?;
    Ok(text)
}
