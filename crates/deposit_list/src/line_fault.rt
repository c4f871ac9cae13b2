//! What is wrong with a line of a list.

use code_words::{FileKind, MARK, kind_of, push_found};
use dgram::LONGEST_PATH;
use fed_types::LONGEST_OBJECT;
use std::alloc::{AllocError, Global};
use std::str;
use tokens::{first_line, parse_number, parse_text, split_words};

/// How many bytes a word has at most that is shown.
const LONGEST_SHOWN: usize = 100;

/// What lines of `ledger` with a bag begin with.
const LEDGER: [&[u8]; 3] = [b"known", b"pending", b"voted"];

/// Appends what is wrong with the line of this number, counted from 1, the first at fault in a text
/// that is no list of deposits.
pub(crate) fn push_line_fault(
    alloc: Global,
    text: &mut String,
    list: &[u8],
    number: usize,
) -> Result<(), AllocError> {
    let line = line_at(list, number);
    if line.starts_with(MARK) {
        return text.push_str("it begins with a byte order mark: save it without");
    }
    if let Some(kind) = other_kind(list, number) {
        let said = kind.said();
        return text.push_str(said.strip_prefix("; ").unwrap_or(said));
    }
    let words = split_words(alloc, line)?;
    match words.as_slice() {
        [object, version, path] => push_word_fault(alloc, text, object, version, path)?,
        [kind, _, _, _] if LEDGER.iter().any(|it| *it == *kind) => text.push_str(
            "this is a line of `ledger`; `bagpaxos check --registered` with --deposits makes a list \
            of deposits of it",
        )?,
        words => {
            let count = words.len();
            write!(
                text,
                "a line is OBJ V PATH, three words, and it has {count}; in a name, write %20 for \
                a blank"
            )?;
        }
    }
    if line.starts_with(b"#") {
        text.push_str("; a list of deposits has no comments")?;
    }
    if line.contains(&b'\t') {
        return text.push_str("; a tab separates no words");
    }
    Ok(())
}

// What kind of file a list is of which the first line is at fault, if it is one without deposits.
fn other_kind(list: &[u8], number: usize) -> Option<FileKind> {
    match kind_of(list)? {
        FileKind::Empty | FileKind::Marked | FileKind::Ledger | FileKind::Deposits => None,
        kind if number == 1 => Some(kind),
        _ => None,
    }
}

// The line of this number, counted from 1; empty where there is none.
fn line_at(list: &[u8], number: usize) -> &[u8] {
    let mut rest = list;
    for _ in 1..number {
        match first_line(rest) {
            Some((_, after)) => rest = after,
            None => return &[],
        }
    }
    match first_line(rest) {
        Some((line, _)) => line,
        None => &[],
    }
}

// Appends which of these three words is wrong, or that the version isn't new.
fn push_word_fault(
    alloc: Global,
    text: &mut String,
    object: &[u8],
    version: &[u8],
    path: &[u8],
) -> Result<(), AllocError> {
    if !is_text(alloc, object, LONGEST_OBJECT)? {
        push_word(text, object)?;
        write!(
            text,
            " isn't the name of an object, 1 to {LONGEST_OBJECT} bytes of UTF-8"
        )?;
        return push_percent(text, object);
    }
    if parse_number(1, u64::from(u32::MAX), version).is_none() {
        push_word(text, version)?;
        let most = u32::MAX;
        return write!(text, " isn't a version, 1 to {most}");
    }
    if !is_text(alloc, path, LONGEST_PATH)? {
        push_word(text, path)?;
        write!(text, " isn't a path, 1 to {LONGEST_PATH} bytes of UTF-8")?;
        return push_percent(text, path);
    }
    text.push_str("an earlier line has this version of the object, and a version is one bag")
}

// Appends how a percent sign is written, where the word has one.
fn push_percent(text: &mut String, word: &[u8]) -> Result<(), AllocError> {
    if word.contains(&b'%') {
        return text.push_str(
            "; a percent sign and two digits of hex stand for a byte: write %25 for a percent sign",
        );
    }
    Ok(())
}

fn is_text(alloc: Global, word: &[u8], most: usize) -> Result<bool, AllocError> {
    match parse_text(alloc, word)? {
        Some(text) => Ok(!text.is_empty() && text.len() <= most),
        None => Ok(false),
    }
}

// Appends a word, if it is a text that isn't long.
fn push_word(text: &mut String, word: &[u8]) -> Result<(), AllocError> {
    match str::from_utf8(word) {
        Ok(name) if name.len() <= LONGEST_SHOWN => push_found(text, &[word]),
        _ => {
            let count = word.len();
            write!(text, "a word of {count} bytes")
        }
    }
}
