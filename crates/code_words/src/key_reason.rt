//! What is wrong with a line of a key file.

use crate::file_kind::{FileKind, kind_of};
use crate::file_reason::bytes_at;
use crate::key_line::has_key_line;
use crate::text_lines::line_at;
use std::alloc::{AllocError, Global};
use tokens::{first_line, split_words};

/// What is wrong with the line of this number, counted from 1, the first at fault in the key file
/// of this path, if more can be said than what such a line has to be; after a semicolon. Nothing of
/// the line is shown.
pub(crate) fn key_reason(
    rt: &HostRuntime,
    path: &str,
    number: usize,
) -> Result<Option<&'static str>, AllocError> {
    let bytes = bytes_at(rt, path);
    let text = bytes.as_slice();
    if text.is_empty() {
        return Ok(Some("; it is empty"));
    }
    if !has_line(text, number) {
        return Ok(Some("; it has no line `clients HEX`"));
    }
    match kind_of(text) {
        Some(kind) if number == 1 && kind != FileKind::Key => Ok(Some(kind.said())),
        _ => line_reason(rt.alloc(), line_at(text, number)),
    }
}

/// Whether the file of this path can be read, and no line of what it begins with seems to be that
/// of a key file.
pub(crate) fn is_unlike_key(rt: &HostRuntime, path: &str) -> bool {
    let bytes = bytes_at(rt, path);
    !bytes.is_empty() && !has_key_line(bytes.as_slice())
}

// Whether a text has a line of this number.
fn has_line(text: &[u8], number: usize) -> bool {
    let mut rest = text;
    for _ in 1..number {
        match first_line(rest) {
            Some((_, after)) => rest = after,
            None => return false,
        }
    }
    first_line(rest).is_some()
}

fn line_reason(alloc: Global, line: &[u8]) -> Result<Option<&'static str>, AllocError> {
    let words = split_words(alloc, line)?;
    Ok(match words.as_slice() {
        [] => Some("; the line is blank, and a key file has no such line"),
        [first, ..] if first.starts_with(b"#") => {
            Some("; the line is a comment, and a key file has none")
        }
        [_, digits] if has_capitals(digits) => {
            Some("; its digits above 9 have to be small letters, a to f")
        }
        _ => None,
    })
}

// Whether these are digits of hex, of which some are capital letters.
fn has_capitals(digits: &[u8]) -> bool {
    digits.iter().all(|digit| digit.is_ascii_hexdigit())
        && digits.iter().any(|digit| digit.is_ascii_uppercase())
}
