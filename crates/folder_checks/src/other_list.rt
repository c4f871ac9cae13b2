//! What a file is that is given as a list of folders, and can't be one.

use code_words::{CELL_START, FileKind, kind_of};
use std::str;

const NO_TEXT: &str = "; this is no text, and a list of folders is one";

/// What a list of these bytes is, in which this byte ends each name, if it can't be one of folders:
/// UTF-16, or no text. After a semicolon.
pub(crate) fn other_list(bytes: &[u8], end: u8) -> Option<&'static str> {
    if is_utf16(bytes, end) {
        return Some(FileKind::Utf16.said());
    }
    if !has_zeros(bytes) || !has_controls(bytes) {
        return None;
    }
    if bytes.starts_with(CELL_START) {
        Some(FileKind::Cell.said())
    } else if str::from_utf8(bytes).is_err() {
        Some(NO_TEXT)
    } else {
        None
    }
}

// Whether they are UTF-16. Names of one letter that zero bytes end look alike, without its mark.
fn is_utf16(bytes: &[u8], end: u8) -> bool {
    if end == 0 {
        bytes.starts_with(b"\xff\xfe") || bytes.starts_with(b"\xfe\xff")
    } else {
        kind_of(bytes) == Some(FileKind::Utf16)
    }
}

// Whether two zero bytes stand in a row. In a list that is an empty name at most.
fn has_zeros(bytes: &[u8]) -> bool {
    bytes
        .windows(2)
        .any(|pair| pair.iter().all(|byte| *byte == 0))
}

// Whether there is a control other than zero, escape and those of lines and tabs.
fn has_controls(bytes: &[u8]) -> bool {
    bytes
        .iter()
        .any(|byte| matches!(*byte, 1..=8 | 14..=26 | 28..=31))
}
