//! Why a file can't be read.

use crate::empty_files::is_empty;
use crate::piped::{is_piped, path_to_read};
use code_words::{CELL_START, NO_CELL, SYNCED, first_bytes, kind_at, push_error, push_path};
use std::alloc::AllocError;
use std::fs::{self, File};

/// What is said of the file beside a cell.
const LENGTHS: &str = "; it is what a site leaves beside its cell: give the cell";

/// What is said of bytes that can't be read a second time.
pub(crate) const GONE: &str = "; it came through a pipe, and is gone: give a file to see the line";

/// Appends a path, and why the cell or the list there can't be read.
pub(crate) fn push_unread(
    rt: &HostRuntime,
    text: &mut String,
    path: &str,
) -> Result<(), AllocError> {
    if path == "-" {
        return text.push_str("standard input is neither a file nor a pipe that can be read");
    }
    push_path(text, path)?;
    match fs::metadata(rt, path) {
        Ok(found) if found.is_dir() => text.push_str(" is a folder, and no file"),
        Ok(found) if !found.is_file() => text.push_str(" isn't a file"),
        Ok(_) => match File::open(rt, path) {
            Ok(_) => text.push_str(" can't be read to its end"),
            Err(error) => push_error(rt, text, path, &error),
        },
        Err(error) => push_error(rt, text, path, &error),
    }
}

/// Appends that the file of this path isn't a cell, and why, if it is there and that is so.
pub fn push_other_file(rt: &HostRuntime, text: &mut String, path: &str) -> Result<(), AllocError> {
    match other_file(rt, path) {
        Some(reason) => push_reason(rt, text, path, reason),
        None => Ok(()),
    }
}

/// Appends this reason, and of what kind the file of this path is, where it is no cell.
pub(crate) fn push_reason(
    rt: &HostRuntime,
    text: &mut String,
    path: &str,
    reason: &str,
) -> Result<(), AllocError> {
    text.push_str(reason)?;
    if reason != NO_CELL {
        return Ok(());
    }
    match kind_at(rt, path_to_read(path)) {
        Some(kind) => text.push_str(kind.said()),
        None => Ok(()),
    }
}

/// What is said of a path of which no line can be a list's, after a semicolon, if it is one.
pub(crate) fn no_list(rt: &HostRuntime, path: &str) -> Option<&'static str> {
    if path.ends_with(SYNCED) {
        return Some(LENGTHS);
    }
    if is_piped(rt, path) { Some(GONE) } else { None }
}

/// Why the file of this path isn't a cell, after a semicolon: it is empty, or doesn't begin as a
/// cell does; none if it isn't there, or may be one. A pipe isn't opened: it is empty by now, or
/// waits for its writer.
pub(crate) fn other_file(rt: &HostRuntime, path: &str) -> Option<&'static str> {
    if path.ends_with(SYNCED) {
        return Some(LENGTHS);
    }
    if is_piped(rt, path) {
        return Some(GONE);
    }
    let path = path_to_read(path);
    if is_empty(rt, path) {
        return Some("; it is empty, and a cell has a header at least");
    }
    let bytes = first_bytes(rt, path);
    let front = bytes.get(..CELL_START.len())?;
    if front == CELL_START {
        None
    } else {
        Some(NO_CELL)
    }
}
