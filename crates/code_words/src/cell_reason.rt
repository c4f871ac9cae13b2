//! Why a cell can't be opened.

use crate::file_kind::kind_at;
use crate::file_reason::{bytes_at, push_error};
use crate::file_start::{CELL_START, SYNCED};
use crate::name::push_path;
use std::alloc::AllocError;
use std::fs::{self, File, OpenOptions, TryLockError};
use std::io::ErrorKind;

const IN_USE: &str =
    " is in use by another process; one site, one cell: see which one runs already";

const EMPTY: &str =
    " is empty, and a cell has a header at least; if it was the cell of this site, the site is lost";

const HEADLESS: &str =
    " can't be opened, written or synced, or --existing finds no whole header in it; look at its \
    rights, its folder's and the disk, and keep the file";

const UNUSABLE: &str =
    " can't be opened, written or synced; look at its rights, its folder's and the disk, and keep \
    the file";

const NOT_FOUND: &str =
    " isn't there, and wasn't made; look at its folder, the room on its disk, the mount and \
    --existing";

const NOT_MADE: &str =
    " isn't there, and wasn't made; look at its folder, the room on its disk and the mount";

/// What is said of a file that begins otherwise than a cell.
pub const NO_CELL: &str = "; it doesn't begin as a cell does, so look at the path first";

/// Appends the path of a cell and why it can't be opened, by a start with `--existing` or without.
pub(crate) fn push_cell_reason(
    rt: &HostRuntime,
    text: &mut String,
    cell: &str,
    existing: bool,
) -> Result<(), AllocError> {
    push_path(text, cell)?;
    match fs::symlink_metadata(rt, cell) {
        Ok(found) if found.is_file() && found.len() == 0 => text.push_str(EMPTY),
        Ok(found) if found.is_file() => push_use(rt, text, cell, existing),
        Ok(found) if found.is_dir() => text.push_str(" is a folder, and a cell is a file"),
        Ok(found) if found.is_symlink() => text.push_str(" is a link, and a cell is a file"),
        Ok(_) => text.push_str(" isn't a file, as a cell is"),
        Err(error) if error.kind() == ErrorKind::NotFound && existing => text.push_str(NOT_FOUND),
        Err(error) if error.kind() == ErrorKind::NotFound => text.push_str(NOT_MADE),
        Err(error) => push_error(rt, text, cell, &error),
    }
}

// Appends that another process has the file open, or what else is in the way.
fn push_use(
    rt: &HostRuntime,
    text: &mut String,
    cell: &str,
    existing: bool,
) -> Result<(), AllocError> {
    match File::open(rt, cell) {
        Ok(file) => match file.try_lock() {
            Err(TryLockError::WouldBlock) => text.push_str(IN_USE),
            _ if is_unwritable(rt, cell) => text.push_str(" may not be written by this user"),
            _ => push_unusable(rt, text, cell, existing),
        },
        Err(error) => push_error(rt, text, cell, &error),
    }
}

// Appends that a cell can't be used, of which no more is known, or that the file is none.
fn push_unusable(
    rt: &HostRuntime,
    text: &mut String,
    cell: &str,
    existing: bool,
) -> Result<(), AllocError> {
    text.push_str(if existing { HEADLESS } else { UNUSABLE })?;
    match other_file(rt, cell) {
        Some(reason) => push_other(rt, text, cell, reason),
        None => Ok(()),
    }
}

// Whether this user may read the file, and not write it. Nothing is written.
fn is_unwritable(rt: &HostRuntime, cell: &str) -> bool {
    match OpenOptions::new().write(true).open(rt, cell) {
        Ok(_) => false,
        Err(error) => error.kind() == ErrorKind::PermissionDenied,
    }
}

/// Why the file of this path is no cell, after a semicolon, if it is there and is none.
pub(crate) fn other_file(rt: &HostRuntime, cell: &str) -> Option<&'static str> {
    let bytes = bytes_at(rt, cell);
    if bytes.is_empty() || bytes.as_slice().starts_with(CELL_START) {
        return None;
    }
    if cell.ends_with(SYNCED) {
        return Some("; it is what a site leaves beside its cell: give the cell");
    }
    Some(NO_CELL)
}

/// Appends this reason why the file of this path is no cell, and of what kind the file is, if that
/// is known.
pub(crate) fn push_other(
    rt: &HostRuntime,
    text: &mut String,
    cell: &str,
    reason: &str,
) -> Result<(), AllocError> {
    text.push_str(reason)?;
    if reason != NO_CELL {
        return Ok(());
    }
    match kind_at(rt, cell) {
        Some(kind) => text.push_str(kind.said()),
        None => Ok(()),
    }
}
