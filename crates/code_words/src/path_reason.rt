//! What is wrong with a path at which no file can be opened.

use std::fs;
use std::io::ErrorKind;

const DANGLING: &str = " is a link, and what it leads to isn't there";

const CIRCLE: &str = " can't be opened: its links lead in a circle, and to no file";

const BELOW_A_FILE: &str = " can't be opened: a part of its path is a file, and no folder";

const LONG_NAME: &str = " can't be opened: its name is too long for this disk";

/// What is said of a path after an error of this kind, where it is the path that is at fault, and
/// not the file that is there.
pub fn path_fault(rt: &HostRuntime, path: &str, kind: ErrorKind) -> Option<&'static str> {
    match kind {
        ErrorKind::NotFound if is_link(rt, path) => Some(DANGLING),
        ErrorKind::FilesystemLoop => Some(CIRCLE),
        ErrorKind::NotADirectory => Some(BELOW_A_FILE),
        ErrorKind::InvalidFilename => Some(LONG_NAME),
        _ => None,
    }
}

/// Whether a link is at this path.
pub fn is_link(rt: &HostRuntime, path: &str) -> bool {
    match fs::symlink_metadata(rt, path) {
        Ok(found) => found.is_symlink(),
        Err(_) => false,
    }
}
