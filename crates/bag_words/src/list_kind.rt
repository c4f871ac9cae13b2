//! Where the names of folders come from, and what kind of list has a line that isn't one.

use code_words::{FileKind, is_key_line, kind_of};

/// Where the names of folders come from.
#[derive(Clone, Copy, Debug, PartialEq, Eq)]
pub enum Names {
    /// They are arguments.
    Given,
    /// They stand in a list.
    Listed,
    /// They are taken from a file that is no list, so those that can't be read are none.
    Mistaken,
}

/// Where they come from, and what was said of that.
#[derive(Clone, Copy, Debug)]
pub(crate) struct Source {
    pub(crate) names: Names,
    /// What was said of the list that has them, if it is none of folders.
    pub(crate) kind: Option<FileKind>,
}

/// What kind of file a list may be that has this line in place of a folder's name, if it is another
/// than a list of folders.
pub(crate) fn kind_with(line: &str) -> Option<FileKind> {
    if is_key_line(line) {
        return Some(FileKind::Key);
    }
    match kind_of(line.as_bytes())? {
        // The name of a folder may begin as a cell does, whose lines aren't UTF-8, or as a line of
        // a key file without its digits.
        FileKind::Empty | FileKind::Marked | FileKind::Cell | FileKind::Key => None,
        kind => Some(kind),
    }
}

/// What is said of it.
pub(crate) fn said_of(kind: FileKind) -> &'static str {
    match kind {
        FileKind::Utf16 => "; the list is UTF-16: save it as UTF-8",
        FileKind::Members => "; the list is a members file",
        FileKind::Key => "; the list is a key file",
        FileKind::Ledger => "; the list is one that `ledger` prints",
        FileKind::Journal => "; the list is one that `journal` prints",
        FileKind::Schedule => "; the list is a schedule",
        FileKind::Json => "; the list is of lines of JSON",
        FileKind::Deposits =>
            "; the list seems to be one of deposits: give it to `send --deposits`",
        FileKind::Empty | FileKind::Marked | FileKind::Cell | FileKind::Synced => "",
    }
}
