//! What a text is that is no list of a ledger's.

use crate::piped::path_to_read;
use code_words::{FileKind, first_bytes, kind_of};

/// What the file of this path seems to be, by its line of this number, counted from 1; after a
/// semicolon. Nothing of the line is shown: it may be a key's.
pub(crate) fn other_list(rt: &HostRuntime, path: &str, number: usize) -> Option<&'static str> {
    let bytes = first_bytes(rt, path_to_read(path));
    let line = bytes
        .as_slice()
        .split(|byte| *byte == b'\n')
        .nth(number.saturating_sub(1))?;
    match kind_of(line)? {
        FileKind::Empty | FileKind::Ledger => None,
        FileKind::Json => Some("; this is a line of JSON: make the list without --json"),
        FileKind::Journal => {
            Some("; `journal` prints this: give the list that `ledger` prints, or the cell")
        }
        FileKind::Deposits => {
            Some("; this is a list of deposits, and `ledger` prints the list of bags")
        }
        kind => Some(kind.said()),
    }
}
