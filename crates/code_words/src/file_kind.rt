//! What kind of file the first bytes are.

ghost use Rattle.std.specs.Prelude.{◌≡◌, None, if◌then◌else◌};
ghost use Rattle.std.specs.Char.{is_ascii_whitespace};
ghost use Rattle.std.specs.List.{list_all};
ghost use Rattle.std.specs.Option.{option_copied};
ghost use Rattle.code_words.specs.FileKinds.{name_of, said_of, is_no_key};
ghost use Rattle.std.specs.Str.{is_utf8};
ghost use Rattle.code_words.specs.FileKinds.{kind_of, kind_of_line, kind_shown};
ghost use Rattle.code_words.specs.FileKinds.{line_showing, shows_kind};

use crate::file_reason::is_piped;
use crate::file_start::{CELL_START, MARK, SYNCED, first_bytes};
use crate::line_kind::kind_of_line;
use crate::utf16::is_utf16;
use std::str;

/// A kind of file that may be given in place of another.
#[derive(Clone, Copy, Debug, PartialEq, Eq)]
pub enum FileKind {
    Empty,
    /// A text in UTF-16, of whatever kind.
    Utf16,
    /// A text that begins with a byte order mark, of whatever kind.
    Marked,
    Cell,
    /// What a site leaves beside its cell.
    Synced,
    Members,
    Key,
    /// What `ledger` prints.
    Ledger,
    /// What `journal` prints.
    Journal,
    Deposits,
    Schedule,
    Json,
}

impl FileKind {
    /// What it is, with its article.
    pub fn name(self) -> &'static str
        ensures { result.now ≡ name_of self }
    {
        match self {
            FileKind::Empty => "empty",
            FileKind::Utf16 => "UTF-16: save it as UTF-8",
            FileKind::Marked => "a text with a byte order mark: save it without",
            FileKind::Cell => "a cell",
            FileKind::Synced => "what a site leaves beside its cell",
            FileKind::Members => "a members file",
            FileKind::Key => "a key file",
            FileKind::Ledger => "a list that `ledger` prints",
            FileKind::Journal => "a list that `journal` prints",
            FileKind::Deposits => "a list of deposits",
            FileKind::Schedule => "a schedule",
            FileKind::Json => "a line of JSON",
        }
    }

    /// The same as a sentence, after a semicolon.
    pub fn said(self) -> &'static str
        ensures { result.now ≡ said_of self }
    {
        match self {
            FileKind::Empty => "; it is empty",
            FileKind::Utf16 => "; it is UTF-16: save it as UTF-8",
            FileKind::Marked => "; it begins with a byte order mark: save it without",
            FileKind::Cell => "; this is a cell",
            FileKind::Synced => "; it is what a site leaves beside its cell: give the cell",
            FileKind::Members => "; this is a members file",
            FileKind::Key => "; this is a key file",
            FileKind::Ledger => "; this is a list that `ledger` prints",
            FileKind::Journal => "; this is a list that `journal` prints",
            FileKind::Deposits => "; this is a list of deposits",
            FileKind::Schedule => "; this is a schedule",
            FileKind::Json => "; this is a line of JSON",
        }
    }

    /// Whether no key file is of this kind, however it was saved.
    pub fn is_no_key(self) -> bool
        ensures { result ≡ is_no_key self }
    {
        !matches!(
            self,
            FileKind::Empty | FileKind::Utf16 | FileKind::Marked | FileKind::Key
        )
    }
}

/// What kind of file the one of this path is, as its name or its first bytes show. What isn't a
/// file isn't opened.
pub fn kind_at(rt: &HostRuntime, path: &str) -> Option<FileKind> {
    if path.ends_with(SYNCED) {
        return Some(FileKind::Synced);
    }
    if is_piped(rt, path) {
        return None;
    }
    let bytes = first_bytes(rt, path);
    if bytes.is_empty() {
        return None;
    }
    kind_of(bytes.as_slice())
}

/// What kind of file begins with these bytes. Of a text the first line that is neither blank nor a
/// comment shows it.
#[tactic(auto, unfolding(crate::specs::FileKinds::kind_of))]
pub fn kind_of(bytes: &[u8]) -> Option<FileKind>
    ensures { result ≡ kind_of bytes.now }
{
    if bytes.is_empty() {
        return Some(FileKind::Empty);
    }
    if bytes.starts_with(CELL_START) {
        return Some(FileKind::Cell);
    }
    if bytes.starts_with(MARK) {
        return Some(FileKind::Marked);
    }
    kind_shown(line_showing(bytes)?)
}

fn line_showing(bytes: &[u8]) -> Option<&[u8]>
    ensures { option_copied result ≡ line_showing bytes.now }
{
    bytes
        .split(|byte| *byte == b'\n')
        .find(|line| shows_kind(line))
}

// Whether a line shows what kind its text has: it is UTF-16, or neither blank nor a comment.
#[tactic(auto, unfolding(crate::specs::FileKinds::shows_kind))]
fn shows_kind(line: &[u8]) -> bool
    ensures { result ≡ shows_kind line.now }
{
    is_utf16(line) || (!is_blank(line) && !line.starts_with(b"#"))
}

fn is_blank(line: &[u8]) -> bool
    ensures { result ≡ list_all is_ascii_whitespace line.now }
{
    line.iter().all(|byte| byte.is_ascii_whitespace())
}

// The kind that it shows.
#[tactic(auto, unfolding(crate::specs::FileKinds::kind_shown))]
fn kind_shown(line: &[u8]) -> Option<FileKind>
    ensures { result ≡ kind_shown line.now }
{
    if is_utf16(line) {
        Some(FileKind::Utf16)
    } else {
        kind_of_bytes(line)
    }
}

fn kind_of_bytes(line: &[u8]) -> Option<FileKind>
    ensures { result ≡ if is_utf8 line.now then kind_of_line line.now else None }
{
    match str::from_utf8(line) {
        Ok(line) => kind_of_line(line),
        Err(_) => None,
    }
}
