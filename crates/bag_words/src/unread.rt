//! Places of a folder that can't be read.

use bag_tree::TreeFault;
use code_words::{is_link, push_line_name, push_name};
use std::alloc::{AllocError, Global};
use std::collections::BTreeSet;
use std::fs::Metadata;
use std::io::{self, ErrorKind};

/// A place that can't be read: its path below the folder, or `.` for the folder itself, and why
/// not.
#[derive(Drop)]
pub(crate) struct Unread {
    pub(crate) path: String,
    pub(crate) reason: Reason,
}

/// Why a place can't be read.
#[derive(Clone, Copy, Debug, PartialEq, Eq)]
pub(crate) enum Reason {
    Absent,
    Dangling,
    NoRight,
    NoFolder,
    NotUtf8,
    LongName,
    ZeroBytes,
    Circle,
    Link,
    Special,
    TooDeep,
    TooMany,
    TooLong,
    Failing,
}

impl Reason {
    /// Why what this error says can't be read.
    pub(crate) fn of_error(error: &io::Error) -> Reason {
        match error.kind() {
            ErrorKind::NotFound => Reason::Absent,
            ErrorKind::PermissionDenied => Reason::NoRight,
            ErrorKind::NotADirectory => Reason::NoFolder,
            // Of a name that isn't UTF-8 the system says nothing.
            ErrorKind::InvalidFilename if error.raw_os_error().is_none() => Reason::NotUtf8,
            ErrorKind::InvalidFilename => Reason::LongName,
            // So is a name that has zero bytes, which the system isn't asked for.
            ErrorKind::InvalidInput if error.raw_os_error().is_none() => Reason::ZeroBytes,
            ErrorKind::FilesystemLoop => Reason::Circle,
            _ => Reason::Failing,
        }
    }

    /// Why the folder of this path can't be read, after this error.
    pub(crate) fn of_path(rt: &HostRuntime, path: &str, error: &io::Error) -> Reason {
        match Reason::of_error(error) {
            Reason::Absent if is_link(rt, path) => Reason::Dangling,
            reason => reason,
        }
    }

    /// Why what is neither a file nor a folder isn't read.
    pub(crate) fn of_entry(metadata: &Metadata) -> Reason {
        if metadata.is_symlink() {
            Reason::Link
        } else {
            Reason::Special
        }
    }

    /// Why a file isn't read.
    pub(crate) fn of_fault(fault: TreeFault) -> Reason {
        if fault == TreeFault::TextTooLong {
            Reason::TooLong
        } else {
            Reason::Failing
        }
    }

    fn words(self) -> &'static str {
        match self {
            Reason::Absent => "isn't there",
            Reason::Dangling => "is a link, and what it leads to isn't there",
            Reason::NoRight => "may not be read by this user",
            Reason::NoFolder => "isn't a folder",
            Reason::NotUtf8 => "has an entry whose name isn't UTF-8, as `ls -b` shows; rename that",
            Reason::LongName => "can't be read: its name is too long for this disk",
            Reason::ZeroBytes => "has zero bytes, and so no folder has this name",
            Reason::Circle => "can't be read: its links lead in a circle, and to no file",
            Reason::Link => "is a link; put a copy of what it leads to in its place",
            Reason::Special => "is a pipe, a socket or a device, and a bag has files and folders",
            Reason::TooDeep => "has more than 32 parts",
            Reason::TooMany => "has more than 100,000 files and folders",
            Reason::TooLong => "has more than 64 MiB",
            Reason::Failing => "can't be read: the disk fails, or it is exchanged meanwhile",
        }
    }
}

/// Appends a sentence for each place.
pub(crate) fn push_unread_places(
    text: &mut String,
    folder: &str,
    places: &[Unread],
) -> Result<(), AllocError> {
    for place in places {
        text.push_str("  ")?;
        let is_folder = place.path.as_str() == ".";
        if is_folder {
            push_folder_name(text, folder)?;
        } else {
            push_name(text, place.path.as_str())?;
        }
        let words = place.reason.words();
        write!(text, " {words}")?;
        if is_folder && place.reason == Reason::Absent && has_escape(folder) {
            text.push_str("; a name is taken as it is, and `%20` in it stands for no blank")?;
        }
        text.push('\n')?;
    }
    Ok(())
}

// Appends the folder's name, which may be the line of a list; between quotes where its end couldn't
// be seen.
fn push_folder_name(text: &mut String, folder: &str) -> Result<(), AllocError> {
    if folder.starts_with(' ') || folder.ends_with(' ') {
        text.push('"')?;
        push_line_name(text, folder)?;
        return text.push('"');
    }
    push_line_name(text, folder)
}

// Whether a percent sign and two digits of hex stand in a name.
fn has_escape(name: &str) -> bool {
    name.split('%').skip(1).any(|rest| match rest.as_bytes() {
        [first, second, ..] => first.is_ascii_hexdigit() && second.is_ascii_hexdigit(),
        _ => false,
    })
}

/// The paths of places.
#[derive(Drop)]
pub(crate) struct UnreadPaths<'a> {
    paths: BTreeSet<&'a str>,
}

impl<'a> UnreadPaths<'a> {
    pub(crate) fn of(alloc: Global, places: &'a [Unread]) -> Result<UnreadPaths<'a>, AllocError> {
        let mut paths = BTreeSet::new(alloc);
        for place in places {
            paths.insert(place.path.as_str())?;
        }
        Ok(UnreadPaths { paths })
    }

    /// Whether the file of this path is one of these, or below one.
    pub(crate) fn have(&self, path: &str) -> bool {
        if self.paths.contains(path) {
            return true;
        }
        let mut front = path;
        for _ in 0..path.len() {
            match front.rsplit_once('/') {
                Some((folder, _)) => front = folder,
                None => return false,
            }
            if self.paths.contains(front) {
                return true;
            }
        }
        false
    }
}
