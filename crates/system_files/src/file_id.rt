//! Which file it is.

use std::fs::{self, File, Metadata};
use std::io::{self, ErrorKind};
use std::os::unix::fs::MetadataExt;

/// A file of the system, whatever paths lead to it.
#[derive(Clone, Copy, Debug, PartialEq, Eq)]
pub struct FileId {
    device: u64,
    inode: u64,
}

impl FileId {
    /// The file that this was said of.
    pub fn of(about: &Metadata) -> FileId {
        FileId {
            device: about.dev(),
            inode: about.ino(),
        }
    }
}

/// The regular file to which a path leads, through links; none if nothing is there. Anything else
/// is refused: opening a pipe may wait for ever.
pub fn regular_file_at(rt: &HostRuntime, path: &str) -> io::Result<Option<FileId>> {
    match fs::metadata(rt, path) {
        Ok(about) if about.is_file() => Ok(Some(FileId::of(&about))),
        Ok(_) => Err(ErrorKind::InvalidInput.into()),
        Err(error) if error.kind() == ErrorKind::NotFound => Ok(None),
        Err(error) => Err(error),
    }
}

/// Refuses an open file that isn't the one that was seen before it was opened, or, if none was
/// there, that isn't a regular file.
pub fn expect_same(seen: Option<FileId>, file: &File) -> io::Result<()> {
    let about = file.metadata()?;
    let is_same = match seen {
        Some(seen) => seen == FileId::of(&about),
        None => true,
    };
    if about.is_file() && is_same {
        Ok(())
    } else {
        Err(ErrorKind::InvalidInput.into())
    }
}
