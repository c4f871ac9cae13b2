//! Where a file is.

use std::fs::File;
use std::{fs, io};
use system_files::FileId;

/// A path, and the file to which it led. If the file is renamed, deleted or replaced while it is
/// open, it goes on, but another file that is opened by its path isn't the same.
#[derive(Drop)]
pub(crate) struct Place {
    rt: HostRuntime,
    path: String,
    file: FileId,
}

impl Place {
    /// This path, and the file that is open.
    pub fn new(rt: &HostRuntime, path: &str, file: &File) -> io::Result<Place> {
        Ok(Place {
            rt: *rt,
            path: String::from_str(rt.alloc(), path)?,
            file: FileId::of(&file.metadata()?),
        })
    }

    /// The file's length; none if the path doesn't lead to it, without a link at its end.
    pub fn length(&self) -> Option<u64> {
        match fs::symlink_metadata(&self.rt, self.path.as_str()) {
            Ok(about) if FileId::of(&about) == self.file => Some(about.len()),
            _ => None,
        }
    }
}
