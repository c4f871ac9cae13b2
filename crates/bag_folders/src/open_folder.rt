use os::FromRawFd;
use std::alloc::Global;
use std::io;
use std::os::fd::{AsRawFd, OwnedFd, RawFd};

/// A folder that is open, whatever its path leads to by now.
#[derive(Drop)]
pub(crate) struct OpenFolder {
    descriptor: OwnedFd,
}

impl OpenFolder {
    /// The folder of this path, which may be a link.
    pub(crate) fn of_path(alloc: Global, path: &str) -> io::Result<OpenFolder> {
        let mut followed = String::from_str(alloc, path)?;
        if !path.is_empty() && !path.ends_with('/') {
            followed.push('/')?;
        }
        opened(libc::AT_FDCWD, followed.as_str())
    }

    /// The folder of this name in it, which may not be a link.
    pub(crate) fn enter(&self, name: &str) -> io::Result<OpenFolder> {
        opened(self.number(), name)
    }

    /// Puts the names of its next entries into the buffer, each followed by a NUL, and says how
    /// many bytes they take; at the end it takes none.
    pub(crate) fn next_names<'a>(&self, buffer: &'a mut [u8]) -> io::Result<&'a [u8]> {
        let count = os::read_dir(self.number(), buffer);
        match os::errno() {
            // A folder that was removed has no more entries.
            0 | libc::ENOENT => Ok(&buffer[..count]),
            error => Err(io::Error::from_raw_os_error(error)),
        }
    }

    /// The descriptor's number.
    pub(crate) fn number(&self) -> RawFd {
        self.descriptor.as_raw_fd()
    }
}

/// The folder of this name in an open one, or in the working folder.
fn opened(folder: RawFd, name: &str) -> io::Result<OpenFolder> {
    let number = os::open_dir_at(folder, name.as_bytes());
    if number < 0 {
        return Err(io::Error::from_raw_os_error(os::errno()));
    }
    let descriptor = unsafe { OwnedFd::from_raw_fd(number) };
    Ok(OpenFolder { descriptor })
}
