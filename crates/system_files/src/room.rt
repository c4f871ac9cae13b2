//! How far a file may grow.

ghost use Rattle.std.specs.Prelude.{◌↔◌, ◌+◌, ◌≤◌, IsTrue};

use libc::types::rlimit;
use libc::{SEEK_CUR, STDOUT_FILENO, getrlimit, lseek};
use std::fs::{self, File};
use std::io;

/// What `getrlimit` is asked.
const RLIMIT_FSIZE: i32 = 1;

/// Refuses to append `more` bytes to a file if that would make it longer than the process may
/// write. Such a write would end the process by a signal.
pub fn expect_room(file: &File, more: u64) -> io::Result<()> {
    match size_limit() {
        Some(limit) if !has_room(limit, file.metadata()?.len(), more) => Err(too_large()),
        _ => Ok(()),
    }
}

/// The same for standard output, if that is a file. Its length is the greater of the file's length
/// and the place at which it is written.
pub fn expect_room_in_output(rt: &HostRuntime, more: u64) -> io::Result<()> {
    let Some(limit) = size_limit() else {
        return Ok(());
    };
    match fs::metadata(rt, "/proc/self/fd/1") {
        Ok(about) if about.is_file() => {
            let place = u64::try_from(lseek(STDOUT_FILENO, 0, SEEK_CUR)).unwrap_or(0);
            if has_room(limit, about.len().max(place), more) {
                Ok(())
            } else {
                Err(too_large())
            }
        }
        _ => Ok(()),
    }
}

/// Refuses a length that is longer than the process may make a file.
pub fn expect_length(length: u64) -> io::Result<()> {
    match size_limit() {
        Some(limit) if limit < length => Err(too_large()),
        _ => Ok(()),
    }
}

/// The length beyond which the process may write no file, if there is one.
pub fn size_limit() -> Option<u64> {
    let mut limit = rlimit {
        rlim_cur: u64::MAX,
        rlim_max: u64::MAX,
    };
    if getrlimit(RLIMIT_FSIZE, &mut limit) < 0 || limit.rlim_cur == u64::MAX {
        return None;
    }
    Some(limit.rlim_cur)
}

/// Whether a file of this length may have `more` bytes more.
pub fn has_room(limit: u64, length: u64, more: u64) -> bool
    ensures { IsTrue result ↔ length + more ≤ limit }
{
    more <= limit && length <= limit - more
}

fn too_large() -> io::Error {
    io::Error::from_raw_os_error(libc::EFBIG)
}
