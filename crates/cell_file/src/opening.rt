//! Opening the cell in a file.

ghost use Rattle.std.specs.Prelude.{◌≡◌, IfOk};
ghost use Rattle.cell_device.specs.declared.trust.Trust.TheVariants.{Sound};
ghost use Rattle.cell_file.specs.HostFiles.{file_state};

use crate::DiskCell;
use crate::beside::file_seen_at;
use crate::host_file::HostFile;
use crate::place::Place;
use crate::synced_file::SyncedFile;
use crate::unopened::{Unopened, unlocked_by, unopened_by};
use cell_device::{CellFault, FileCell};
use std::fs::{self, File, OpenOptions};
use std::io::{self, ErrorKind};
use std::os::fd::AsRawFd;
use std::os::unix::fs::OpenOptionsExt;
use std::path::Path;
use system_files::expect_same;

/// Whether opening makes a file.
#[derive(Clone, Copy, Debug, PartialEq, Eq)]
pub enum Creation {
    /// If there is none, an empty one, with rights for its owner alone.
    IfMissing,
    /// Never.
    Never,
}

/// The cell in the file of this path; a path without a folder leads to the present one. What a read
/// of it gives is on the disk, and nobody else has it open as a cell until it is dropped.
pub fn open_cell(rt: &HostRuntime, path: &str, creation: Creation) -> Result<DiskCell, Unopened> {
    let file = open_locked(rt, path, creation)?;
    match settle(rt, path, file) {
        Ok(file) => over(file),
        Err(error) => Err(unopened_by(&error)),
    }
}

// The cell in this file.
fn over(file: HostFile) -> Result<DiskCell, Unopened>
    requires { (file_state file).trust ≡ Sound }
{
    match FileCell::over(file) {
        Ok(cell) => Ok(cell),
        Err((_, CellFault::Memory)) => Err(Unopened::Memory),
        Err((_, CellFault::Device)) => Err(Unopened::Device),
    }
}

// The file of this path, which no other cell has open.
fn open_locked(rt: &HostRuntime, path: &str, creation: Creation) -> Result<File, Unopened> {
    let file = match open_file(rt, path, creation) {
        Ok(file) => file,
        Err(error) => return Err(unopened_by(&error)),
    };
    match file.try_lock() {
        Ok(()) => Ok(file),
        Err(error) => Err(unlocked_by(&error)),
    }
}

// A pipe or a link that takes the file's place before the open is found after it: the open itself
// doesn't wait, since it is for reading and writing.
fn open_file(rt: &HostRuntime, path: &str, creation: Creation) -> io::Result<File> {
    let seen = file_seen_at(rt, path)?;
    // Each write goes to the end.
    let file = OpenOptions::new()
        .read(true)
        .append(true)
        .create(creation == Creation::IfMissing)
        .mode(0o600)
        .open(rt, path)?;
    expect_same(seen, &file)?;
    Ok(file)
}

// The file, once what a read of it gives outlives a crash.
fn settle(rt: &HostRuntime, path: &str, file: File) -> io::Result<HostFile>
    ensures { IfOk result (λ file. (file_state file).trust ≡ Sound) }
{
    let place = Place::new(rt, path, &file)?;
    let synced = SyncedFile::new(rt, path)?;
    file.sync_all()?;
    forget_copies(&file)?;
    let folder = fs::open(rt, folder_of(path))?;
    folder.sync_all()?;
    // Before the lock the path may have been redirected: to a file that has replaced this one, or
    // through a link, so that this file is in another folder than the one that is synced.
    if place.length().is_none() {
        return Err(ErrorKind::NotFound.into());
    }
    Ok(HostFile::new(rt.alloc(), file, place, synced))
}

// A sync that failed before may have left the system's copies of the bytes different from those on
// the disk: they are read again.
fn forget_copies(file: &File) -> io::Result<()> {
    let advised = libc::posix_fadvise(file.as_raw_fd(), 0, 0, libc::POSIX_FADV_DONTNEED);
    if advised == 0 {
        Ok(())
    } else {
        Err(io::Error::from_raw_os_error(advised))
    }
}

// The folder that holds the file of this path.
fn folder_of(path: &str) -> &str {
    match Path::new(path).parent() {
        Some(folder) => {
            let folder = folder.as_str();
            if folder.is_empty() { "." } else { folder }
        }
        None => ".",
    }
}
