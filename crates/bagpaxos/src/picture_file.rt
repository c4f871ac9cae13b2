//! The file of a picture, which has the whole picture or what it had before.

use std::alloc::{AllocError, Global};
use std::fs::{self, File, OpenOptions, Permissions};
use std::io::{self, ErrorKind, Write};

/// The most names that are tried for the new file. A run that was killed leaves one.
const MOST_NAMES: u32 = 100;

/// Why a picture wasn't written.
#[derive(Debug, Drop)]
pub(crate) struct PictureFault {
    pub(crate) error: io::Error,
    /// There is an older file, as it was.
    pub(crate) is_old_kept: bool,
}

/// A file beside the one that is to be replaced.
#[derive(Drop)]
struct NewFile {
    name: String,
    file: File,
}

/// Writes a picture to the file of this path. Where a file is there, or nothing, it is written
/// beside that, and then takes its name: if the disk is full, what was there stays. What is no
/// file, as a device or a link, is written as it is, and so is a file in a folder that takes no new
/// one.
pub(crate) fn write_picture(
    rt: &HostRuntime,
    path: &str,
    picture: &str,
) -> Result<Result<(), PictureFault>, AllocError> {
    let old = match fs::symlink_metadata(rt, path) {
        Ok(found) if found.is_file() => Some(found.permissions()),
        Err(error) if error.kind() == ErrorKind::NotFound => None,
        _ => return Ok(in_place(rt, path, picture)),
    };
    let is_old_kept = old.is_some();
    let new = match new_file(rt, path)? {
        Ok(new) => new,
        Err(error) if is_old_kept && error.kind() == ErrorKind::PermissionDenied => {
            return Ok(in_place(rt, path, picture));
        }
        Err(error) => return Ok(Err(PictureFault { error, is_old_kept })),
    };
    match put(rt, path, new, old, picture) {
        Ok(()) => Ok(Ok(())),
        Err(error) => Ok(Err(PictureFault { error, is_old_kept })),
    }
}

// Fills the new file, and gives it the name; or removes it.
fn put(
    rt: &HostRuntime,
    path: &str,
    new: NewFile,
    rights: Option<Permissions>,
    picture: &str,
) -> io::Result<()> {
    let NewFile { name, file } = new;
    let written = match fill(file, rights, picture) {
        Ok(()) => fs::rename(rt, name.as_str(), path),
        Err(error) => Err(error),
    };
    if written.is_err() {
        let _ = fs::remove_file(rt, name.as_str());
    }
    written
}

// Writes the picture, and closes the file. Where the rights of the old one can't be had, it is
// still a picture.
fn fill(file: File, rights: Option<Permissions>, picture: &str) -> io::Result<()> {
    let mut file = file;
    if let Some(rights) = rights {
        let _ = file.set_permissions(rights);
    }
    file.write_all(picture.as_bytes())
}

fn in_place(rt: &HostRuntime, path: &str, picture: &str) -> Result<(), PictureFault> {
    match fs::write(rt, path, picture) {
        Ok(()) => Ok(()),
        Err(error) => Err(PictureFault {
            error,
            is_old_kept: false,
        }),
    }
}

// A new file in the folder of this path, of a name that nothing has.
fn new_file(rt: &HostRuntime, path: &str) -> Result<io::Result<NewFile>, AllocError> {
    for number in 1..MOST_NAMES {
        let name = new_name(rt.alloc(), path, number)?;
        let made = OpenOptions::new()
            .write(true)
            .create_new(true)
            .open(rt, name.as_str());
        match made {
            Ok(file) => return Ok(Ok(NewFile { name, file })),
            Err(error) if error.kind() == ErrorKind::AlreadyExists => {}
            Err(error) => return Ok(Err(error)),
        }
    }
    Ok(Err(io::Error::from(ErrorKind::AlreadyExists)))
}

// `.picture.N` in the folder of this path.
fn new_name(alloc: Global, path: &str, number: u32) -> Result<String, AllocError> {
    match path.rsplit_once('/') {
        Some((folder, _)) => format!(in alloc; "{folder}/.picture.{number}"),
        None => format!(in alloc; ".picture.{number}"),
    }
}
