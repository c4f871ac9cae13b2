//! The key file that the arguments name.

use crate::stop::Stop;
use key_file::{KeyFault, read_keys};
use outcomes::{ReadFault, read_within};
use std::fs::File;
use std::io::{self, ErrorKind};
use std::os::unix::fs::PermissionsExt;
use system_files::{expect_same, regular_file_at};
use tags::KeyRing;

/// How many times a key file is read at most, up to 8192 bytes each time.
const MOST_READS: u32 = 4;

/// The rights of all but a file's owner.
const OTHERS: u32 = 0o077;

/// The keys in the file of this path, if one is named.
pub fn keys_for(rt: &HostRuntime, path: Option<&str>) -> Result<Option<KeyRing>, Stop> {
    match path {
        Some(path) => Ok(Some(keys_at(rt, path)?)),
        None => Ok(None),
    }
}

/// The keys of a site, which needs one of messages between sites.
pub fn site_keys_for(rt: &HostRuntime, path: Option<&str>) -> Result<Option<KeyRing>, Stop> {
    let keys = keys_for(rt, path)?;
    if lacks_sites(&keys) {
        return Err(Stop::KeyLacksSites);
    }
    Ok(keys)
}

// Whether there are keys, and none of messages between sites.
fn lacks_sites(keys: &Option<KeyRing>) -> bool {
    match keys {
        Some(keys) => keys.sites().is_empty(),
        None => false,
    }
}

/// The keys in the file of this path, which has to be its owner's alone.
pub fn keys_at(rt: &HostRuntime, path: &str) -> Result<KeyRing, Stop> {
    match closed_file_at(rt, path) {
        Ok(Some(mut file)) => keys_in(rt, &mut file),
        Ok(None) => Err(Stop::KeyOpenToOthers),
        Err(error) if error.kind() == ErrorKind::OutOfMemory => Err(Stop::Memory),
        Err(_) => Err(Stop::KeyUnread),
    }
}

// The file of this path, if nobody but its owner has a right to it. It is a regular one: a pipe's
// open would wait.
fn closed_file_at(rt: &HostRuntime, path: &str) -> io::Result<Option<File>> {
    let seen = regular_file_at(rt, path)?;
    let file = File::open(rt, path)?;
    expect_same(seen, &file)?;
    if file.metadata()?.permissions().mode() & OTHERS == 0 {
        Ok(Some(file))
    } else {
        Ok(None)
    }
}

fn keys_in(rt: &HostRuntime, file: &mut File) -> Result<KeyRing, Stop> {
    match read_within(rt.alloc(), file, MOST_READS) {
        Ok(text) => keys_of(rt, text.as_slice()),
        Err(ReadFault::Input) => Err(Stop::KeyUnread),
        Err(ReadFault::Memory) => Err(Stop::Memory),
    }
}

fn keys_of(rt: &HostRuntime, text: &[u8]) -> Result<KeyRing, Stop> {
    match read_keys(rt.alloc(), text) {
        Ok(keys) => Ok(keys),
        Err(KeyFault::Line(line)) => Err(Stop::KeyLine(line)),
        Err(KeyFault::Memory) => Err(Stop::Memory),
    }
}
