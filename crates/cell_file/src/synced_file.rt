//! What a site says beside its cell.

use crate::beside::{file_seen_at, path_beside};
use crate::synced_text::{SYNCED_BYTES, put_synced, synced_by};
use std::alloc::AllocError;
use std::fs::{self, File, OpenOptions};
use std::io::{self, ErrorKind};
use std::os::unix::fs::{FileExt, OpenOptionsExt};
use system_files::{FileId, expect_length, expect_same};

/// The file beside a cell that says how many of the cell's first bytes are synced, for whoever
/// audits the cell while its site has it open. It is an advice: if it can't be made or written, the
/// site goes on without it.
///
/// It is believed while its lock is held. So what an earlier site left is worth nothing, and
/// neither is a file that can't be written any more: it is closed, and the lock goes with it. It is
/// written before it is locked, so whoever finds the lock held reads what this site wrote.
#[derive(Drop)]
pub(crate) struct SyncedFile {
    rt: HostRuntime,
    path: String,
    /// The bytes that were written last, or room for them.
    text: Vec<u8>,
    /// The length that it says.
    said: u64,
    /// None before the first length is said, and after a failure.
    file: Option<File>,
    is_locked: bool,
    has_failed: bool,
}

impl SyncedFile {
    /// That of the cell of this path. It is opened once there is a length to say.
    pub fn new(rt: &HostRuntime, path: &str) -> Result<SyncedFile, AllocError> {
        Ok(SyncedFile {
            rt: *rt,
            path: path_beside(rt.alloc(), path)?,
            text: Vec::with_capacity(rt.alloc(), SYNCED_BYTES)?,
            said: 0,
            file: None,
            is_locked: false,
            has_failed: false,
        })
    }

    /// Says that this many bytes are synced of the cell in this file. What is said already isn't
    /// written again.
    pub fn say(&mut self, length: u64, cell: &File) {
        let is_said = length == self.said && (self.is_locked || length == 0);
        if self.has_failed || is_said {
            return;
        }
        self.said = length;
        if self.write(cell).is_err() {
            self.has_failed = true;
            self.file = None;
        }
    }

    /// Says no more than this length, to which the cell in this file is about to be cut.
    pub fn lower(&mut self, length: u64, cell: &File) {
        if length < self.said {
            self.say(length, cell);
        }
    }

    // Writes the length.
    fn write(&mut self, cell: &File) -> io::Result<()> {
        put_synced(&mut self.text, self.said)?;
        let file = match self.file.take() {
            Some(file) => file,
            None => open_beside(&self.rt, self.path.as_str(), cell, &self.text)?,
        };
        file.write_all_at(&self.text, 0)?;
        // If a reader holds the lock for a moment, the next length is the first to be believed.
        if !self.is_locked {
            self.is_locked = file.try_lock().is_ok();
        }
        self.file = Some(file);
        Ok(())
    }
}

// The file beside a cell; if there is none, one with these bytes and with the cell's rights.
fn open_beside(rt: &HostRuntime, path: &str, cell: &File, text: &[u8]) -> io::Result<File> {
    // A write beyond what the process may write would end it by a signal.
    expect_length(SYNCED_BYTES as u64)?;
    match file_seen_at(rt, path)? {
        Some(seen) => reopen(rt, path, seen),
        None => make(rt, path, cell, text),
    }
}

// Opens the file that an earlier site left. Only one that says a length is written to: another one
// of this name may be a cell, a log, or whatever else somebody keeps there.
fn reopen(rt: &HostRuntime, path: &str, seen: FileId) -> io::Result<File> {
    let file = OpenOptions::new().read(true).write(true).open(rt, path)?;
    expect_same(Some(seen), &file)?;
    match synced_by(&file)? {
        Some(_) => Ok(file),
        None => Err(ErrorKind::InvalidInput.into()),
    }
}

fn make(rt: &HostRuntime, path: &str, cell: &File, text: &[u8]) -> io::Result<File> {
    let file = OpenOptions::new()
        .write(true)
        .create_new(true)
        .mode(0o600)
        .open(rt, path)?;
    match begin(&file, cell, text) {
        Ok(()) => Ok(file),
        Err(error) => {
            let _ = fs::remove_file(rt, path);
            Err(error)
        }
    }
}

// Writes the first length, and syncs it this once: an empty file, as a crash may leave one, would
// not be written to any more.
fn begin(file: &File, cell: &File, text: &[u8]) -> io::Result<()> {
    file.write_all_at(text, 0)?;
    file.set_permissions(cell.metadata()?.permissions())?;
    file.sync_all()
}
