//! Cells in their files.

ghost use Rattle.std.specs.Prelude.{◌≡◌, ◌≢◌, ◌≤◌, ◌-◌, length, min, Some, None, Ok, IsErr, IfOk};
ghost use Rattle.std.specs.Prelude.{IfErr, IfSome};
ghost use Rattle.std.specs.IoError.{error_kind};

use crate::cell_files::CellFiles;
use crate::cell_words::{say_opened, say_synced};
use cell_file::synced_length;
use ledger::LiveCell;
use std::alloc::AllocError;
use std::fs::{File, TryLockError};
use std::hash::RandomState;
use std::io::{self, ErrorKind, Read};
use std::os::fd::AsRawFd;

/// The files of the disk, each opened for reading alone. No contract says what they have.
#[derive(Clone, Copy)]
pub(crate) struct DiskCells<'a> {
    pub(crate) rt: &'a HostRuntime,
    /// Whether standard error says of each cell how it was opened.
    pub(crate) words: bool,
    pub(crate) hashing: RandomState,
}

/// A cell's file that was opened, as far as it was read.
#[derive(Drop)]
pub(crate) struct AuditedCell {
    bytes: LiveCell,
    /// Whether a site holds its lock, or may: nobody knows it of what comes through a pipe. Where
    /// none does, this file holds it, shared: no site can open the cell until it is dropped.
    pub(crate) in_use: bool,
    /// How many of its first bytes are synced, if its site says so.
    synced: Option<u64>,
    /// At most this many more bytes are read.
    unread: u64,
}

impl AuditedCell {
    /// Whether its bytes come through a pipe.
    pub(crate) fn is_pipe(&self) -> bool {
        self.bytes.is_pipe()
    }
}

impl CellFiles for DiskCells<'_> {
    type Cell = AuditedCell;

    fn hashing(&self) -> RandomState
        ensures { result ≡ self.now.hashing }
    {
        self.hashing
    }

    fn open(&self, path: &str) -> Result<Option<AuditedCell>, AllocError> {
        let opened = open_cell(self.rt, path);
        if self.words {
            say_opened(self.rt, path, &opened);
        }
        cell_of(opened)
    }

    fn is_in_use(&self, cell: &AuditedCell) -> bool
        ensures { result ≡ cell.now.in_use }
    {
        cell.in_use
    }

    fn synced(&self, cell: &AuditedCell) -> Option<u64>
        ensures { result ≡ cell.now.synced }
    {
        cell.synced
    }

    fn sync(&self, cell: &AuditedCell, path: &str) -> bool {
        let synced = settle(cell.bytes.file());
        if self.words {
            say_synced(self.rt, path, &synced);
        }
        synced.is_ok()
    }

    fn read(&self, cell: &mut AuditedCell, piece: &mut [u8]) -> Option<usize>
        ensures bound { IfSome result (λ count. count ≤ length piece.new) }
        ensures room { IfSome result (λ count. count ≤ cell.old.unread) }
        ensures unread { IfSome result (λ count. cell.new.unread ≡ cell.old.unread - count) }
    {
        let room = room_for(cell.unread, piece.len());
        let count = read_some(&mut cell.bytes, &mut piece[..room])?;
        cell.unread = cell.unread.saturating_sub(count as u64);
        Some(count)
    }
}

/// The cell that was opened; none where that can't be done. It fails only where memory ran out.
fn cell_of<C>(opened: io::Result<C>) -> Result<Option<C>, AllocError>
    ensures opened { IfOk opened (λ cell. result ≡ Ok (Some cell)) }
    ensures memory { IfErr opened
        (λ error. error_kind error ≡ ErrorKind.OutOfMemory → IsErr result) }
    ensures unopened { IfErr opened
        (λ error. error_kind error ≢ ErrorKind.OutOfMemory → result ≡ Ok None) }
{
    match opened {
        Ok(cell) => Ok(Some(cell)),
        Err(error) if error.kind() == ErrorKind::OutOfMemory => Err(AllocError),
        Err(_) => Ok(None),
    }
}

/// Opens the file of this path for reading as a cell.
fn open_cell(rt: &HostRuntime, path: &str) -> io::Result<AuditedCell> {
    let bytes = LiveCell::open(rt, path)?;
    if bytes.is_pipe() {
        // It can't be synced, and nobody knows which of its records are: it is taken for a cell
        // in use.
        return Ok(AuditedCell {
            bytes,
            in_use: true,
            synced: None,
            unread: u64::MAX,
        });
    }
    if is_locked(bytes.file())? {
        // What its site says comes first: at least so many of the bytes that are read after that
        // are synced, and none of these is ever cut off.
        let synced = said_of(rt, path)?;
        // By now the site has synced all of these records, except perhaps those of one batch: it
        // syncs before it appends the next. What comes after them isn't read. If the site couldn't
        // sync its batch, it may cut it off and append others in its place; no record counts that
        // may be mixed with those.
        let unread = bytes.file().metadata()?.len();
        return Ok(AuditedCell {
            bytes,
            in_use: true,
            synced,
            unread,
        });
    }
    Ok(AuditedCell {
        bytes,
        in_use: false,
        synced: None,
        unread: u64::MAX,
    })
}

/// How many of the first bytes are synced of the cell of this path, if its site says so. `-` is no
/// path: no file is beside standard input.
fn said_of(rt: &HostRuntime, path: &str) -> io::Result<Option<u64>> {
    if path == "-" {
        return Ok(None);
    }
    Ok(synced_length(rt, path)?)
}

/// Whether a site holds the file's lock. Where none does, this file holds it, shared.
fn is_locked(file: &File) -> io::Result<bool> {
    match file.try_lock_shared() {
        Ok(()) => Ok(false),
        Err(TryLockError::WouldBlock) => Ok(true),
        Err(TryLockError::Error(error)) => Err(error),
    }
}

/// What a read of the file gives is on the disk.
fn settle(file: &File) -> io::Result<()> {
    file.sync_all()?;
    // A sync that failed before may have left the system's copies of the bytes different from those
    // on the disk: they are read again.
    let advised = libc::posix_fadvise(file.as_raw_fd(), 0, 0, libc::POSIX_FADV_DONTNEED);
    if advised == 0 {
        Ok(())
    } else {
        Err(io::Error::from_raw_os_error(advised))
    }
}

/// How many bytes are read at once into a piece of this length.
fn room_for(unread: u64, len: usize) -> usize
    ensures { result ≡ min unread len }
{
    if unread < len as u64 {
        unread as usize
    } else {
        len
    }
}

/// Reads some bytes; none where reading fails. Reads that were interrupted are tried again.
fn read_some(bytes: &mut LiveCell, piece: &mut [u8]) -> Option<usize>
    ensures { IfSome result (λ count. count ≤ length piece.new) }
{
    'reads: for _ in 0..u32::MAX {
        match bytes.read(piece) {
            Ok(count) => return Some(count),
            Err(error) => {
                if error.kind() != ErrorKind::Interrupted {
                    return None;
                }
            }
        }
    }
    None
}
