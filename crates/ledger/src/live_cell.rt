//! The file of a cell, read while its site may change it.

ghost use Rattle.std.specs.Prelude.{◌≤◌, length, IfOk};

use crate::open_pipe::{is_open_pipe, path_to_open};
use std::fs;
use std::fs::{File, Files};
use std::io::{ErrorKind, Read, Result, Seek, SeekFrom};
use std::os::unix::fs::MetadataExt;

/// A site changes only the end of its cell: it cuts off a record that a crash has left in part, or a
/// batch whose sync has failed, and appends others in its place. A batch has fewer bytes: at most 64
/// records, of at most 285 bytes each.
const CHANGING: usize = 18_432;

/// How often the end is read until nothing has changed meanwhile; then it is taken as it came.
const MOST_LOOKS: u32 = 100;

/// The file of a cell, opened for reading alone, whose end is read at one moment.
///
/// Suppose that a reader is held up in a record that was cut short, as by a pager, and goes on when
/// the site has put another in its place. It would take bytes of both for one record, and call an
/// intact cell damaged. So it first reads the bytes that have `CHANGING` others after them, which
/// no site changes. Then it reads all others at once, between two looks that find the file the
/// same. What is appended after that isn't given.
///
/// The bytes may also come through a pipe. They are then given as they come, to their end.
#[derive(Drop)]
pub struct LiveCell {
    file: File,
    is_pipe: bool,
    /// How many bytes were given before the end.
    place: u64,
    end: End,
}

/// The last bytes of a cell.
#[derive(Clone, Copy)]
struct End {
    is_read: bool,
    bytes: [u8; CHANGING],
    /// How many of them there are.
    count: usize,
    /// How many of these were given.
    given: usize,
}

/// What shows that a file has changed.
#[derive(Clone, Copy, PartialEq, Eq)]
struct Look {
    length: u64,
    modified: (i64, i64),
    changed: (i64, i64),
}

impl LiveCell {
    /// Opens the cell in the file of this path, or that comes through a pipe which this process was
    /// given open; `-` is standard input. Anything else, such as a folder or a pipe with a name, is
    /// `InvalidInput`, before it is opened: opening a pipe with a name would wait.
    pub fn open(rt: &HostRuntime, path: &str) -> Result<LiveCell> {
        let path = path_to_open(path);
        let is_pipe = is_open_pipe(rt, path);
        if !is_pipe && !fs::metadata(rt, path)?.is_file() {
            return Err(ErrorKind::InvalidInput.into());
        }
        Ok(LiveCell {
            file: File::open(rt, path)?,
            is_pipe,
            place: 0,
            end: End {
                is_read: false,
                bytes: [0; CHANGING],
                count: 0,
                given: 0,
            },
        })
    }

    /// The file itself, as for its lock.
    pub fn file(&self) -> &File {
        &self.file
    }

    /// Whether the bytes come through a pipe. It has no lock, and can't be synced.
    pub fn is_pipe(&self) -> bool {
        self.is_pipe
    }

    // Reads bytes that no site changes, from a file of this length; none, if the end comes next.
    fn read_unchanging(&mut self, whole: u64, buf: &mut [u8]) -> Result<usize>
        ensures { IfOk result (λ count. count ≤ length buf.new) }
    {
        let rest = whole
            .saturating_sub(self.place)
            .saturating_sub(CHANGING as u64);
        let wanted = usize::try_from(rest).unwrap_or(usize::MAX).min(buf.len());
        if wanted == 0 {
            return Ok(0);
        }
        self.file.seek(SeekFrom::Start(self.place))?;
        let count = self.file.read(&mut buf[..wanted])?;
        self.place = self.place.saturating_add(count as u64);
        Ok(count)
    }

    // Reads bytes that no site changes; or else the end, and gives none.
    fn read_on(&mut self, buf: &mut [u8]) -> Result<usize>
        ensures { IfOk result (λ count. count ≤ length buf.new) }
    {
        for _ in 0..MOST_LOOKS {
            let before = look_at(&self.file)?;
            let count = self.read_unchanging(before.length, buf)?;
            if count > 0 {
                return Ok(count);
            }
            self.file.seek(SeekFrom::Start(self.place))?;
            self.end.fill(&mut self.file)?;
            if look_at(&self.file)? == before {
                break;
            }
        }
        self.end.is_read = true;
        Ok(0)
    }
}

impl End {
    // Reads the bytes that the file has at its place.
    fn fill(&mut self, file: &mut File) -> Result<()> {
        self.count = 0;
        for _ in 0..=CHANGING {
            let room = self.bytes.get_mut(self.count..).unwrap_or(&mut []);
            let more = file.read(room)?;
            if more == 0 {
                return Ok(());
            }
            self.count = self.count.saturating_add(more);
        }
        Ok(())
    }

    // Gives the next of its bytes.
    fn give(&mut self, buf: &mut [u8]) -> usize
        ensures { result ≤ length buf.new }
    {
        let rest = self.bytes.get(self.given..self.count).unwrap_or(&[]);
        let count = rest.len().min(buf.len());
        buf[..count].copy_from_slice(&rest[..count]);
        self.given = self.given.saturating_add(count);
        count
    }
}

impl Read for LiveCell {
    fn read(&mut self, buf: &mut [u8]) -> Result<usize> {
        if buf.is_empty() {
            return Ok(0);
        }
        if self.is_pipe {
            return self.file.read(buf);
        }
        if !self.end.is_read {
            let count = self.read_on(buf)?;
            if count > 0 {
                return Ok(count);
            }
        }
        Ok(self.end.give(buf))
    }
}

fn look_at(file: &File) -> Result<Look> {
    let about = file.metadata()?;
    Ok(Look {
        length: about.len(),
        modified: (about.mtime(), about.mtime_nsec()),
        changed: (about.ctime(), about.ctime_nsec()),
    })
}
