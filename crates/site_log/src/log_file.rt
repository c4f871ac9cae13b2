//! The file of a log.

use code_words::push_name;
use std::alloc::{AllocError, Global};
use std::fs::{File, OpenOptions};
use std::io::{self, ErrorKind, Write};
use std::os::unix::fs::FileExt;
use system_files::{expect_room, expect_same, regular_file_at};

/// How a time of this century begins, each `N` being a digit: a line of a log begins so.
const TIME: &[u8] = b"20NN-NN-NNT";

/// How a line begins whose time wasn't known, of a site that speaks by itself.
const NO_TIME: &[u8] = b"- - ";

/// A file to which lines are appended, as far as that succeeds.
#[derive(Drop)]
pub(crate) struct LogFile {
    /// Its path; empty if there was no memory for it.
    path: String,
    /// None if the file couldn't be opened.
    file: Option<File>,
    /// Whether the file ends in the middle of a line.
    is_cut: bool,
    /// How many lines couldn't be written since the last one that was.
    lost: u32,
}

impl LogFile {
    /// The file of this path, which is created if missing. Where that fails, standard error
    /// says so, and no line is kept.
    pub(crate) fn open(rt: &HostRuntime, path: &str) -> LogFile {
        let (file, is_cut) = match log_at(rt, path) {
            Ok((file, is_cut)) => (Some(file), is_cut),
            Err(error) => {
                say(rt, path, &error);
                (None, false)
            }
        };
        let path = match String::from_str(rt.alloc(), path) {
            Ok(path) => path,
            Err(AllocError) => String::new(rt.alloc()),
        };
        LogFile {
            path,
            file,
            is_cut,
            lost: 0,
        }
    }

    /// How many lines couldn't be written since the last one that was.
    pub(crate) fn lost(&self) -> u32 {
        self.lost
    }

    /// Appends a line, after the end of the one before if that was cut. Where that fails, the line
    /// is lost, and standard error says so of the first.
    pub(crate) fn append(&mut self, rt: &HostRuntime, line: &str) {
        let Some(file) = &mut self.file else {
            return;
        };
        match write_line(file, self.is_cut, line) {
            Ok(()) => {
                self.is_cut = false;
                self.lost = 0;
            }
            Err(error) => {
                if self.lost == 0 {
                    say(rt, self.path.as_str(), &error);
                }
                self.is_cut = is_cut_at(rt, self.path.as_str());
                self.lost = self.lost.saturating_add(1);
            }
        }
    }
}

// The file of this path, which is new or a log, and whether it ends in the middle of a line.
fn log_at(rt: &HostRuntime, path: &str) -> io::Result<(File, bool)> {
    let is_cut = match old_file(rt, path)? {
        Some(file) => {
            expect_log(&file)?;
            is_cut(&file)
        }
        None => false,
    };
    Ok((appending(rt, path)?, is_cut))
}

// The file of this path, which is a regular one: a pipe's open would wait for its reader.
fn appending(rt: &HostRuntime, path: &str) -> io::Result<File> {
    let seen = regular_file_at(rt, path)?;
    let file = OpenOptions::new().append(true).create(true).open(rt, path)?;
    expect_same(seen, &file)?;
    Ok(file)
}

// The file of this path, to be read; none if none is there.
fn old_file(rt: &HostRuntime, path: &str) -> io::Result<Option<File>> {
    let seen = regular_file_at(rt, path)?;
    if seen.is_none() {
        return Ok(None);
    }
    let file = File::open(rt, path)?;
    expect_same(seen, &file)?;
    Ok(Some(file))
}

// If a file is there, it is empty or begins as a log does: lines that are appended to a cell or a
// key file would destroy it.
fn expect_log(file: &File) -> io::Result<()> {
    let mut front = [0u8; 11];
    let length = file.metadata()?.len().min(front.len() as u64) as usize;
    file.read_exact_at(&mut front[..length], 0)?;
    if begins_line(&front[..length]) {
        return Ok(());
    }
    Err(ErrorKind::InvalidData.into())
}

// Whether these bytes, of which a full disk may have kept a few alone, are how a line begins.
fn begins_line(front: &[u8]) -> bool {
    let has_time = front.iter().zip(TIME).all(|(byte, form)| byte == form
        || (*form == b'N' && byte.is_ascii_digit()));
    has_time || front.starts_with(NO_TIME)
}

fn write_line(file: &mut File, is_cut: bool, line: &str) -> io::Result<()> {
    expect_room(file, line.len() as u64 + 1)?;
    if is_cut {
        file.write_all(b"\n")?;
    }
    file.write_all(line.as_bytes())
}

// Whether the file of this path ends in the middle of a line. One that can't be read counts as
// whole.
fn is_cut_at(rt: &HostRuntime, path: &str) -> bool {
    match old_file(rt, path) {
        Ok(Some(file)) => is_cut(&file),
        _ => false,
    }
}

fn is_cut(file: &File) -> bool {
    let mut last = [b'\n'];
    if let Ok(about) = file.metadata() {
        if about.len() > 0 {
            let _ = file.read_exact_at(&mut last, about.len() - 1);
        }
    }
    last[0] != b'\n'
}

// Says why the log of this path can't be written. Where standard error can't be written either, or
// there is no memory for the words, nobody is told.
fn say(rt: &HostRuntime, path: &str, error: &io::Error) {
    let mut text = String::new(rt.alloc());
    if push_reason(&mut text, path, error).is_ok() {
        let _ = rt.eprintln(text.as_str());
    }
}

fn push_reason(text: &mut String, path: &str, error: &io::Error) -> Result<(), AllocError> {
    text.push_str("bagpaxos: the log can't be written, and the site goes on: ")?;
    push_name(text, path)?;
    match error.kind() {
        ErrorKind::InvalidInput => text.push_str(" isn't a file"),
        ErrorKind::InvalidData => text.push_str(" is there and is no log; give another path"),
        ErrorKind::StorageFull => text.push_str(": the disk is full"),
        _ => write!(text, ": {error}"),
    }
}
