//! Progress lines of a check of many folders: which of them is read, and how far it is.

use crate::progress::Saying;
use bag_folders::Watcher;
use outcomes::write_all;
use std::alloc::{AllocError, Global};
use std::io::Write;
use std::time::{Clock, Duration, Instant};

/// How many bytes and files there are between two looks at the clock.
const LOOK_BYTES: u64 = 1_048_576;

const LOOK_FILES: u64 = 32;

/// How many milliseconds there are between two lines, at least.
const PAUSE: u64 = 1000;

/// Clears a line: goes back to its beginning, and clears everything after that.
const CLEAR: &str = "\r\x1b[K";

/// Which of how many folders is read, and what was said of it.
#[derive(Clone, Copy, Debug)]
pub struct Tally {
    /// From 1 on; 0 before the first.
    pub folder: u64,
    pub folders: u64,
    pub saying: Saying,
    /// Whether the line of a terminal stays from one folder to the next, since nothing else is
    /// written there.
    pub stays: bool,
    /// When the check began, if the clock can be read.
    pub start: Option<Instant>,
    /// When a line was written, if one was.
    pub said: Option<Instant>,
    /// Whether the line of a terminal is there.
    pub is_shown: bool,
}

/// A watcher that writes lines on one of many folders: at most one a second. A line that can't be
/// made or written is left out, and so is each if the clock can't be read.
#[derive(Drop)]
pub struct TalliedProgress<C: Clock + Drop, W: Write + Drop> {
    alloc: Global,
    clock: C,
    output: W,
    tally: Tally,
    are_listed: bool,
    /// When the folder's files were listed, if the clock can be read.
    listed: Option<Instant>,
    files: u64,
    bytes: u64,
    files_done: u64,
    bytes_done: u64,
    /// At how many bytes and files the next look at the clock is due.
    next_bytes: u64,
    next_files: u64,
}

impl<C: Clock + Drop, W: Write + Drop> TalliedProgress<C, W> {
    pub fn new(alloc: Global, clock: C, output: W, tally: Tally) -> TalliedProgress<C, W> {
        TalliedProgress {
            alloc,
            clock,
            output,
            tally,
            are_listed: false,
            listed: None,
            files: 0,
            bytes: 0,
            files_done: 0,
            bytes_done: 0,
            next_bytes: 0,
            next_files: 0,
        }
    }

    /// Which folder it is, and what was said of it.
    pub fn tally(&self) -> Tally {
        self.tally
    }

    /// How many bytes the folder's files have, if they were listed.
    pub fn bytes(&self) -> Option<u64> {
        if self.are_listed {
            Some(self.bytes)
        } else {
            None
        }
    }

    /// What the lines are written to.
    pub fn output(&self) -> &W {
        &self.output
    }

    // Writes a line where one is due, and puts off the next look.
    fn look(&mut self) {
        self.next_bytes = self.bytes_done.saturating_add(LOOK_BYTES);
        self.next_files = self.files_done.saturating_add(LOOK_FILES);
        if self.tally.saying == Saying::Never || !self.is_due() {
            return;
        }
        self.tally.said = Instant::now(&self.clock).ok();
        if let Ok(line) = self.line() {
            self.say(line.as_str());
        }
    }

    // Whether a second has passed since the last line, or since the check began. The line of a
    // terminal that was taken back for the line of a folder comes again at once.
    fn is_due(&self) -> bool {
        if self.tally.saying == Saying::Line && self.tally.said.is_some() && !self.tally.is_shown {
            return true;
        }
        let Some(since) = self.tally.said.or(self.tally.start) else {
            return false;
        };
        match since.elapsed(&self.clock) {
            Ok(passed) => passed >= Duration::from_millis(PAUSE),
            Err(_) => false,
        }
    }

    fn say(&mut self, line: &str) {
        if self.tally.saying == Saying::Line {
            self.write(CLEAR);
            self.write(line.trim_end());
            self.tally.is_shown = true;
        } else {
            self.write(line);
        }
    }

    fn write(&mut self, text: &str) {
        let _ = write_all(&mut self.output, text.as_bytes());
    }

    // Takes back the line of a terminal, unless it stays.
    fn end(&mut self) {
        if self.tally.is_shown && !self.tally.stays {
            self.write(CLEAR);
            self.tally.is_shown = false;
        }
    }

    fn line(&self) -> Result<String, AllocError> {
        let mut line = String::new(self.alloc);
        let (folder, folders, percent) = (self.tally.folder, self.tally.folders, self.percent());
        write!(line, "bag {folder} of {folders}, {percent} %")?;
        if let Some(left) = self.seconds_left() {
            line.push_str(", ")?;
            push_time(&mut line, left)?;
            line.push_str(" left")?;
        }
        let (done, all) = (self.files_done, self.files);
        write!(line, ": {done} of {all} files, ")?;
        let (done, all) = (self.bytes_done, self.bytes);
        write!(line, "{done} of {all} bytes")?;
        if let Some(rate) = self.rate() {
            write!(line, ", {rate} MB/s")?;
        }
        line.push('\n')?;
        Ok(line)
    }

    // How much of all folders is done, each of them counting as much as any other.
    fn thousandths(&self) -> u64 {
        let part = self
            .bytes_done
            .saturating_mul(1000)
            .checked_div(self.bytes)
            .unwrap_or(0);
        let before = self.tally.folder.saturating_sub(1);
        before.saturating_mul(1000).saturating_add(part.min(1000))
    }

    fn percent(&self) -> u64 {
        let all = self.tally.folders.saturating_mul(10);
        self.thousandths().checked_div(all).unwrap_or(0)
    }

    // How long the rest takes if it goes on like this.
    fn seconds_left(&self) -> Option<u64> {
        let start = self.tally.start?;
        let Ok(passed) = start.elapsed(&self.clock) else {
            return None;
        };
        let done = self.thousandths();
        let rest = self.tally.folders.saturating_mul(1000).saturating_sub(done);
        let passed = u64::try_from(passed.as_millis()).ok()?;
        let left = passed.checked_mul(rest)?.checked_div(done)?;
        Some(left / 1000)
    }

    // Megabytes a second since the files were listed.
    fn rate(&self) -> Option<u64> {
        let listed = self.listed?;
        let Ok(passed) = listed.elapsed(&self.clock) else {
            return None;
        };
        u64::try_from(passed.as_micros())
            .ok()
            .and_then(|micros| self.bytes_done.checked_div(micros))
    }
}

// A time as `40 s`, `5 min` or `3 h 20 min`.
fn push_time(text: &mut String, seconds: u64) -> Result<(), AllocError> {
    let (minutes, hours) = (seconds / 60, seconds / 3600);
    if minutes == 0 {
        write!(text, "{seconds} s")
    } else if hours == 0 {
        write!(text, "{minutes} min")
    } else {
        let minutes = minutes % 60;
        write!(text, "{hours} h {minutes} min")
    }
}

impl<C: Clock + Drop, W: Write + Drop> Watcher for TalliedProgress<C, W> {
    fn listed(&mut self, files: u64, bytes: u64) {
        self.are_listed = true;
        self.listed = Instant::now(&self.clock).ok();
        self.files = files;
        self.bytes = bytes;
        self.files_done = 0;
        self.bytes_done = 0;
        self.look();
        if files == 0 {
            self.end();
        }
    }

    fn hashed(&mut self, bytes: u64) {
        self.bytes_done = self.bytes_done.saturating_add(bytes);
        if self.bytes_done >= self.next_bytes {
            self.look();
        }
    }

    fn file_done(&mut self) {
        self.files_done = self.files_done.saturating_add(1);
        if self.files_done == self.files {
            self.end();
        } else if self.files_done >= self.next_files {
            self.look();
        }
    }
}
