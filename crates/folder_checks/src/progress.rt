//! Progress lines of a check.

use bag_folders::Watcher;
use outcomes::write_all;
use std::alloc::{AllocError, Global};
use std::io::Write;
use std::time::{Clock, Duration, Instant};

/// How many bytes are hashed between two lines, and how many files.
const STEP_BYTES: u64 = 67_108_864;

const STEP_FILES: u64 = 1000;

/// How many there are between two looks at the clock, after which a line is renewed.
const LOOK_BYTES: u64 = 1_048_576;

const LOOK_FILES: u64 = 32;

/// How many milliseconds a line stays as it is.
const PAUSE: u64 = 1000;

/// Clears a line: goes back to its beginning, and clears everything after that.
const CLEAR: &str = "\r\x1b[K";

/// When words are said.
#[derive(Clone, Copy, Debug, PartialEq, Eq)]
pub enum Saying {
    /// Never.
    Never,
    /// In one line of a terminal, which is renewed at most once a second, and cleared at the end.
    Line,
    /// After each step, and at the end.
    All,
}

/// A watcher that writes lines: how many files and bytes are done, out of how many, and megabytes a
/// second, if the clock can be read. A line that can't be made or written is left out.
#[derive(Drop)]
pub struct Progress<C: Clock + Drop, W: Write + Drop> {
    alloc: Global,
    clock: C,
    output: W,
    saying: Saying,
    start: Option<Instant>,
    /// When the line of a terminal was renewed, if it was.
    renewed: Option<Instant>,
    files: u64,
    bytes: u64,
    files_done: u64,
    bytes_done: u64,
    /// At how many bytes and files the next line is due.
    next_bytes: u64,
    next_files: u64,
}

impl<C: Clock + Drop, W: Write + Drop> Progress<C, W> {
    pub fn new(alloc: Global, clock: C, output: W, saying: Saying) -> Progress<C, W> {
        Progress {
            alloc,
            clock,
            output,
            saying,
            start: None,
            renewed: None,
            files: 0,
            bytes: 0,
            files_done: 0,
            bytes_done: 0,
            next_bytes: 0,
            next_files: 0,
        }
    }

    /// What the lines are written to.
    pub fn output(&self) -> &W {
        &self.output
    }

    // Writes a line where one is due, and puts off the next.
    fn step(&mut self) {
        match self.saying {
            Saying::Never => {}
            Saying::All => self.say(),
            Saying::Line => self.renew(),
        }
        self.put_off();
    }

    fn put_off(&mut self) {
        let (bytes, files) = match self.saying {
            Saying::Line => (LOOK_BYTES, LOOK_FILES),
            Saying::Never | Saying::All => (STEP_BYTES, STEP_FILES),
        };
        self.next_bytes = self.bytes_done.saturating_add(bytes);
        self.next_files = self.files_done.saturating_add(files);
    }

    // Writes the line of a terminal anew, where it has stayed for a second.
    fn renew(&mut self) {
        let Some(since) = self.renewed.or(self.start) else {
            return;
        };
        match since.elapsed(&self.clock) {
            Ok(passed) if passed >= Duration::from_millis(PAUSE) => {}
            _ => return,
        }
        self.renewed = Instant::now(&self.clock).ok();
        if let Ok(line) = self.line() {
            self.write(CLEAR);
            self.write(line.as_str().trim_end());
        }
    }

    fn write(&mut self, text: &str) {
        let _ = write_all(&mut self.output, text.as_bytes());
    }

    // Clears the line of a terminal, if it is there; or says that all files are done.
    fn end(&mut self) {
        if self.saying == Saying::All {
            self.say();
        } else if self.renewed.is_some() {
            self.write(CLEAR);
        }
    }

    fn say(&mut self) {
        if let Ok(line) = self.line() {
            let _ = write_all(&mut self.output, line.as_bytes());
        }
    }

    fn line(&self) -> Result<String, AllocError> {
        let mut line = String::new(self.alloc);
        let (done, all) = (self.files_done, self.files);
        write!(line, "{done} of {all} files, ")?;
        let (done, all) = (self.bytes_done, self.bytes);
        write!(line, "{done} of {all} bytes")?;
        if let Some(rate) = self.rate() {
            write!(line, ", {rate} MB/s")?;
        }
        line.push('\n')?;
        Ok(line)
    }

    // Megabytes a second since the first file was opened.
    fn rate(&self) -> Option<u64> {
        let start = self.start?;
        let Ok(passed) = start.elapsed(&self.clock) else {
            return None;
        };
        // As many as megabytes a second.
        u64::try_from(passed.as_micros())
            .ok()
            .and_then(|micros| self.bytes_done.checked_div(micros))
    }
}

impl<C: Clock + Drop, W: Write + Drop> Watcher for Progress<C, W> {
    fn listed(&mut self, files: u64, bytes: u64) {
        if self.saying == Saying::Never {
            return;
        }
        self.start = Instant::now(&self.clock).ok();
        self.renewed = None;
        self.files = files;
        self.bytes = bytes;
        self.files_done = 0;
        self.bytes_done = 0;
        self.put_off();
        if files == 0 {
            self.end();
        }
    }

    fn hashed(&mut self, bytes: u64) {
        self.bytes_done = self.bytes_done.saturating_add(bytes);
        if self.bytes_done >= self.next_bytes && self.saying != Saying::Never {
            self.step();
        }
    }

    fn file_done(&mut self) {
        self.files_done = self.files_done.saturating_add(1);
        if self.files_done == self.files {
            self.end();
        } else if self.files_done >= self.next_files && self.saying != Saying::Never {
            self.step();
        }
    }
}
