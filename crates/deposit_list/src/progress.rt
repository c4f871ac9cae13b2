//! Progress on standard error.

use crate::watch::Watch;
use std::alloc::AllocError;
use std::time::{Duration, Instant};

/// How many milliseconds a line stays as it is.
const PAUSE: u64 = 1000;

/// Clears a line: goes back to its beginning, and clears everything after that.
const CLEAR: &str = "\r\x1b[K";

/// One line of a terminal, which is renewed at most once a second, and cleared at the end: how many
/// deposits are done, out of how many, and how long the rest takes. A line that can't be made or
/// written is left out, and so is each if the clock can't be read.
#[derive(Drop)]
pub(crate) struct Progress<'a> {
    rt: &'a HostRuntime,
    /// When it began, if it is said and the clock can be read.
    start: Option<Instant>,
    /// When the line was renewed, if it was.
    renewed: Option<Instant>,
}

impl<'a> Progress<'a> {
    /// Progress that is said, or that isn't.
    pub(crate) fn new(rt: &'a HostRuntime, is_said: bool) -> Progress<'a> {
        let start = if is_said { Instant::now(rt).ok() } else { None };
        Progress {
            rt,
            start,
            renewed: None,
        }
    }

    // Whether the line has stayed for a second.
    fn is_due(&self) -> bool {
        let Some(since) = self.renewed.or(self.start) else {
            return false;
        };
        match since.elapsed(self.rt) {
            Ok(passed) => passed >= Duration::from_millis(PAUSE),
            Err(_) => false,
        }
    }

    fn line(&self, done: usize, all: usize) -> Result<String, AllocError> {
        let mut line = String::new(self.rt.alloc());
        line.push_str(CLEAR)?;
        let percent = done.saturating_mul(100).checked_div(all).unwrap_or(100);
        write!(line, "{done} of {all} deposits, {percent} %")?;
        if let Some(left) = self.seconds_left(done, all) {
            write!(line, ", {left} s left")?;
        }
        Ok(line)
    }

    // How long the rest takes if it goes on like this.
    fn seconds_left(&self, done: usize, all: usize) -> Option<u64> {
        let start = self.start?;
        let Ok(passed) = start.elapsed(self.rt) else {
            return None;
        };
        let rest = all.saturating_sub(done) as u64;
        passed
            .as_secs()
            .saturating_mul(rest)
            .checked_div(done as u64)
    }
}

impl Watch for Progress<'_> {
    fn done(&mut self, done: usize, all: usize) {
        if !self.is_due() {
            return;
        }
        self.renewed = Instant::now(self.rt).ok();
        if let Ok(line) = self.line(done, all) {
            let _ = self.rt.eprint(line.as_str());
        }
    }

    fn end(&mut self) {
        if self.renewed.is_some() {
            let _ = self.rt.eprint(CLEAR);
        }
    }
}
