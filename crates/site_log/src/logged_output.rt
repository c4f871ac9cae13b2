//! An output whose lines are noted.

use crate::site_log::SiteLog;
use std::io::{ErrorKind, Result, Write};

/// An output that tells the log what was written, and of a line that couldn't be what it is: it may
/// say why the site ends. Otherwise it delegates to it.
#[derive(Drop)]
pub struct LoggedOutput<'a, W> {
    log: &'a SiteLog<'a>,
    output: W,
}

impl<'a, W: Write> LoggedOutput<'a, W> {
    /// This output, with this log.
    pub fn new(log: &'a SiteLog<'a>, output: W) -> LoggedOutput<'a, W> {
        LoggedOutput { log, output }
    }
}

impl<W: Write> Write for LoggedOutput<'_, W> {
    ghost contents = { λ o. W.contents o.output };

    fn write(&mut self, buf: &[u8]) -> Result<usize> {
        match self.output.write(buf) {
            Ok(count) => {
                self.log.wrote(&buf[..count]);
                Ok(count)
            }
            Err(error) => {
                if error.kind() != ErrorKind::Interrupted {
                    self.log.wrote(buf);
                }
                Err(error)
            }
        }
    }

    fn flush(&mut self) -> Result<()> {
        self.output.flush()
    }
}
