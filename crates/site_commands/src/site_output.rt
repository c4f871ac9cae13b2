//! Standard output as a site writes it.

ghost use Rattle.std.specs.Io.{WritesAtMost};
ghost use Rattle.std.specs.Prelude.{◌≤◌, length};

use site_log::SiteLog;
use std::io::{self, Result, Write};
use system_files::{expect_room_in_output, takes_now};

/// The most bytes of a write that doesn't wait where the system says so.
const MOST_AT_ONCE: usize = 4096;

/// Standard output. With a log a line for which it would have to wait is left out, and counted in
/// the log: a reader that stands still doesn't stop the site. It may also be asked to write
/// nothing.
#[derive(Drop)]
pub(crate) struct SiteOutput<'r, 'l, 's> {
    rt: &'r HostRuntime,
    is_quiet: bool,
    log: Option<&'l SiteLog<'s>>,
}

impl<'r, 'l, 's> SiteOutput<'r, 'l, 's> {
    /// Standard output, with this log, if there is one.
    pub(crate) fn new(
        rt: &'r HostRuntime,
        is_quiet: bool,
        log: Option<&'l SiteLog<'s>>,
    ) -> SiteOutput<'r, 'l, 's> {
        SiteOutput { rt, is_quiet, log }
    }

    // Writes a part, if that is without waiting; otherwise its lines are left out.
    fn write_now(&mut self, log: &SiteLog<'_>, buf: &[u8]) -> Result<usize>
        ensures { WritesAtMost result buf.now }
    {
        let part = whole_lines(buf);
        if takes_now(libc::STDOUT_FILENO) {
            return io::writer(self.rt).write(part);
        }
        let lines = part.iter().filter(|byte| **byte == b'\n').count();
        log.blocked(u32::try_from(lines).unwrap_or(u32::MAX));
        Ok(part.len())
    }
}

// The whole lines among the bytes that are written at once: so that none is left out in part. If no
// line ends there, these are all of them.
fn whole_lines(buf: &[u8]) -> &[u8]
    ensures { length result.now ≤ length buf.now }
{
    let front = &buf[..buf.len().min(MOST_AT_ONCE)];
    let rest = front.iter().rev().position(|byte| *byte == b'\n');
    &front[..front.len().saturating_sub(rest.unwrap_or(0))]
}

impl Write for SiteOutput<'_, '_, '_> {
    fn write(&mut self, buf: &[u8]) -> Result<usize> {
        if self.is_quiet {
            return Ok(buf.len());
        }
        expect_room_in_output(self.rt, buf.len() as u64)?;
        match self.log {
            Some(log) => self.write_now(log, buf),
            None => io::writer(self.rt).write(buf),
        }
    }

    fn flush(&mut self) -> Result<()> {
        Ok(())
    }
}
