//! An output whose lines become lines of JSON.

ghost use Rattle.std.specs.Prelude.{ℕ, List, Option};
ghost use Rattle.json_lines.specs.Lines.{plain_contents};

use crate::printed_bytes::take_printed;
use std::alloc::Global;
use std::io::{Result, Write};

/// An output that has a line of JSON for each line that is printed, where that is asked for.
/// Otherwise it is the output.
#[derive(Drop)]
pub struct JsonLines<W> {
    output: W,
    lines: Option<Lines>,
}

/// The beginning of a line that isn't ended.
#[derive(Drop)]
struct Lines {
    alloc: Global,
    begun: Vec<u8>,
}

impl<W: Write> JsonLines<W> {
    /// This output, with lines of JSON if they are asked for.
    pub fn new(alloc: Global, asked: bool, output: W) -> JsonLines<W> {
        let lines = if asked {
            Some(Lines {
                alloc,
                begun: Vec::new(alloc),
            })
        } else {
            None
        };
        JsonLines { output, lines }
    }
}

impl<W: Write> Write for JsonLines<W> {
    ghost contents = { λ o. plain_contents o.lines (W.contents o.output) };

    fn write(&mut self, buf: &[u8]) -> Result<usize> {
        match &mut self.lines {
            Some(lines) => take_printed(lines.alloc, &mut lines.begun, buf, &mut self.output),
            None => self.output.write(buf),
        }
    }

    fn flush(&mut self) -> Result<()> {
        self.output.flush()
    }
}
