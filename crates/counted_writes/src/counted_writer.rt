use crate::counted_write::CountedWrite;
use outcomes::{ProgramFault, write_all};
use std::io::Write;

/// A writer whose failures are counted.
#[derive(Drop)]
pub struct CountedWriter<W: Write + Drop> {
    writer: W,
    failures: u64,
}

impl<W: Write + Drop> CountedWriter<W> {
    ghost use Rattle.std.specs.Prelude.{◌≡◌};

    /// This writer, which hasn't failed yet.
    pub fn new(writer: W) -> CountedWriter<W>
        ensures writer { result.writer ≡ writer }
        ensures failures { result.failures ≡ 0 }
    {
        CountedWriter {
            writer,
            failures: 0,
        }
    }
}

impl<W: Write + Drop> CountedWrite for CountedWriter<W> {
    ghost contents = { λ output. W.contents output.writer };

    ghost failures = { λ output. output.failures };

    fn write_whole(&mut self, text: &[u8]) -> Result<(), ProgramFault> {
        match write_all(&mut self.writer, text) {
            Ok(()) => Ok(()),
            Err(_) => {
                self.failures = self.failures.saturating_add(1);
                Err(ProgramFault::Output)
            }
        }
    }
}
