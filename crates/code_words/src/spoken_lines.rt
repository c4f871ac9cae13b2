//! An output whose lines are said in words.

ghost use Rattle.std.specs.Prelude.{◌≡◌, [], IfOk};
ghost use Rattle.std.specs.Io.{WritesAtMost};
ghost use Rattle.std.specs.Io.KnownBytes.{WriteAppends};
ghost use Rattle.code_words.specs.Failures.{CountsFailures};

use crate::line_speaker::LineSpeaker;
use std::alloc::Global;
use std::io::{Error, ErrorKind, Result, Write};
use std::str;

/// An output that has each line said in words, once it is written, where that is asked for.
/// Otherwise it is the output.
#[derive(Drop)]
pub struct SpokenLines<W, S> {
    output: W,
    /// How many writes have failed.
    failures: u64,
    speech: Speech<S>,
}

/// What says lines, and the beginning of one that isn't ended.
#[derive(Drop)]
struct Speech<S> {
    speaker: Option<S>,
    begun: Vec<u8>,
}

impl<W: Write, S: LineSpeaker> SpokenLines<W, S> {
    /// This output, with words if there is something that says them.
    pub fn new(alloc: Global, speaker: Option<S>, output: W) -> SpokenLines<W, S>
        ensures output { result.output ≡ output }
        ensures speaker { result.speech.speaker ≡ speaker }
    {
        let begun = Vec::new(alloc);
        SpokenLines {
            output,
            failures: 0,
            speech: Speech { speaker, begun },
        }
    }
}

impl<W: Write, S: LineSpeaker> Write for SpokenLines<W, S> {
    ghost contents = { λ o. W.contents o.output };

    // Of bytes some are written, or it fails. It fails only where the output does.
    #[tactic(auto, using(crate::proofs::Writes::keeps_by_none))]
    fn write(&mut self, buf: &[u8]) -> Result<usize>
        ensures bound { WritesAtMost result buf.now }
        ensures bytes { WriteAppends (W.contents self.old.output) (W.contents self.new.output)
            result buf.now }
        ensures some { IfOk result (λ count. count ≡ 0 → buf.now ≡ []) }
        ensures failures { CountsFailures self.old.failures self.new.failures result }
    {
        let failed = match self.output.write(buf) {
            Ok(0) if !buf.is_empty() => Error::from(ErrorKind::WriteZero),
            Ok(count) => {
                self.speech.take(&buf[..count]);
                return Ok(count);
            }
            Err(error) => error,
        };
        self.failures = self.failures.saturating_add(1);
        Err(failed)
    }

    fn flush(&mut self) -> Result<()> {
        self.output.flush()
    }
}

impl<S: LineSpeaker> Speech<S> {
    // At the end of each line that was written, it is said.
    fn take(&mut self, written: &[u8]) {
        let Speech { speaker, begun } = self;
        let Some(speaker) = speaker else {
            return;
        };
        for byte in written {
            if *byte == b'\n' {
                if let Ok(line) = str::from_utf8(begun.as_slice()) {
                    speaker.say(line);
                }
                begun.clear();
            } else {
                let _ = begun.push(*byte);
            }
        }
    }
}
