//! Writing all of a text.

ghost use Rattle.std.specs.Prelude.{ℕ, take, OnOk, OnErr};
ghost use Rattle.std.specs.Io.KnownBytes.{Appends};

use std::io::{ErrorKind, Write};

/// A write failed.
#[derive(Clone, Copy, Debug, PartialEq, Eq)]
pub struct WriteFault;

/// Writes all of a text. If a write fails, a prefix of it was written. Writes that were interrupted
/// are tried again; one that takes nothing counts as one that failed.
pub fn write_all<W: Write>(output: &mut W, text: &[u8]) -> Result<(), WriteFault>
    ensures ok { OnOk result (Appends (W.contents output.old) (W.contents output.new) text.now) }
    ensures err { OnErr result
        ((n : ℕ) × Appends (W.contents output.old) (W.contents output.new) (take n text.now)) }
{
    let mut written = 0;
    'writes: for _ in 0..u64::MAX {
        if written == text.len() {
            return match output.flush() {
                Ok(()) => Ok(()),
                Err(_) => Err(WriteFault),
            };
        }
        match output.write(&text[written..]) {
            Ok(0) => return Err(WriteFault),
            Ok(count) => written += count,
            Err(error) => {
                if error.kind() != ErrorKind::Interrupted {
                    return Err(WriteFault);
                }
            }
        }
    }
    Err(WriteFault)
}
