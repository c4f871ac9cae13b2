//! What the program answers: an exit status, and a text.

ghost use Rattle.std.specs.Prelude.{◌≡◌, ℕ, take, IfOk, OnErr};
ghost use Rattle.std.specs.Io.KnownBytes.{Appends};

use crate::fault::ProgramFault;
use crate::output::write_all;
use std::io::Write;

/// An exit status, and the text to write.
#[derive(Drop)]
pub struct ProgramOutput {
    pub status: u8,
    pub text: String,
}

/// Writes a text, and gives the status.
pub fn write_output<W: Write>(output: &mut W, status: u8, text: &str) -> Result<u8, ProgramFault>
    ensures ok { IfOk result
        (λ given. (given ≡ status)
        × Appends (W.contents output.old) (W.contents output.new) text.now) }
    ensures err { OnErr result
        ((result ≡ Err ProgramFault.Output)
        × ((n : ℕ) × Appends (W.contents output.old) (W.contents output.new) (take n text.now))) }
{
    write_bytes(output, status, text.as_bytes())
}

/// Writes these bytes, and gives the status.
pub fn write_bytes<W: Write>(output: &mut W, status: u8, bytes: &[u8]) -> Result<u8, ProgramFault>
    ensures ok { IfOk result
        (λ given. (given ≡ status)
        × Appends (W.contents output.old) (W.contents output.new) bytes.now) }
    ensures err { OnErr result
        ((result ≡ Err ProgramFault.Output)
        × ((n : ℕ) × Appends (W.contents output.old) (W.contents output.new) (take n bytes.now))) }
{
    match write_all(output, bytes) {
        Ok(()) => Ok(status),
        Err(_) => Err(ProgramFault::Output),
    }
}
