//! What the program answers: an exit status, and a text.

ghost use Rattle.std.specs.Prelude.{◌≡◌, ℕ, take, IfOk, OnErr};
ghost use Rattle.std.specs.Io.KnownBytes.{Appends};
ghost use Rattle.cell_device.specs.Calls.{HasCause};

use crate::counted_write::CountedWrite;
use outcomes::ProgramFault;

/// Writes a text, and gives the status.
pub fn write_output<W: CountedWrite>(
    output: &mut W,
    status: u8,
    text: &str,
) -> Result<u8, ProgramFault>
    ensures ok { IfOk result
        (λ given. (given ≡ status)
        × Appends (W.contents output.old) (W.contents output.new) text.now) }
    ensures err { OnErr result
        ((result ≡ Err ProgramFault.Output)
        × ((n : ℕ) × Appends (W.contents output.old) (W.contents output.new) (take n text.now))) }
    ensures cause { HasCause ProgramFault.Output
        (W.failures output.old) (W.failures output.new) result }
{
    write_bytes(output, status, text.as_bytes())
}

/// Writes these bytes, and gives the status.
pub fn write_bytes<W: CountedWrite>(
    output: &mut W,
    status: u8,
    bytes: &[u8],
) -> Result<u8, ProgramFault>
    ensures ok { IfOk result
        (λ given. (given ≡ status)
        × Appends (W.contents output.old) (W.contents output.new) bytes.now) }
    ensures err { OnErr result
        ((result ≡ Err ProgramFault.Output)
        × ((n : ℕ) × Appends (W.contents output.old) (W.contents output.new) (take n bytes.now))) }
    ensures cause { HasCause ProgramFault.Output
        (W.failures output.old) (W.failures output.new) result }
{
    output.write_whole(bytes)?;
    Ok(status)
}
