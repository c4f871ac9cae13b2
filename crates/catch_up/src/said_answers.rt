//! What is said of questions, and why they aren't asked to the end.

ghost use Rattle.std.specs.Prelude.{◌≡◌, Err, IfOk, OnOk, OnErr};
ghost use Rattle.std.specs.Io.KnownBytes.{Appends};
ghost use Rattle.cell_device.specs.Calls.{HasCause};
ghost use Rattle.catch_up.specs.Lines.{count_line};
ghost use Rattle.catch_up.specs.Reports.{status_of};
ghost use Rattle.catch_up.specs.inner.Progress.{AppendsPart};
ghost use Rattle.catch_up.specs.declared.said_answers.AskFault.TheVariants.{Memory, Output};

use crate::progress::count_line;
use counted_writes::CountedWrite;
use std::alloc::{AllocError, Global};

/// Why a site isn't asked to the end.
#[derive(Clone, Copy, Debug, PartialEq, Eq)]
pub enum AskFault {
    /// Memory ran out.
    Memory,
    /// A write failed.
    Output,
}

impl From<AllocError> for AskFault {
    ghost use Rattle.catch_up.specs.declared.said_answers.AskFault.TheVariants.{Memory};

    ghost from_gives = { λ _ e. e ≡ Memory };

    fn from(_: AllocError) -> AskFault {
        AskFault::Memory
    }
}

/// Writes the line that says how many of how many have come to what was asked for. The answer is
/// the status: 0 if all have.
pub fn write_count<W: CountedWrite>(
    alloc: Global,
    same: usize,
    count: usize,
    output: &mut W,
) -> Result<u8, AskFault>
    ensures status { IfOk result (λ status. status ≡ status_of same count) }
    ensures ok { OnOk result (Appends (W.contents output.old) (W.contents output.new)
        (count_line same count)) }
    ensures err { OnErr result (AppendsPart (W.contents output.old) (W.contents output.new)
        (count_line same count)) }
    ensures cause { HasCause Output (W.failures output.old) (W.failures output.new) result }
{
    let line = count_line(alloc, same, count)?;
    say(output, line.as_str())?;
    Ok(if same == count { 0 } else { 1 })
}

/// Writes a line.
pub fn say<W: CountedWrite>(output: &mut W, line: &str) -> Result<(), AskFault>
    ensures ok { OnOk result (Appends (W.contents output.old) (W.contents output.new) line.now) }
    ensures err { OnErr result (result ≡ Err Output) }
    ensures part { OnErr result
        (AppendsPart (W.contents output.old) (W.contents output.new) line.now) }
    ensures cause { HasCause Output (W.failures output.old) (W.failures output.new) result }
{
    match output.write_whole(line.as_bytes()) {
        Ok(()) => Ok(()),
        Err(_) => Err(AskFault::Output),
    }
}
