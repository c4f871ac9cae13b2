//! What is written of a source that can't be used.

ghost use Rattle.std.specs.Prelude.{◌≡◌, IfOk, IfErr, OnErr};
ghost use Rattle.cell_device.specs.Calls.{HasCause};
ghost use Rattle.outcomes.specs.Outcomes.{Writes, WritesPrefix};
ghost use Rattle.known_bags.specs.Faults.{AnswersFault};
ghost use Rattle.known_bags.specs.inner.Lines.{IsWritten};

use crate::sources::SourceFault;
use counted_writes::{CountedWrite, write_output};
use outcomes::ProgramFault;
use std::alloc::{AllocError, Global};

/// Writes why a source knows nothing, or, without memory for the number in that line, that memory
/// ran out; the status is 1.
pub fn write_fault<W: CountedWrite>(
    alloc: Global,
    output: &mut W,
    fault: SourceFault,
) -> Result<u8, ProgramFault>
    ensures ok { IfOk result (λ status. AnswersFault fault
        (Writes (W.contents output.old) (W.contents output.new) status)) }
    ensures output { OnErr result (AnswersFault fault
        (WritesPrefix (W.contents output.old) (W.contents output.new))) }
    ensures fault { IfErr result (λ fault. fault ≡ ProgramFault.Output) }
    ensures cause { HasCause ProgramFault.Output (W.failures output.old) (W.failures output.new)
        result }
{
    match fault {
        SourceFault::Unread => write_output(output, 1, "open 4\n"),
        SourceFault::Memory => write_output(output, 1, "memory\n"),
        SourceFault::Damaged(offset) => {
            write_line(output, format!(in alloc; "damaged {offset}\n"))
        }
        SourceFault::Line(line) => write_line(output, format!(in alloc; "ledger line {line}\n")),
    }
}

// Writes a line, or that there was no memory for it; the status is 1.
fn write_line<W: CountedWrite>(
    output: &mut W,
    line: Result<String, AllocError>,
) -> Result<u8, ProgramFault>
    ensures ok { IfOk result (λ status. IsWritten line (λ outcome.
        Writes (W.contents output.old) (W.contents output.new) status outcome)) }
    ensures output { OnErr result (IsWritten line (λ outcome.
        WritesPrefix (W.contents output.old) (W.contents output.new) outcome)) }
    ensures fault { IfErr result (λ fault. fault ≡ ProgramFault.Output) }
    ensures cause { HasCause ProgramFault.Output (W.failures output.old) (W.failures output.new)
        result }
{
    match line {
        Ok(line) => write_output(output, 1, line.as_str()),
        Err(AllocError) => write_output(output, 1, "memory\n"),
    }
}
