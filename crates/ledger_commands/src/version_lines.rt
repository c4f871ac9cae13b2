//! The lines of a cell's versions.

ghost use Rattle.std.specs.Prelude.{IfOk, IfSome, IsErrOf, string_bytes};
ghost use Rattle.std.specs.Io.KnownBytes.{Keeps};
ghost use Rattle.outcomes.specs.Outcomes.{Writes, WritesPrefix};
ghost use Rattle.ledger.specs.LedgerPieces.{IsLedgerText};
ghost use Rattle.ledger_commands.specs.Answers.{AnswersTo};
ghost use Rattle.ledger_commands.specs.Ledgers.{IsLedger};

use crate::status::status_of;
use ledger::{LastLines, LedgerLines, VersionFilter};
use outcomes::{MOST_READS, ProgramFault, ReadFault, write_output};
use std::alloc::Global;
use std::io::{ErrorKind, Read, Write};

/// How many bytes are asked for at a time.
const PIECE: usize = 8192;

/// Reads a cell, and writes what it says of each version that is listed, and how it ends, if that
/// isn't with a whole record. The exit status is 0, or 1 if the cell is damaged. From a long cell
/// only the versions are held, and not the records, except for what comes before a header that
/// names the weights. If memory runs out, the line `memory` is written alone, and the status is 1.
/// A reader that hasn't ended after `MOST_READS` reads counts as one that failed.
pub fn ledger_on<R: Read, W: Write>(
    alloc: Global,
    cell: &mut R,
    output: &mut W,
    wanted: VersionFilter,
) -> Result<u8, ProgramFault>
    ensures ok { IfOk result (λ status. IfSome (R.remaining cell.old) (λ bytes.
        AnswersTo (IsLedger wanted) bytes
        (Writes (W.contents output.old) (W.contents output.new) status))) }
    ensures input { IsErrOf result ProgramFault.Input
        → Keeps (W.contents output.old) (W.contents output.new) }
    ensures output { IsErrOf result ProgramFault.Output
        → IfSome (R.remaining cell.old) (λ bytes. AnswersTo (IsLedger wanted) bytes
        (WritesPrefix (W.contents output.old) (W.contents output.new))) }
{
    match read_lines(alloc, cell, wanted) {
        Ok(last) => write_output(output, status_of(last.ending), last.text.as_str()),
        Err(ReadFault::Input) => Err(ProgramFault::Input),
        Err(ReadFault::Memory) => write_output(output, 1, "memory\n"),
    }
}

// The lines of the versions that are listed, and how the cell ends.
fn read_lines<R: Read>(
    alloc: Global,
    cell: &mut R,
    wanted: VersionFilter,
) -> Result<LastLines, ReadFault>
    ensures { IfOk result (λ last. IfSome (R.remaining cell.old) (λ bytes.
        IsLedgerText wanted bytes last.ending (string_bytes last.text))) }
{
    let mut lines = LedgerLines::new(alloc);
    let mut piece = [0u8; PIECE];
    'reads: for _ in 0..MOST_READS {
        match cell.read(&mut piece) {
            Ok(0) => return Ok(lines.end(alloc, wanted)?),
            Ok(count) => match lines.take(alloc, wanted, &piece[..count])? {
                Some(last) => return Ok(last),
                None => {}
            },
            Err(error) => {
                if error.kind() != ErrorKind::Interrupted {
                    return Err(ReadFault::Input);
                }
            }
        }
    }
    Err(ReadFault::Input)
}
