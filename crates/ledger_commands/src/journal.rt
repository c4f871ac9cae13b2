//! The lines of a cell.

ghost use Rattle.std.specs.Prelude.{◌≡◌, ◌++◌, ℕ, List, Option, IfOk, IfSome, IsErrOf};
ghost use Rattle.std.specs.Prelude.{OnErr, take, string_bytes};
ghost use Rattle.std.specs.Io.KnownBytes.{Appends};
ghost use Rattle.ledger.specs.Pieces.{HasGiven};
ghost use Rattle.ledger_commands.specs.Answers.{status_of};
ghost use Rattle.ledger_commands.specs.Journals.{IsListed, IsPartOfListing, HasFirstLines};
ghost use Rattle.ledger_commands.specs.inner.Journals.{IsAfterPiece, IsAfterEnd, some_status};

use crate::status::status_of;
use ledger::{JournalLines, LastLines, Lines};
use outcomes::{MOST_READS, ProgramFault, write_output};
use std::alloc::{AllocError, Global};
use std::io::{ErrorKind, Read, Write};

/// How many bytes are asked for at a time.
const PIECE: usize = 8192;

/// Reads a cell, and writes what it says: whose it is, each record, and how it ends, if that isn't
/// with a whole record. The exit status is 0, or 1 if the cell is damaged. A long cell is written
/// while it is read, and is never held whole, except for what comes before a header that names the
/// weights. If memory runs out, the line `memory` follows the lines so far, and the status is 1. A
/// reader that hasn't ended after `MOST_READS` reads counts as one that failed.
pub fn journal_on<R: Read, W: Write>(
    alloc: Global,
    cell: &mut R,
    output: &mut W,
) -> Result<u8, ProgramFault>
    ensures ok { IfOk result (λ status. IfSome (R.remaining cell.old)
        (IsListed (W.contents output.old) (W.contents output.new) status)) }
    ensures input { IsErrOf result ProgramFault.Input → IfSome (R.remaining cell.old)
        (HasFirstLines (W.contents output.old) (W.contents output.new)) }
    ensures output { IsErrOf result ProgramFault.Output → IfSome (R.remaining cell.old)
        (IsPartOfListing (W.contents output.old) (W.contents output.new)) }
{
    let mut lines = JournalLines::new(alloc);
    let mut piece = [0u8; PIECE];
    'reads: for _ in 0..MOST_READS {
        match cell.read(&mut piece) {
            Ok(0) => return write_end(alloc, &lines, output),
            Ok(count) => match write_piece(alloc, &mut lines, &piece[..count], output) {
                Ok(None) => {}
                Ok(Some(status)) => return Ok(status),
                Err(fault) => return Err(fault),
            },
            Err(error) => {
                if error.kind() != ErrorKind::Interrupted {
                    return Err(ProgramFault::Input);
                }
            }
        }
    }
    Err(ProgramFault::Input)
}

// Writes the lines that the next bytes of a cell give: the status, if they are the last.
fn write_piece<W: Write>(
    alloc: Global,
    lines: &mut JournalLines,
    piece: &[u8],
    output: &mut W,
) -> Result<Option<u8>, ProgramFault>
    ensures { (taken : List ℕ) (text : List ℕ) (first : Option (List ℕ))
        → HasGiven lines.old taken text → Appends first (W.contents output.old) text
        → IsAfterPiece (taken ++ piece.now) lines.new first (W.contents output.new) result }
{
    match lines.take(alloc, piece) {
        Ok(Lines::More(text)) => match write_output(output, 0, text.as_str()) {
            Ok(_) => Ok(None),
            Err(fault) => Err(fault),
        },
        Ok(Lines::Last(last)) => some_status(write_last(&last, output)),
        Err(AllocError) => some_status(write_output(output, 1, "memory\n")),
    }
}

// The status, if there is one.
fn some_status(given: Result<u8, ProgramFault>) -> Result<Option<u8>, ProgramFault>
    ensures { result ≡ some_status given }
{
    match given {
        Ok(status) => Ok(Some(status)),
        Err(fault) => Err(fault),
    }
}

// Writes the lines that are left, where the cell ends.
fn write_end<W: Write>(
    alloc: Global,
    lines: &JournalLines,
    output: &mut W,
) -> Result<u8, ProgramFault>
    ensures { (taken : List ℕ) (text : List ℕ) (first : Option (List ℕ))
        → HasGiven lines.now taken text → Appends first (W.contents output.old) text
        → IsAfterEnd taken first (W.contents output.new) result }
{
    match lines.end(alloc) {
        Ok(last) => write_last(&last, output),
        Err(AllocError) => write_output(output, 1, "memory\n"),
    }
}

// Writes the last lines, and gives their status.
fn write_last<W: Write>(last: &LastLines, output: &mut W) -> Result<u8, ProgramFault>
    ensures ok { IfOk result (λ given. (given ≡ status_of last.now.ending)
        × Appends (W.contents output.old) (W.contents output.new) (string_bytes last.now.text)) }
    ensures err { OnErr result ((result ≡ Err ProgramFault.Output)
        × ((n : ℕ) × Appends (W.contents output.old) (W.contents output.new)
        (take n (string_bytes last.now.text)))) }
{
    write_output(output, status_of(last.ending), last.text.as_str())
}
