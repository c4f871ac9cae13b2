//! Where the headers and records of a cell end.

ghost use Rattle.std.specs.Prelude.{◌≡◌, IfOk, length};
ghost use Rattle.ledger.specs.declared.ending.Ending.{Ending};
ghost use Rattle.ledger.specs.Parts.{Told, IsWhole};
ghost use Rattle.cell_file.specs.TextEnds.{text_end};

use ledger::{CellReader, Ending, Parts};
use std::alloc::{AllocError, Global};

/// Where the last whole record of these bytes of a cell ends, or the last whole header: 0 if there
/// is none.
pub(crate) fn find_text_end(alloc: Global, bytes: &[u8]) -> Result<usize, AllocError>
    ensures { IfOk result (λ end. (told : Told) × (ending : Ending)
        × IsWhole bytes.now told ending × (end ≡ text_end ending (length bytes.now))) }
{
    Ok(text_end(ending_of(alloc, bytes)?, bytes.len()))
}

// How they end.
fn ending_of(alloc: Global, bytes: &[u8]) -> Result<Ending, AllocError>
    ensures { IfOk result (λ ending. (told : Told) × IsWhole bytes.now told ending) }
{
    let mut reader = CellReader::new(alloc);
    match reader.take(alloc, bytes)? {
        Parts::Last(last) => Ok(last.ending),
        Parts::More(_) => Ok(reader.end(alloc)?.ending),
    }
}

// Where whole records end in a cell of `len` bytes with this ending.
fn text_end(ending: Ending, len: usize) -> usize
    ensures { result ≡ text_end ending len }
{
    match ending {
        Ending::Whole => len,
        Ending::Torn(count) => len.saturating_sub(count),
        Ending::Damaged(place) => place,
    }
}
