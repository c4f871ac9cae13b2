//! The lines of a cell's versions, whose bytes come in pieces: its records are noted, and
//! forgotten.

ghost use Rattle.std.specs.Prelude.{◌≡◌, ◌++◌, List, ℕ, [], IfOk, string_bytes};
ghost use Rattle.records.specs.declared.record.Record.{Record};
ghost use Rattle.ledger.specs.Lines.{ending_line};
ghost use Rattle.ledger.specs.Ledgers.{versions_text};
ghost use Rattle.ledger.specs.LedgerPieces.{HasNoted, IsLedgerText, IsNoted};
ghost use Rattle.ledger.specs.inner.Rows.{Represents};

use crate::cell_reader::CellReader;
use crate::journal_lines::LastLines;
use crate::part::{LastPart, Parts};
use crate::version_filter::VersionFilter;
use crate::version_line::versions_text;
use crate::versions::{Versions, note_all};
use slot_table::ListedRows;
use std::alloc::{AllocError, Global};

/// What is said of each version so far, and what is kept of the cell's bytes.
#[derive(Drop)]
pub struct LedgerLines {
    reader: CellReader,
    versions: Versions,
}

impl LedgerLines {
    /// The lines of a cell of which nothing was read.
    pub fn new(alloc: Global) -> LedgerLines
        ensures { HasNoted result [] }
    {
        LedgerLines {
            reader: CellReader::new(alloc),
            versions: ListedRows::new(alloc),
        }
    }

    /// Notes what the next bytes of the cell say. If the cell is damaged, whatever follows, it
    /// gives the lines of all versions that are listed. After these or an error it can't be used
    /// any more.
    pub fn take(
        &mut self,
        alloc: Global,
        wanted: VersionFilter,
        piece: &[u8],
    ) -> Result<Option<LastLines>, AllocError>
        ensures { IfOk result (λ last. (taken : List ℕ) → HasNoted self.old taken
            → IsNoted wanted self.new (taken ++ piece.now) last) }
    {
        match self.reader.take(alloc, piece)? {
            Parts::More(part) => {
                note_all(&mut self.versions, &part.records)?;
                Ok(None)
            }
            Parts::Last(last) => Ok(Some(self.last_lines(alloc, wanted, last)?)),
        }
    }

    /// The lines of all versions that are listed, when the cell ends. After these it can't be used
    /// any more.
    pub fn end(&mut self, alloc: Global, wanted: VersionFilter) -> Result<LastLines, AllocError>
        ensures { IfOk result (λ last. (taken : List ℕ) → HasNoted self.old taken
            → IsLedgerText wanted taken last.ending (string_bytes last.text)) }
    {
        let last = self.reader.end(alloc)?;
        self.last_lines(alloc, wanted, last)
    }

    // The lines after the last part.
    fn last_lines(
        &mut self,
        alloc: Global,
        wanted: VersionFilter,
        last: LastPart,
    ) -> Result<LastLines, AllocError>
        ensures ending { IfOk result (λ lines. lines.ending ≡ last.ending) }
        ensures text { IfOk result (λ lines. (before : List Record)
            → Represents self.old.versions before
            → string_bytes lines.text ≡ versions_text wanted (before ++ last.part.records.items)
            ++ ending_line last.ending) }
    {
        note_all(&mut self.versions, &last.part.records)?;
        Ok(LastLines {
            text: versions_text(alloc, &self.versions, wanted, last.ending)?,
            ending: last.ending,
        })
    }
}
