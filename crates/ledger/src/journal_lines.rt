//! The lines of a cell whose bytes come in pieces.

ghost use Rattle.std.specs.Prelude.{◌++◌, ℕ, List, [], IfOk, string_bytes};
ghost use Rattle.ledger.specs.Pieces.{HasGiven, IsTaken, IsWholeText};

use crate::cell_reader::CellReader;
use crate::cell_text::{last_text, part_text};
use crate::ending::Ending;
use crate::part::Parts;
use std::alloc::{AllocError, Global};

/// The last lines of a cell, and how it ends.
#[derive(Debug, Drop)]
pub struct LastLines {
    pub text: String,
    pub ending: Ending,
}

/// What a piece of a cell gives.
#[derive(Debug, Drop)]
pub enum Lines {
    /// These lines, and perhaps more after the next piece.
    More(String),
    /// The last lines: whatever follows these bytes, the cell is damaged.
    Last(LastLines),
}

/// The lines of a cell, and what is kept of its bytes.
#[derive(Debug, Drop)]
pub struct JournalLines {
    reader: CellReader,
}

impl JournalLines {
    /// The lines of a cell of which nothing was read.
    pub fn new(alloc: Global) -> JournalLines
        ensures { HasGiven result [] [] }
    {
        JournalLines {
            reader: CellReader::new(alloc),
        }
    }

    /// The lines that the next bytes of the cell give. After an error it can't be used any more.
    pub fn take(&mut self, alloc: Global, piece: &[u8]) -> Result<Lines, AllocError>
        ensures { IfOk result (λ lines. (taken : List ℕ) (text : List ℕ)
            → HasGiven self.old taken text → IsTaken self.new (taken ++ piece.now) text lines) }
    {
        match self.reader.take(alloc, piece)? {
            Parts::More(part) => Ok(Lines::More(part_text(alloc, &part)?)),
            Parts::Last(last) => Ok(Lines::Last(LastLines {
                text: last_text(alloc, &last)?,
                ending: last.ending,
            })),
        }
    }

    /// The lines that are left, where the cell ends.
    pub fn end(&self, alloc: Global) -> Result<LastLines, AllocError>
        ensures { IfOk result (λ last. (taken : List ℕ) (text : List ℕ)
            → HasGiven self.now taken text
            → IsWholeText taken last.ending (text ++ string_bytes last.text)) }
    {
        let last = self.reader.end(alloc)?;
        Ok(LastLines {
            text: last_text(alloc, &last)?,
            ending: last.ending,
        })
    }
}
