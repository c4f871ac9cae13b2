//! What a piece of a cell says.

ghost use Rattle.ledger.specs.Parts.{IsEmpty};

use crate::ending::Ending;
use records::{Owner, Record};
use std::alloc::Global;

/// Whose cell it is, as its header says.
#[derive(Debug, Drop)]
pub struct Head {
    /// The federation, the site, and the members' weights. If no header names these, there is a
    /// single member of weight 1.
    pub owner: Owner,
    /// Whether a header names the weights.
    pub names_weights: bool,
}

/// What a piece of a cell says, beyond what those before it said.
#[derive(Debug, Drop)]
pub struct Part {
    /// Whose cell it is, if that wasn't said before.
    pub head: Option<Head>,
    /// The next records, in order.
    pub records: Vec<Record>,
}

/// The last part of a cell, and how it ends.
#[derive(Debug, Drop)]
pub struct LastPart {
    pub part: Part,
    pub ending: Ending,
}

/// What the next bytes of a cell say.
#[derive(Debug, Drop)]
pub enum Parts {
    /// These, and there may be more.
    More(Part),
    /// The last part: whatever follows these bytes, the cell is damaged.
    Last(LastPart),
}

impl Part {
    /// Nothing.
    pub(crate) fn new(alloc: Global) -> Part
        ensures { IsEmpty result }
    {
        Part {
            head: None,
            records: Vec::new(alloc),
        }
    }
}
