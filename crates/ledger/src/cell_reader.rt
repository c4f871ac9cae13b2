//! A cell whose bytes come in pieces: its records are given as soon as there are many of them, and
//! forgotten.

ghost use Rattle.std.specs.Prelude.{◌++◌, ℕ, List, [], IfOk};
ghost use Rattle.ledger.specs.Parts.{Told, nothing, HasTold, Tells, TellsLast};
ghost use Rattle.ledger.specs.inner.Steps.{IsStep};

use crate::part::{LastPart, Part, Parts};
use crate::steps::{Step, begin, go_on, last_part, whole_part};
use records::Owner;
use std::alloc::{AllocError, Global};

/// This many bytes are read as records at once, so that each read has many records.
const WINDOW: usize = 65536;

/// What is kept of a cell's bytes.
#[derive(Debug, Drop)]
pub struct CellReader {
    // Whose cell it is, once a header was found that names the weights.
    owner: Option<Owner>,
    // How many bytes of the cell were read as headers and records.
    passed: usize,
    // All bytes, while no such header was found; then what follows the last record that was given.
    bytes: Vec<u8>,
    // They are read when there are this many.
    wanted: usize,
}

impl CellReader {
    /// The reader of a cell of which nothing was read.
    pub fn new(alloc: Global) -> CellReader
        ensures { HasTold result [] nothing }
    {
        CellReader {
            owner: None,
            passed: 0,
            bytes: Vec::new(alloc),
            wanted: WINDOW,
        }
    }

    /// What the next bytes of the cell say. If this is how the cell ends, it is damaged, whatever
    /// follows, and the reader can't be used any more; nor can it after an error.
    pub fn take(&mut self, alloc: Global, piece: &[u8]) -> Result<Parts, AllocError>
        ensures { IfOk result (λ parts. (taken : List ℕ) (told : Told)
            → HasTold self.old taken told → Tells self.new (taken ++ piece.now) told parts) }
    {
        self.bytes.extend_from_slice(piece)?;
        if self.bytes.len() < self.wanted {
            return Ok(Parts::More(Part::new(alloc)));
        }
        let step = self.step(alloc)?;
        Ok(self.after(alloc, step))
    }

    // What the bytes that are kept say.
    fn step(&self, alloc: Global) -> Result<Step, AllocError>
        ensures { IfOk result (λ step. (taken : List ℕ) (told : Told)
            → HasTold self.now taken told → IsStep taken told step) }
    {
        match &self.owner {
            None => begin(alloc, self.bytes.as_slice()),
            Some(owner) => go_on(alloc, owner, self.passed, self.bytes.as_slice()),
        }
    }

    // The parts that a step gives; after it the reader is at that place.
    fn after(&mut self, alloc: Global, step: Step) -> Parts
        ensures { (taken : List ℕ) (told : Told) → HasTold self.old taken told
            → IsStep taken told step → Tells self.new taken told result }
    {
        match step {
            // The next look is at twice as many bytes, so that all looks together take little time.
            Step::Wait => {
                self.wanted = self.wanted.saturating_mul(2);
                Parts::More(Part::new(alloc))
            }
            Step::Next(kept) => {
                self.owner = Some(kept.owner);
                self.passed = kept.passed;
                self.bytes = kept.bytes;
                Parts::More(kept.part)
            }
            Step::End(last) => Parts::Last(last),
        }
    }

    /// What is left to say, where the cell ends.
    pub fn end(&self, alloc: Global) -> Result<LastPart, AllocError>
        ensures { IfOk result (λ last. (taken : List ℕ) (told : Told)
            → HasTold self.now taken told → TellsLast taken told last) }
    {
        match &self.owner {
            None => whole_part(alloc, self.bytes.as_slice()),
            Some(owner) => last_part(alloc, owner, self.passed, self.bytes.as_slice()),
        }
    }
}
